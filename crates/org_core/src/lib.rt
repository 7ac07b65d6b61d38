//! What every group of routes stands on: an organisation's state and the moves that change it, the
//! permissions that operations need, and the rules that a group is made of.
#![tactic(auto)]

mod bodies;
mod comers;
mod contexts;
mod creating;
mod file_moves;
mod group_members;
mod manifests;
mod moves;
mod needs;
mod org_state;
mod prepared;
mod rules;
mod stored;

pub use access_lists::Perm;
pub use bodies::{object_in_body, object_named};
pub use comers::Comer;
pub use contexts::{Context, Lent};
pub use creating::{add_both, add_with_list, create_by, created_list};
pub use file_moves::{FileMove, is_complete};
pub use group_members::GroupMembers;
pub use manifests::{bad_manifest, missing_sums, missing_told, shown_edition, shown_found};
pub use moves::{Move, Moves, one_move};
pub use needs::{Need, Needs, first_lacking, is_known, key_of, listed_need};
pub use org_state::OrgState;
pub use prepared::{or_stop, prepared_showing, reply_copying, reply_showing, unmoved, with_moves};
pub use rules::{Group, Prepared};
pub use stored::{Stored, named_by};

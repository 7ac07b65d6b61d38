//! What an organisation keeps on shelves: the versions of its cookbooks and artifacts, each typed, so that nobody reads a
//! manifest anew, the revisions of its policies, and policy groups; and how moves change them, and with them the
//! organisation's files.
#![tactic(auto)]

mod assignments;
mod editions;
mod files;
mod laws;
mod naming;
mod org_shelves;
mod revision;
mod segments;
mod shelf_moves;
mod showing;
mod universes;

pub use assignments::Assignments;
pub use editions::Edition;
pub use files::is_committed;
pub use laws::{
    artifacts_are_stored, frozen_are_stored, manifests_are_kept, manifests_are_stored,
    named_files_stay, sound_moves_keep, stored_manifests_say, version_fits,
};
pub use naming::is_named;
pub use org_shelves::{Artifacts, Cookbooks, OrgShelves, Policies, PolicyGroups};
pub use revision::Revision;
pub use shelf_moves::{ShelfMove, make_on_shelves};
pub use showing::shown;
pub use universes::universe_of;

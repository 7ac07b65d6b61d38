//! The users, clients and groups of an organisation, and who is in a group.
#![tactic(auto)]

mod group;
mod group_map;
mod groups;
mod laws;
mod leading;
mod lists;
mod member_kind;
mod name_set;
mod starting_groups;
mod text_set;
mod text_trees;

pub use group::Group;
pub use groups::{Groups, is_operator};
pub use laws::{belonging_is_decided, changes_follow_the_lists};
pub use lists::{GroupLists, GroupRow, GroupRows};
pub use member_kind::MemberKind;
pub use starting_groups::is_starting_group;
pub use text_set::TextSet;
pub use text_trees::{texts_among, texts_in, texts_tree};

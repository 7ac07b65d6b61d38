//! What can be asked of groups, users, containers and access lists: one operation for each path and
//! method of the table of routes, with all that the path and the body say.

use access_lists::{Entry, Perm};
use doc_tree::Text;
use object_store::Key;
use org_core::Stored;

/// What can be asked of those who may do something, and of what they may do.
#[derive(Drop)]
pub enum AccessOperation {
    /// To list the groups.
    ListGroups,
    /// To create a group of this name.
    CreateGroup(Text),
    /// To show the group of this name.
    ShowGroup(Text),
    /// To give the group of this name the members that this one has.
    ReplaceGroup(Text, Stored),
    /// To remove the group of this name.
    RemoveGroup(Text),
    /// To list the users.
    ListUsers,
    /// To create a user of this name.
    CreateUser(Text),
    /// To show the user of this name.
    ShowUser(Text),
    /// To remove the user of this name.
    RemoveUser(Text),
    /// To list the containers.
    ListContainers,
    /// To show the container of this name.
    ShowContainer(Text),
    /// To show the access list of the object of this key.
    ShowList(Key),
    /// To replace the entry of this permission in the access list of the object of this key.
    ReplaceEntry(Key, Perm, Entry),
}

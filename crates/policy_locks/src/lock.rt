//! Locks, and what they hold.
ghost use Rattle.std.specs.Prelude.{◌≡◌};

use doc_tree::{Fields, Listed, Name, Text, Tree};
use run_lists::{Items, NamedRunLists};
use std::alloc::Global;
use version_rules::Version;

/// A cookbook that is locked: at a version, to the artifact of an identifier.
#[derive(Debug, PartialEq, Eq, Drop)]
pub struct CookbookLock {
    pub name: Name,
    pub version: Version,
    pub identifier: Text,
}

/// Locked cookbooks, in order: contracts see the list of them.
pub type CookbookLocks = Listed<CookbookLock>;

/// A lock of a policy: its revision, the policy's name, its run list and named run lists, the cookbooks that it locks,
/// its attributes and what its solution depends on, and the stored object, from which it is read again. The locked
/// cookbooks of a lock that was read or made stand in the byte order of their names, and so do its named run lists where
/// they were read.
#[derive(Drop)]
pub struct Lock {
    pub revision_id: Name,
    pub name: Name,
    pub run_list: Items,
    pub named_run_lists: NamedRunLists,
    pub cookbook_locks: CookbookLocks,
    pub default_attributes: Fields,
    pub override_attributes: Fields,
    pub solution_dependencies: Fields,
    pub whole: Tree,
}

impl Lock {
    /// A lock of these names, whose other fields are empty. It takes no memory.
    pub(crate) fn empty(alloc: Global, revision_id: Name, name: Name) -> Lock
        ensures revision { result.revision_id ≡ revision_id }
        ensures name { result.name ≡ name }
    {
        Lock {
            revision_id,
            name,
            run_list: Items::new(alloc),
            named_run_lists: NamedRunLists::new(alloc),
            cookbook_locks: CookbookLocks::new(alloc),
            default_attributes: Fields::new(alloc),
            override_attributes: Fields::new(alloc),
            solution_dependencies: Fields::new(alloc),
            whole: Tree::Null,
        }
    }
}

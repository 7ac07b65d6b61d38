//! Roles: the run lists that a name stands for.
ghost use Rattle.std.specs.Prelude.{◌≡◌, option_copied};
ghost use Rattle.run_lists.specs.Roles.{list_for, own_list};

use crate::by_name::{NamedRunList, NamedRunLists};
use crate::items::{Item, Items};
use doc_tree::Name;
use indexmap::IndexMap;

/// The run lists of a role.
#[derive(Drop)]
pub struct RunLists {
    /// What it runs in an environment for which it has no list.
    pub run_list: Items,
    /// What it runs in these environments in place of that, in any order. Of two for one environment the first counts.
    pub env_run_lists: NamedRunLists,
}

/// A role, as it is read from its stored object.
#[derive(Drop)]
pub struct Role {
    pub name: Name,
    pub run_lists: RunLists,
}

/// The run lists of roles by the roles' names, of which no two are the same.
pub type Roles = IndexMap<Name, RunLists>;

impl RunLists {
    /// What the role runs in an environment.
    pub(crate) fn list_for(&self, env: &Name) -> &[Item]
        ensures { result.now ≡ list_for env.now self.now }
    {
        match own_list(self.env_run_lists.as_slice(), env) {
            Some(items) => items.as_slice(),
            None => self.run_list.as_slice(),
        }
    }
}

fn own_list<'a>(lists: &'a [NamedRunList], env: &Name) -> Option<&'a Items>
    ensures { option_copied result ≡ own_list lists.now env.now }
{
    for list in lists {
        if *env == list.name {
            return Some(&list.run_list);
        }
    }
    None
}

//! Who may do what.
ghost use Rattle.std.specs.Prelude.{◌≡◌, ◌↔◌, ◌||◌, IsTrue, option_copied};
ghost use Rattle.access_lists.specs.Acls.{entry_of};
ghost use Rattle.access_lists.specs.Creators.{is_creator};
ghost use Rattle.access_lists.specs.Permitted.{Permitted, is_permitted};

use crate::acl::Entry;
use crate::lent::AclAt;
use crate::perm::Perm;
use doc_tree::Text;
use membership::{Groups, is_operator};

/// Whether a caller may do to an object of this access list what the permission is of: the caller is
/// `pivotal`, or one of the entry's actors, or belongs to one of its groups, be it through groups within
/// it. It takes no memory, and three look-ups by hash for each of its groups and two for each to which
/// that leads, whatever the number of their members.
pub fn permitted(groups: &Groups, acl: AclAt<'_>, perm: Perm, caller: &Text) -> bool
    ensures set { IsTrue result ↔ Permitted groups.now.membership (entry_of perm acl.entry) caller.now }
    ensures value { result ≡ is_permitted groups.now.membership (entry_of perm acl.entry) caller.now }
{
    permitted_for(groups, acl.creator, acl.base.entry(perm), caller)
}

// Whether a caller may what an entry is of, where the creator, if there is one, may too.
fn permitted_for(groups: &Groups, creator: Option<&Text>, entry: &Entry, caller: &Text) -> bool
    ensures { result ≡ (is_creator (option_copied creator.entry) caller.now || is_permitted groups.now.membership entry.now caller.now) }
{
    is_creator(creator, caller) || permitted_by(groups, entry, caller)
}

fn is_creator(creator: Option<&Text>, caller: &Text) -> bool
    ensures { result ≡ is_creator (option_copied creator.entry) caller.now }
{
    match creator {
        Some(name) => caller == name,
        None => false,
    }
}

fn permitted_by(groups: &Groups, entry: &Entry, caller: &Text) -> bool
    ensures { result ≡ is_permitted groups.now.membership entry.now caller.now }
{
    if is_operator(caller) {
        return true;
    }
    if entry.actors.contains(caller) {
        return true;
    }
    groups.belongs_to_any(caller, entry.groups.as_slice())
}

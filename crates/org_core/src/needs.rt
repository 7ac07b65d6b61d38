//! The permissions that operations need.

ghost use Rattle.std.specs.Prelude.{◌≡◌, IfOk};
ghost use Rattle.object_store.specs.Objects.{key};
ghost use Rattle.org_core.specs.Contexts.{seen};
ghost use Rattle.org_core.specs.Needs as spec;

use crate::contexts::Context;
use access_lists::{Perm, permitted};
use doc_tree::{Kind, Listed, NoMemory, Text};
use object_store::Key;
use org_requests::Refusal;
use std::alloc::Global;

/// A permission that an operation needs, and where it is looked up.
#[derive(Drop)]
pub enum Need {
    /// Only the operator has it.
    Operator(Perm),
    /// The access list of the object of this key grants it.
    Listed(Perm, Key),
}

/// Permissions, in the order in which they are looked up.
pub type Needs = Listed<Need>;

impl Need {
    /// The permission.
    pub fn permission(&self) -> Perm
        ensures { result ≡ spec.permission_of self.now }
    {
        match self {
            Need::Operator(permission) => *permission,
            Need::Listed(permission, _) => *permission,
        }
    }
}

/// Whether the caller is known: the operator, or a user or client of the organisation. It takes no
/// memory, and two look-ups by hash at most.
pub fn is_known(context: Context<'_>) -> bool
    ensures { result ≡ spec.is_known (seen context.entry) }
{
    match context.caller {
        None => false,
        Some(name) => context.state.groups().is_actor(name),
    }
}

/// The first of these needs that isn't granted to the caller; `None` exactly where each is. The operator
/// is granted what the list of an object that is there grants, and is asked for before.
pub fn first_lacking(context: Context<'_>, needs: &[Need]) -> Option<Refusal>
    ensures { result ≡ spec.first_lacking (seen context.entry) needs.now }
{
    for need in needs {
        if !is_granted(context, need) {
            return Some(Refusal::Forbidden(need.permission()));
        }
    }
    None
}

/// Whether what is needed is granted to the caller.
fn is_granted(context: Context<'_>, need: &Need) -> bool
    ensures { result ≡ spec.is_granted (seen context.entry) need.now }
{
    match need {
        Need::Operator(_) => false,
        Need::Listed(permission, key) => grants(context, *permission, key),
    }
}

/// Whether the access list of this key is there and grants a permission to the caller.
fn grants(context: Context<'_>, permission: Perm, key: &Key) -> bool
    ensures { result ≡ spec.is_granted (seen context.entry) (Need.Listed permission key.now) }
{
    match (context.state.acl(key), context.caller) {
        (Some(list), Some(caller)) => permitted(context.state.groups(), list, permission, caller),
        _ => false,
    }
}

/// A permission that is looked up in the list of the object of this kind and name.
pub fn listed_need(
    alloc: Global,
    permission: Perm,
    kind: Kind,
    name: &str,
) -> Result<Need, NoMemory>
    ensures { IfOk result (λ need. need ≡ Need.Listed permission (key kind name.now)) }
{
    Ok(Need::Listed(permission, key_of(alloc, kind, name)?))
}

/// The key of this kind and name.
pub fn key_of(alloc: Global, kind: Kind, name: &str) -> Result<Key, NoMemory>
    ensures { IfOk result (λ k. k ≡ key kind name.now) }
{
    Ok(Key {
        kind,
        name: Text::from_str(alloc, name)?,
    })
}

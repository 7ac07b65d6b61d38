//! Reading a lock from a body.
ghost use Rattle.std.specs.Prelude.{IfOk, None, Ok, Some, [], codes, option_copied};
ghost use Rattle.doc_tree.specs.Doc.{pairs_of};
ghost use Rattle.doc_tree.specs.Tree.{doc_of};
ghost use Rattle.doc_tree.specs.declared.tree.Tree.TheVariants as tree;
ghost use Rattle.cookbook_meta.specs.Faults.{then_do};
ghost use Rattle.policy_locks.specs.Outcomes.{Gives};
ghost use Rattle.policy_locks.specs.Parts as parts;
ghost use Rattle.policy_locks.specs.Reading as spec;
ghost use Rattle.policy_locks.specs.Stored as stored;
ghost use Rattle.run_lists.specs.declared.reading.Allowed.TheVariants as allowed;

use crate::fault::{LockFault, bad_field, in_field};
use crate::fill::fill;
use crate::lock::{CookbookLocks, Lock};
use crate::parts::{cookbook_locks, fields_of, name_of};
use crate::stored::whole_of;
use doc_tree::{Fields, Name, NoMemory, Tree};
use run_lists::{Allowed, Items, NamedRunLists, items_read, named_run_lists};
use std::alloc::Global;

/// The lock that a body gives, looked at field by field: `revision_id` and `name`, Names; `run_list`, a list of items;
/// `named_run_lists`, a Dict from Names to lists of items, which may be missing; `cookbook_locks`, a Dict from Names to
/// Dicts with a `version` and an `identifier` of 40 lower-case hexadecimal digits; and `default_attributes`,
/// `override_attributes` and `solution_dependencies`, Dicts which may be missing. Keys that aren't listed are kept.
///
/// It is `BadField` exactly where a field hasn't its form, with the first in this order. What is no Dict fails as
/// `revision_id` does.
pub fn read_lock(alloc: Global, tree: &Tree) -> Result<Lock, LockFault>
    ensures lock { Gives result (spec.lock_from None (doc_of tree.now)) }
    ensures order { IfOk result spec.IsInOrder }
{
    lock_from(alloc, None, tree)
}

/// The lock of a policy that a body gives: as [`read_lock`] says, where `name` has its form exactly where it is the
/// policy's.
pub fn read_lock_of(alloc: Global, tree: &Tree, policy: &Name) -> Result<Lock, LockFault>
    ensures lock { Gives result (spec.lock_from (Some policy.now) (doc_of tree.now)) }
    ensures order { IfOk result spec.IsInOrder }
{
    lock_from(alloc, Some(policy), tree)
}

fn lock_from(alloc: Global, policy: Option<&Name>, tree: &Tree) -> Result<Lock, LockFault>
    ensures lock { Gives result (spec.lock_from (option_copied policy.entry) (doc_of tree.now)) }
    ensures order { IfOk result spec.IsInOrder }
{
    // The keys of each Dict are in order.
    tree.known();
    match tree {
        Tree::Dict(body) => lock_in(alloc, policy, body),
        Tree::Null | Tree::Bool(_) | Tree::Whole(_) | Tree::Words(_) | Tree::List(_) => {
            Err(bad_field(alloc, "revision_id"))
        }
    }
}

fn lock_in(alloc: Global, policy: Option<&Name>, body: &Fields) -> Result<Lock, LockFault>
    ensures { Gives result (spec.lock_in (option_copied policy.entry) (pairs_of body.now)) }
{
    let revision_id = name_at(alloc, "revision_id", body)?;
    let name = policy_name_at(alloc, policy, body)?;
    let mut lock = Lock::empty(alloc, revision_id, name);
    fill_lock(alloc, body, &mut lock)?;
    Ok(lock)
}

/// Fills the fields of a lock that stand behind its names.
fn fill_lock(alloc: Global, body: &Fields, lock: &mut Lock) -> Result<(), LockFault>
    ensures { Gives (then_do result (λ done. Ok lock.new)) (then_do (parts.must parts.run_list_of (codes "run_list") (pairs_of body.now)) (λ run_list. then_do (parts.may [] (parts.named_run_lists allowed.Items) (codes "named_run_lists") (pairs_of body.now)) (λ lists. then_do (parts.must parts.cookbook_locks (codes "cookbook_locks") (pairs_of body.now)) (λ cookbooks. then_do (parts.may [] parts.dict_of (codes "default_attributes") (pairs_of body.now)) (λ default. then_do (parts.may [] parts.dict_of (codes "override_attributes") (pairs_of body.now)) (λ override. then_do (parts.may [] parts.dict_of (codes "solution_dependencies") (pairs_of body.now)) (λ solution. Ok (record { revision_id = lock.old.revision_id; name = lock.old.name; run_list = run_list; named_run_lists = lists; cookbook_locks = cookbooks; default_attributes = default; override_attributes = override; solution_dependencies = solution; whole = tree.Dict (stored.whole_of run_list lists default override solution (pairs_of body.now)) })))))))) }
{
    fill(&mut lock.run_list, run_list_at(alloc, Allowed::Items, body))?;
    fill(
        &mut lock.named_run_lists,
        lists_at(alloc, Allowed::Items, body),
    )?;
    fill(&mut lock.cookbook_locks, locks_at(alloc, body))?;
    fill(
        &mut lock.default_attributes,
        dict_at(alloc, "default_attributes", body),
    )?;
    fill(
        &mut lock.override_attributes,
        dict_at(alloc, "override_attributes", body),
    )?;
    fill(
        &mut lock.solution_dependencies,
        dict_at(alloc, "solution_dependencies", body),
    )?;
    let whole = whole_of(alloc, lock, body);
    fill(&mut lock.whole, whole)?;
    Ok(())
}

/// The Name at a key that must be there.
pub(crate) fn name_at(alloc: Global, key: &str, body: &Fields) -> Result<Name, LockFault>
    ensures { Gives result (parts.must parts.name_of key.now (pairs_of body.now)) }
{
    let found = match body.get(key) {
        Some(tree) => name_of(alloc, tree)?,
        None => None,
    };
    in_field(alloc, key, found)
}

/// The name of the policy of a lock.
fn policy_name_at(alloc: Global, policy: Option<&Name>, body: &Fields) -> Result<Name, LockFault>
    ensures { Gives result (parts.must (spec.policy_name (option_copied policy.entry)) (codes "name") (pairs_of body.now)) }
{
    let found = match body.get("name") {
        Some(tree) => policy_name(alloc, policy, tree)?,
        None => None,
    };
    in_field(alloc, "name", found)
}

ghost use Rattle.std.specs.Prelude.{◌≡◌};

fn policy_name(alloc: Global, policy: Option<&Name>, tree: &Tree) -> Result<Option<Name>, NoMemory>
    ensures { IfOk result (λ found. found ≡ spec.policy_name (option_copied policy.entry) (doc_of tree.now)) }
{
    let Some(name) = name_of(alloc, tree)? else {
        return Ok(None);
    };
    if is_of(policy, &name) {
        Ok(Some(name))
    } else {
        Ok(None)
    }
}

fn is_of(policy: Option<&Name>, name: &Name) -> bool
    ensures { result ≡ spec.is_of (option_copied policy.entry) name.now }
{
    match policy {
        Some(policy) => *name == *policy,
        None => true,
    }
}

/// The run list of a body, which may hold these items.
pub(crate) fn run_list_at(
    alloc: Global,
    allowed: Allowed,
    body: &Fields,
) -> Result<Items, LockFault>
    ensures { Gives result (parts.must (parts.items_read allowed) (codes "run_list") (pairs_of body.now)) }
{
    let found = match body.get("run_list") {
        Some(tree) => items_read(alloc, allowed, tree)?,
        None => None,
    };
    in_field(alloc, "run_list", found)
}

/// The run lists of a body under their names, which may hold these items, and none where there is no such field.
pub(crate) fn lists_at(
    alloc: Global,
    allowed: Allowed,
    body: &Fields,
) -> Result<NamedRunLists, LockFault>
    ensures { Gives result (parts.may [] (parts.named_run_lists allowed) (codes "named_run_lists") (pairs_of body.now)) }
{
    let found = match body.get("named_run_lists") {
        Some(tree) => named_run_lists(alloc, allowed, tree)?,
        None => Some(NamedRunLists::new(alloc)),
    };
    in_field(alloc, "named_run_lists", found)
}

fn locks_at(alloc: Global, body: &Fields) -> Result<CookbookLocks, LockFault>
    ensures { Gives result (parts.must parts.cookbook_locks (codes "cookbook_locks") (pairs_of body.now)) }
{
    let found = match body.get("cookbook_locks") {
        Some(tree) => cookbook_locks(alloc, tree)?,
        None => None,
    };
    in_field(alloc, "cookbook_locks", found)
}

/// The Dict at a key, and the empty one where there is no such field.
pub(crate) fn dict_at(alloc: Global, key: &str, body: &Fields) -> Result<Fields, LockFault>
    ensures { Gives result (parts.may [] parts.dict_of key.now (pairs_of body.now)) }
{
    let found = match body.get(key) {
        Some(tree) => fields_of(alloc, tree)?,
        None => Some(Fields::new(alloc)),
    };
    in_field(alloc, key, found)
}

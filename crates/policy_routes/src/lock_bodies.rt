//! Locks in bodies, and what refuses them.

ghost use Rattle.std.specs.Prelude.{◌≡◌, Some, Ok, IfOk, not, is_some, option_copied};
ghost use Rattle.std.specs.List.{find};
ghost use Rattle.doc_tree.specs.Tree.{doc_of};
ghost use Rattle.org_requests.specs.Documents as bodies;
ghost use Rattle.org_core.specs.Contexts.{seen};
ghost use Rattle.org_requests.specs.Refusals.{Tells};
ghost use Rattle.policy_routes.specs.Locks as spec;

use crate::artifact_routes::artifact_at;
use doc_tree::{Name, NoMemory, Tree};
use org_core::Context;
use org_requests::{Body, Refusal, Stop, document_in};
use policy_locks::{CookbookLock, Lock, LockFault, read_lock_of};
use std::alloc::Global;

/// The lock of this policy that a body gives.
pub(crate) fn lock_in(alloc: Global, policy: &Name, body: &Body) -> Result<Lock, Stop>
    ensures { Tells result (spec.lock_said policy.now (bodies.document_in body.now)) }
{
    match document_in(body) {
        Ok(tree) => lock_of(alloc, policy, tree),
        Err(refusal) => Err(Stop::Refused(refusal)),
    }
}

fn lock_of(alloc: Global, policy: &Name, tree: &Tree) -> Result<Lock, Stop>
    ensures { Tells result (spec.lock_said policy.now (Ok (doc_of tree.now))) }
{
    match read_lock_of(alloc, tree, policy) {
        Ok(lock) => Ok(lock),
        Err(LockFault::BadField(field)) => Err(Stop::Refused(Refusal::BadField(field))),
        Err(LockFault::NoMemory) => Err(Stop::NoMemory),
    }
}

/// The refusal of a lock that names an artifact which isn't there: the first by the cookbooks' names.
pub(crate) fn artifact_refusal(
    alloc: Global,
    context: Context<'_>,
    lock: &Lock,
) -> Result<Option<Refusal>, NoMemory>
    ensures { IfOk result (λ o. o ≡ spec.artifact_refusal (seen context.entry) lock.now) }
{
    match first_missing(context, lock.cookbook_locks.as_slice()) {
        Some(cookbook) => Ok(Some(missing_artifact(alloc, cookbook)?)),
        None => Ok(None),
    }
}

fn first_missing<'l>(context: Context<'_>, locks: &'l [CookbookLock]) -> Option<&'l CookbookLock>
    ensures { option_copied result ≡ find (spec.is_missing (seen context.entry)) locks.now }
{
    locks.iter().find(|cookbook| is_missing(context, cookbook))
}

fn is_missing(context: Context<'_>, cookbook: &CookbookLock) -> bool
    ensures { result ≡ spec.is_missing (seen context.entry) cookbook.now }
{
    artifact_at(context, cookbook.name.as_text(), &cookbook.identifier).is_none()
}

fn missing_artifact(alloc: Global, cookbook: &CookbookLock) -> Result<Refusal, NoMemory>
    ensures { IfOk result (λ refusal. refusal ≡ spec.missing_artifact cookbook.now) }
{
    let name = cookbook.name.as_text().copy(alloc)?;
    let identifier = cookbook.identifier.copy(alloc)?;
    Ok(Refusal::MissingArtifact(name, identifier))
}

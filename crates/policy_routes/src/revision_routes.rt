//! The routes of the revisions of policies.

ghost use Rattle.std.specs.Prelude.{◌≡◌, ◌∷◌, IfOk, Ok, OnOk, cond, is_some, not, ◌&&◌, option_copied};
ghost use Rattle.doc_tree.specs.Name.{is_name as spec_is_name};
ghost use Rattle.doc_tree.specs.Tree.{doc_of};
ghost use Rattle.shelves.specs.Shelves.{has_shelf};
ghost use Rattle.org_core.specs.Contexts.{seen};
ghost use Rattle.org_core.specs.Outcomes.{IsAsDecided, Looked};
ghost use Rattle.org_requests.specs.Refusals.{Tells};
ghost use Rattle.org_core.specs.declared.moves.Move.TheVariants as move;
ghost use Rattle.org_shelves.specs.declared.shelf_moves.ShelfMove.TheVariants as shelf;
ghost use Rattle.policy_routes.specs.Groups as groups;
ghost use Rattle.policy_routes.specs.Moving.{if_there};
ghost use Rattle.policy_routes.specs.Policies as spec;
ghost use Rattle.policy_routes.specs.PolicyRules as rules;

use crate::lock_bodies::{artifact_refusal, lock_in};
use crate::moving::{followed, list_of_first};
use crate::operations::PolicyOperation;
use access_lists::{Container, Perm};
use doc_tree::{Kind, Name, NoMemory, Steps, Text, Tree, is_name};
use org_core::{Context, Move, Moves, Need, Prepared, listed_need, or_stop, unmoved};
use org_requests::{Body, Refusal, Reply, Stop, Verb, absent, made, shown};
use org_shelves::{Revision, ShelfMove};
use policy_locks::Lock;
use std::alloc::Global;
use std::sync::ledger::Ledger;

/// What is asked of the revisions of a policy.
pub(crate) fn revisions_asked(
    alloc: Global,
    policy: &Text,
    verb: Verb,
    body: &Body,
) -> Result<PolicyOperation, Stop>
    ensures { Tells result (rules.revisions_asked policy.now verb body.now) }
{
    match verb {
        Verb::Post => adding(alloc, policy, body),
        Verb::Get | Verb::Put | Verb::Delete | Verb::Other => {
            Err(Stop::Refused(Refusal::NotAllowed))
        }
    }
}

// A POST of a revision, whose body is looked at in full where the path has the form of a policy's.
fn adding(alloc: Global, policy: &Text, body: &Body) -> Result<PolicyOperation, Stop>
    ensures { Tells result (rules.add_revision policy.now body.now) }
{
    match Name::of(policy.copy(alloc)?) {
        Ok(policy) => {
            let lock = lock_in(alloc, &policy, body)?;
            Ok(PolicyOperation::AddRevision(policy.into_text(), lock))
        }
        Err(_) => Err(Stop::Refused(absent(body))),
    }
}

/// The lock that the organisation stores of this policy and revision, if it does. It takes no memory.
pub(crate) fn revision_at<'c>(
    context: Context<'c>,
    policy: &Text,
    revision: &Text,
) -> Option<&'c Revision>
    ensures { option_copied result ≡ spec.revision_at (seen context.entry) policy.now revision.now }
{
    context.state.shelves().policies().get(policy, revision)
}

/// Whether there is no such revision, or one of the names has no name's form.
pub(crate) fn lacks_revision(context: Context<'_>, policy: &Text, revision: &Text) -> bool
    ensures { result ≡ spec.lacks_revision (seen context.entry) policy.now revision.now }
{
    let is_there = is_name(revision.as_str()) && revision_at(context, policy, revision).is_some();
    !(is_name(policy.as_str()) && is_there)
}

/// Whether there is no policy of this name, or it has no name's form.
pub(crate) fn lacks_policy(context: Context<'_>, policy: &Text) -> bool
    ensures { result ≡ spec.lacks_policy (seen context.entry) policy.now }
{
    !(is_name(policy.as_str()) && has_policy(context, policy))
}

fn has_policy(context: Context<'_>, policy: &Text) -> bool
    ensures { result ≡ has_shelf (spec.policies_of (seen context.entry)) policy.now }
{
    context.state.shelves().policies().has(policy)
}

/// The permission to put a revision of a policy.
pub(crate) fn revision_need(
    alloc: Global,
    context: Context<'_>,
    policy: &Text,
) -> Result<Need, NoMemory>
    ensures { IfOk result (λ need. need ≡ spec.revision_need (seen context.entry) policy.now) }
{
    if has_policy(context, policy) {
        listed_need(alloc, Perm::Update, Kind::Policy, policy.as_str())
    } else {
        listed_need(alloc, Perm::Create, Kind::Container, "policies")
    }
}

/// Why a revision isn't added: there is one of this name, or an artifact is missing.
pub(crate) fn revision_refusal(
    alloc: Global,
    context: Context<'_>,
    policy: &Text,
    lock: &Lock,
) -> Result<Option<Refusal>, NoMemory>
    ensures { IfOk result (λ o. o ≡ spec.revision_refusal (seen context.entry) policy.now lock.now) }
{
    if revision_at(context, policy, lock.revision_id.as_text()).is_some() {
        return Ok(Some(Refusal::AlreadyExists));
    }
    artifact_refusal(alloc, context, lock)
}

/// A revision is shown.
pub(crate) fn show<L: Ledger>(
    alloc: Global,
    context: Context<'_>,
    policy: Text,
    revision: Text,
    steps: &mut Steps<L>,
) -> Result<Prepared, Stop>
    ensures done { IsAsDecided result (spec.revision_shown (seen context.entry) policy revision).answer }
    ensures looked { Looked result (spec.revision_shown (seen context.entry) policy revision).looks steps.old steps.new }
{
    steps.tick();
    let reply = lock_reply(alloc, revision_at(context, &policy, &revision));
    or_stop(unmoved(alloc, reply))
}

/// 200 with a lock that was found.
pub(crate) fn lock_reply(alloc: Global, found: Option<&Revision>) -> Result<Reply, NoMemory>
    ensures { IfOk result (λ reply. reply ≡ groups.lock_reply (option_copied found.entry)) }
{
    match found {
        Some(lock) => shown(alloc, lock.tree()),
        None => shown(alloc, &Tree::Null),
    }
}

/// A revision is added.
pub(crate) fn add(
    alloc: Global,
    context: Context<'_>,
    policy: Text,
    lock: Lock,
) -> Result<Prepared, Stop>
    ensures { IsAsDecided result (spec.revision_added (seen context.entry) policy lock).answer }
{
    match made(alloc, &lock.whole) {
        Ok(reply) => Ok(Prepared {
            reply,
            moves: revision_moves(alloc, context, policy, lock)?,
        }),
        Err(fault) => {
            drop(lock);
            Err(Stop::from(fault))
        }
    }
}

/// A lock is stored as a revision of a policy, with the policy's list where it is the first.
pub(crate) fn revision_moves(
    alloc: Global,
    context: Context<'_>,
    policy: Text,
    lock: Lock,
) -> Result<Moves, NoMemory>
    ensures { IfOk result (λ moves. moves ≡ spec.revision_moves (seen context.entry) policy lock) }
{
    match first_policy_list(alloc, context, &policy) {
        Ok(list) => put_revision(alloc, policy, lock, list),
        Err(fault) => {
            drop(lock);
            Err(fault)
        }
    }
}

// A policy's access list comes with its first revision.
fn first_policy_list(
    alloc: Global,
    context: Context<'_>,
    policy: &Text,
) -> Result<Option<Move>, NoMemory>
    ensures { IfOk result (λ o. if_there o ≡ spec.first_policy_list (seen context.entry) policy.now) }
{
    let is_there = has_policy(context, policy);
    let container = Container::Policies;
    list_of_first(alloc, context, is_there, Kind::Policy, policy, container)
}

// A lock is stored as a revision of a policy, and behind that comes a list where there is one.
fn put_revision(
    alloc: Global,
    policy: Text,
    lock: Lock,
    list: Option<Move>,
) -> Result<Moves, NoMemory>
    ensures { IfOk result (λ moves. moves ≡ move.OnShelves (shelf.PutRevision policy lock.revision_id (doc_of lock.whole)) ∷ if_there list) }
{
    match lock.revision_id.as_text().copy(alloc) {
        Ok(revision) => {
            let put = ShelfMove::PutRevision(policy, revision, Revision::of(lock));
            followed(alloc, Move::OnShelves(put), list)
        }
        Err(fault) => {
            drop(lock);
            drop(list);
            Err(fault)
        }
    }
}

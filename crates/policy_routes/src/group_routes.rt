//! The routes of policy groups and what they assign.

ghost use Rattle.std.specs.Prelude.{◌≡◌, [], ◌∷◌, ◌++◌, IfOk, Ok, OnOk, cond, is_some, not, ◌&&◌, option_copied, option_map, unwrap_or};
ghost use Rattle.doc_tree.specs.Tree.{doc_of};
ghost use Rattle.shelves.specs.SortedMap.{map_of};
ghost use Rattle.org_core.specs.Contexts.{seen};
ghost use Rattle.org_core.specs.Outcomes.{IsAsDecided, Looked};
ghost use Rattle.org_requests.specs.Refusals.{Tells};
ghost use Rattle.org_shelves.specs.Conditions.{assigned_in};
ghost use Rattle.std.specs.FinMap as finite;
ghost use Rattle.doc_tree.specs.Text.{text_cmp};
ghost use Rattle.policy_routes.specs.Groups as spec;
ghost use Rattle.policy_routes.specs.Moving.{if_there};
ghost use Rattle.policy_routes.specs.Policies as policies;
ghost use Rattle.policy_routes.specs.PolicyRules as rules;

use crate::lock_bodies::{artifact_refusal, lock_in};
use crate::moving::{add, list_of_first, prepared};
use crate::operations::PolicyOperation;
use crate::revision_routes::{lock_reply, revision_at, revision_moves, revision_need};
use crate::trees::put;
use access_lists::{Container, Perm};
use doc_tree::{Fields, Kind, Name, NoMemory, Steps, Text, Tree, is_name, one_text};
use org_core::{
    Context, Move, Moves, Need, Needs, Prepared, key_of, listed_need, or_stop, prepared_showing,
    reply_showing, unmoved,
};
use org_requests::{Body, Refusal, Reply, Stop, Verb, absent, made_or_shown, org_uri};
use org_shelves::{Assignments, PolicyGroups, Revision, ShelfMove};
use policy_locks::Lock;
use std::alloc::Global;
use std::sync::ledger::Ledger;

/// What is asked of an assignment.
pub(crate) fn assignment_asked(
    alloc: Global,
    group: &Text,
    policy: &Text,
    verb: Verb,
    body: &Body,
) -> Result<PolicyOperation, Stop>
    ensures { Tells result (rules.assignment_asked group.now policy.now verb body.now) }
{
    match verb {
        Verb::Get => Ok(PolicyOperation::ShowAssignment(group.copy(alloc)?, policy.copy(alloc)?)),
        Verb::Put => assign_asked(alloc, group, policy, body),
        Verb::Delete => Ok(PolicyOperation::Unassign(group.copy(alloc)?, policy.copy(alloc)?)),
        Verb::Post | Verb::Other => Err(Stop::Refused(Refusal::NotAllowed)),
    }
}

// A PUT of an assignment, whose body is looked at in full where the path has the form of one's.
fn assign_asked(
    alloc: Global,
    group: &Text,
    policy: &Text,
    body: &Body,
) -> Result<PolicyOperation, Stop>
    ensures { Tells result (rules.assign group.now policy.now body.now) }
{
    match Name::of(policy.copy(alloc)?) {
        Ok(policy) if is_name(group.as_str()) => {
            let group = group.copy(alloc)?;
            let lock = lock_in(alloc, &policy, body)?;
            Ok(PolicyOperation::Assign(group, policy.into_text(), lock))
        }
        _ => Err(Stop::Refused(absent(body))),
    }
}

fn group_of<'c>(context: Context<'c>, group: &Text) -> Option<&'c Assignments>
    ensures { option_copied result ≡ spec.group_at (seen context.entry) group.now }
{
    context.state.shelves().groups().get(group)
}

fn has_group(context: Context<'_>, group: &Text) -> bool
    ensures { result ≡ spec.has_group (seen context.entry) group.now }
{
    group_of(context, group).is_some()
}

/// Whether there is no group of this name, or it has no name's form.
pub(crate) fn lacks_group(context: Context<'_>, group: &Text) -> bool
    ensures { result ≡ spec.lacks_group (seen context.entry) group.now }
{
    !(is_name(group.as_str()) && has_group(context, group))
}

// The revision that a group assigns of a policy.
fn assigned_revision<'c>(context: Context<'c>, group: &Text, policy: &Text) -> Option<&'c Text>
    ensures { option_copied result ≡ assigned_in (spec.groups_of (seen context.entry)) group.now policy.now }
{
    group_of(context, group)?.revision(policy)
}

/// The lock that a group assigns of a policy, if it does. It takes no memory.
fn assigned_lock<'c>(context: Context<'c>, group: &Text, policy: &Text) -> Option<&'c Revision>
    ensures { option_copied result ≡ spec.assigned_lock (seen context.entry) group.now policy.now }
{
    revision_at(context, policy, assigned_revision(context, group, policy)?)
}

/// Whether the group assigns no such policy, or one of the names has no name's form.
pub(crate) fn lacks_assignment(context: Context<'_>, group: &Text, policy: &Text) -> bool
    ensures { result ≡ spec.lacks_assignment (seen context.entry) group.now policy.now }
{
    let is_there = is_name(policy.as_str()) && assigned_lock(context, group, policy).is_some();
    !(is_name(group.as_str()) && is_there)
}

/// The permissions to assign a policy in a group: the group's, and then the policy's.
pub(crate) fn assigning_needs(
    alloc: Global,
    context: Context<'_>,
    group: &Text,
    policy: &Text,
) -> Result<Needs, NoMemory>
    ensures { IfOk result (λ needs. needs ≡ spec.assigning_needs (seen context.entry) group.now policy.now) }
{
    let mut needs = Needs::new(alloc);
    needs.push(group_need(alloc, context, group)?)?;
    needs.push(revision_need(alloc, context, policy)?)?;
    Ok(needs)
}

/// The permission to assign in a group: to update it, or to create one where there is none of this name.
pub(crate) fn group_need(
    alloc: Global,
    context: Context<'_>,
    group: &Text,
) -> Result<Need, NoMemory>
    ensures { IfOk result (λ need. need ≡ spec.group_need (seen context.entry) group.now) }
{
    if has_group(context, group) {
        listed_need(alloc, Perm::Update, Kind::PolicyGroup, group.as_str())
    } else {
        listed_need(alloc, Perm::Create, Kind::Container, "policy_groups")
    }
}

/// Why a lock isn't assigned: its revision is there with another content, or an artifact is missing.
pub(crate) fn assigning_refusal(
    alloc: Global,
    context: Context<'_>,
    policy: &Text,
    lock: &Lock,
) -> Result<Option<Refusal>, NoMemory>
    ensures { IfOk result (λ o. o ≡ spec.assigning_refusal (seen context.entry) policy.now lock.now) }
{
    if differs(
        revision_at(context, policy, lock.revision_id.as_text()),
        &lock.whole,
    ) {
        return Ok(Some(Refusal::RevisionDiffers));
    }
    artifact_refusal(alloc, context, lock)
}

// Whether another lock is stored than this one.
fn differs(stored: Option<&Revision>, lock: &Tree) -> bool
    ensures { result ≡ spec.differs (option_copied stored.entry) (doc_of lock.now) }
{
    match stored {
        Some(stored) => {
            let tree = stored.tree();
            tree.known();
            lock.known();
            one_text();
            !tree.same(lock)
        }
        None => false,
    }
}

/// The policy groups are listed.
pub(crate) fn list(alloc: Global, context: Context<'_>) -> Result<Prepared, Stop>
    ensures { IsAsDecided result (spec.groups_listed (seen context.entry)).answer }
{
    let tree = listing_tree(alloc, context.org, context.state.shelves().groups())?;
    or_stop(prepared_showing(alloc, tree))
}

fn listing_tree(alloc: Global, org: &Text, groups: &PolicyGroups) -> Result<Tree, NoMemory>
    ensures { IfOk result (λ tree. doc_of tree ≡ spec.group_listing org.now (map_of text_cmp groups.now)) }
{
    let mut fields = Fields::new(alloc);
    for (name, assignments) in groups.entries() {
        let copied = name.copy(alloc)?;
        fields.put(copied, group_tree(alloc, org, name, assignments)?)?;
    }
    Ok(Tree::Dict(fields))
}

// A policy group: what it assigns, and its path.
fn group_tree(
    alloc: Global,
    org: &Text,
    name: &Text,
    assignments: &Assignments,
) -> Result<Tree, NoMemory>
    ensures { IfOk result (λ tree. doc_of tree ≡ spec.group_doc org.now name.now assignments.now) }
{
    let uri = group_path(alloc, org, name)?;
    let mut fields = Fields::with_capacity(alloc, 2)?;
    let policies = assigned_tree(alloc, assignments)?;
    put(alloc, &mut fields, "policies", policies)?;
    put(alloc, &mut fields, "uri", Tree::Words(uri))?;
    Ok(Tree::Dict(fields))
}

fn group_path(alloc: Global, org: &Text, name: &Text) -> Result<Text, NoMemory>
    ensures { IfOk result (λ path. path ≡ spec.group_path org.now name.now) }
{
    let front = Text::joined(alloc, org_uri(alloc, org)?.as_str(), "/policy_groups/")?;
    Text::joined(alloc, front.as_str(), name.as_str())
}

fn assigned_tree(alloc: Global, assignments: &Assignments) -> Result<Tree, NoMemory>
    ensures { IfOk result (λ tree. doc_of tree ≡ spec.assigned_doc assignments.now) }
{
    let mut fields = Fields::new(alloc);
    for (policy, revision) in assignments.entries() {
        fields.put(policy.copy(alloc)?, revision_tree(alloc, revision)?)?;
    }
    Ok(Tree::Dict(fields))
}

fn revision_tree(alloc: Global, revision: &Text) -> Result<Tree, NoMemory>
    ensures { IfOk result (λ tree. doc_of tree ≡ spec.revision_doc revision.now) }
{
    let mut fields = Fields::with_capacity(alloc, 1)?;
    put(
        alloc,
        &mut fields,
        "revision_id",
        Tree::Words(revision.copy(alloc)?),
    )?;
    Ok(Tree::Dict(fields))
}

/// A policy group is shown.
pub(crate) fn show(alloc: Global, context: Context<'_>, group: Text) -> Result<Prepared, Stop>
    ensures { IsAsDecided result (spec.group_shown (seen context.entry) group).answer }
{
    or_stop(unmoved(alloc, group_reply(alloc, context, &group)))
}

// 200 with a group.
fn group_reply(alloc: Global, context: Context<'_>, group: &Text) -> Result<Reply, NoMemory>
    ensures { IfOk result (λ reply. reply ≡ spec.group_reply (seen context.entry) group.now) }
{
    let tree = found_tree(alloc, context.org, group, group_of(context, group))?;
    reply_showing(alloc, tree)
}

// A group, of which one that isn't there assigns nothing.
fn found_tree(
    alloc: Global,
    org: &Text,
    name: &Text,
    found: Option<&Assignments>,
) -> Result<Tree, NoMemory>
    ensures { IfOk result (λ tree. doc_of tree ≡ spec.group_doc org.now name.now (unwrap_or (option_copied found.entry) finite.empty)) }
{
    match found {
        Some(assignments) => group_tree(alloc, org, name, assignments),
        None => group_tree(alloc, org, name, &Assignments::none(alloc)),
    }
}

/// A policy group goes, with its list. The revisions that it assigned stay.
pub(crate) fn remove(alloc: Global, context: Context<'_>, group: Text) -> Result<Prepared, Stop>
    ensures { IsAsDecided result (spec.group_removed (seen context.entry) group).answer }
{
    let reply = group_reply(alloc, context, &group)?;
    let key = key_of(alloc, Kind::PolicyGroup, group.as_str())?;
    let take = Move::OnShelves(ShelfMove::TakeGroup(group));
    or_stop(prepared(alloc, reply, take, Some(Move::TakeList(key))))
}

/// An assignment is shown.
pub(crate) fn show_assignment<L: Ledger>(
    alloc: Global,
    context: Context<'_>,
    group: Text,
    policy: Text,
    steps: &mut Steps<L>,
) -> Result<Prepared, Stop>
    ensures done { IsAsDecided result (spec.assignment_shown (seen context.entry) group policy).answer }
    ensures looked { Looked result (spec.assignment_shown (seen context.entry) group policy).looks steps.old steps.new }
{
    steps.tick();
    let reply = lock_reply(alloc, assigned_lock(context, &group, &policy));
    or_stop(unmoved(alloc, reply))
}

/// A lock is assigned, and stored before where it isn't there.
pub(crate) fn assign<L: Ledger>(
    alloc: Global,
    context: Context<'_>,
    group: Text,
    policy: Text,
    lock: Lock,
    steps: &mut Steps<L>,
) -> Result<Prepared, Stop>
    ensures done { IsAsDecided result (spec.assigned (seen context.entry) group policy lock).answer }
    ensures looked { Looked result (spec.assigned (seen context.entry) group policy lock).looks steps.old steps.new }
{
    let is_stored = revision_at(context, &policy, lock.revision_id.as_text()).is_some();
    if is_stored {
        steps.tick();
    }
    or_stop(assigned(alloc, context, is_stored, group, policy, lock))
}

// The reply to an assignment with its moves, where it is known whether the lock is stored.
fn assigned(
    alloc: Global,
    context: Context<'_>,
    is_stored: bool,
    group: Text,
    policy: Text,
    lock: Lock,
) -> Result<Prepared, NoMemory>
    requires { is_stored ≡ is_some (policies.revision_at (seen context) policy lock.revision_id) }
    ensures { IfOk result (λ p. IsAsDecided (Ok p) (spec.assigned (seen context.entry) group policy lock).answer) }
{
    let is_new = assigned_revision(context, &group, &policy).is_none();
    match made_or_shown(alloc, is_new, &lock.whole) {
        Ok(reply) => Ok(Prepared {
            reply,
            moves: assigned_moves(alloc, context, is_stored, group, &policy, lock)?,
        }),
        Err(fault) => {
            drop(lock);
            Err(fault)
        }
    }
}

// The moves that store a lock where its revision isn't there, and then assign it.
fn assigned_moves(
    alloc: Global,
    context: Context<'_>,
    is_stored: bool,
    group: Text,
    policy: &Text,
    lock: Lock,
) -> Result<Moves, NoMemory>
    ensures { IfOk result (λ moves. moves ≡ cond is_stored [] (policies.revision_moves (seen context.entry) policy.now lock) ++ spec.assigning (seen context.entry) group policy.now lock.revision_id) }
{
    match lock.revision_id.as_text().copy(alloc) {
        Ok(revision) => {
            let mut moves = stored_first(alloc, context, is_stored, policy, lock)?;
            add_assigning(alloc, context, &mut moves, group, policy, &revision).and(Ok(moves))
        }
        Err(fault) => {
            drop(lock);
            Err(fault)
        }
    }
}

// The moves that store a lock where its revision isn't there.
fn stored_first(
    alloc: Global,
    context: Context<'_>,
    is_stored: bool,
    policy: &Text,
    lock: Lock,
) -> Result<Moves, NoMemory>
    ensures { IfOk result (λ moves. moves ≡ cond is_stored [] (policies.revision_moves (seen context.entry) policy.now lock)) }
{
    if is_stored {
        drop(lock);
        return Ok(Moves::new(alloc));
    }
    match policy.copy(alloc) {
        Ok(policy) => revision_moves(alloc, context, policy, lock),
        Err(fault) => {
            drop(lock);
            Err(fault)
        }
    }
}

// Puts the moves behind others that assign a policy at a revision, with the group's list where the group is new.
fn add_assigning(
    alloc: Global,
    context: Context<'_>,
    moves: &mut Moves,
    group: Text,
    policy: &Text,
    revision: &Text,
) -> Result<(), NoMemory>
    ensures { OnOk result (moves.new ≡ moves.old ++ spec.assigning (seen context.entry) group policy.now revision.now) }
{
    let assignments = with_assignment(alloc, group_of(context, &group), policy, revision)?;
    match first_group_list(alloc, context, &group) {
        Ok(list) => {
            let put = ShelfMove::PutGroup(group, assignments);
            add(moves, Move::OnShelves(put), list)
        }
        Err(fault) => {
            drop(assignments);
            Err(fault)
        }
    }
}

// What a group assigns, of which one that isn't there assigns nothing, with a policy at this revision.
fn with_assignment(
    alloc: Global,
    found: Option<&Assignments>,
    policy: &Text,
    revision: &Text,
) -> Result<Assignments, NoMemory>
    ensures { IfOk result (λ a. a ≡ finite.insert (unwrap_or (option_copied found.entry) finite.empty) policy.now revision.now) }
{
    match found {
        Some(assignments) => assignments.with(alloc, policy, revision),
        None => Assignments::none(alloc).with(alloc, policy, revision),
    }
}

// A group's access list comes with its first assignment.
fn first_group_list(
    alloc: Global,
    context: Context<'_>,
    group: &Text,
) -> Result<Option<Move>, NoMemory>
    ensures { IfOk result (λ o. if_there o ≡ spec.first_group_list (seen context.entry) group.now) }
{
    let is_there = has_group(context, group);
    let container = Container::PolicyGroups;
    list_of_first(
        alloc,
        context,
        is_there,
        Kind::PolicyGroup,
        group,
        container,
    )
}

/// An assignment goes. The revision stays, and so does the group.
pub(crate) fn unassign<L: Ledger>(
    alloc: Global,
    context: Context<'_>,
    group: Text,
    policy: Text,
    steps: &mut Steps<L>,
) -> Result<Prepared, Stop>
    ensures done { IsAsDecided result (spec.unassigned_from (seen context.entry) group policy).answer }
    ensures looked { Looked result (spec.unassigned_from (seen context.entry) group policy).looks steps.old steps.new }
{
    steps.tick();
    or_stop(unassigned(alloc, context, group, &policy))
}

// 200 with the lock that was assigned, and the move that takes the assignment out of the group.
fn unassigned(
    alloc: Global,
    context: Context<'_>,
    group: Text,
    policy: &Text,
) -> Result<Prepared, NoMemory>
    ensures { IfOk result (λ p. IsAsDecided (Ok p) (spec.unassigned_from (seen context.entry) group policy.now).answer) }
{
    let reply = lock_reply(alloc, assigned_lock(context, &group, policy))?;
    let assignments = without_assignment(alloc, group_of(context, &group), policy)?;
    let put = ShelfMove::PutGroup(group, assignments);
    prepared(alloc, reply, Move::OnShelves(put), None)
}

// What a group assigns, of which one that isn't there assigns nothing, without this policy.
fn without_assignment(
    alloc: Global,
    found: Option<&Assignments>,
    policy: &Text,
) -> Result<Assignments, NoMemory>
    ensures { IfOk result (λ a. a ≡ finite.remove (unwrap_or (option_copied found.entry) finite.empty) policy.now) }
{
    match found {
        Some(assignments) => assignments.without(alloc, policy),
        None => Assignments::none(alloc).without(alloc, policy),
    }
}

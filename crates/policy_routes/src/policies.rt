//! The group of the routes of artifacts, policies and policy groups.

ghost use Rattle.std.specs.Prelude.{◌≡◌, ◌∷◌, [], IfOk};
ghost use Rattle.org_core.specs.Contexts.{seen};
ghost use Rattle.org_requests.specs.Refusals.{Tells};
ghost use Rattle.policy_routes.specs.PolicyRules as spec;

use crate::operations::PolicyOperation;
use crate::{artifact_routes, group_routes, policy_listings, revision_routes};
use access_lists::Perm;
use doc_tree::{Kind, NoMemory, Steps, Text};
use object_finder::Finder;
use org_core::{Context, Group, Lent, Need, Needs, Prepared, listed_need};
use org_requests::routes::PolicyRoute;
use org_requests::{Refusal, Request, Stop, Verb};
use std::alloc::Global;
use std::sync::ledger::Ledger;

/// The group of the routes of artifacts, policies and policy groups.
#[derive(Clone, Copy, Debug)]
pub struct Policies;

impl Group for Policies {
    ghost use Rattle.policy_routes.specs.PolicyRules.{policy_rules};

    type Route = PolicyRoute;

    type Operation = PolicyOperation;

    ghost rules = { λ _. policy_rules };

    fn operation<F: Finder>(
        &self,
        alloc: Global,
        _context: Context<'_>,
        _lent: &Lent<'_, F>,
        route: &PolicyRoute,
        request: &Request,
    ) -> Result<PolicyOperation, Stop> {
        let (verb, body) = (request.verb, &request.body);
        match route {
            PolicyRoute::Artifacts => only_get(PolicyOperation::ListArtifacts, verb),
            PolicyRoute::Artifact(name, id) => {
                artifact_routes::artifact_asked(alloc, name, id, verb, body)
            }
            PolicyRoute::Policies => only_get(PolicyOperation::ListPolicies, verb),
            PolicyRoute::Policy(policy) => policy_asked(alloc, policy, verb),
            PolicyRoute::Revisions(policy) => {
                revision_routes::revisions_asked(alloc, policy, verb, body)
            }
            PolicyRoute::Revision(policy, revision) => {
                let (policy, revision) = (policy.copy(alloc)?, revision.copy(alloc)?);
                only_get(PolicyOperation::ShowRevision(policy, revision), verb)
            }
            PolicyRoute::Groups => only_get(PolicyOperation::ListGroups, verb),
            PolicyRoute::Group(group) => group_asked(alloc, group, verb),
            PolicyRoute::Assignment(group, policy) => {
                group_routes::assignment_asked(alloc, group, policy, verb, body)
            }
        }
    }

    fn lacks<F: Finder>(
        &self,
        _alloc: Global,
        context: Context<'_>,
        _lent: &Lent<'_, F>,
        operation: &PolicyOperation,
    ) -> Result<bool, NoMemory> {
        Ok(match operation {
            PolicyOperation::ShowArtifact(name, id) | PolicyOperation::RemoveArtifact(name, id) => {
                artifact_routes::lacks_artifact(context, name, id)
            }
            PolicyOperation::ShowPolicy(policy) | PolicyOperation::RemovePolicy(policy) => {
                revision_routes::lacks_policy(context, policy)
            }
            PolicyOperation::ShowRevision(policy, revision) => {
                revision_routes::lacks_revision(context, policy, revision)
            }
            PolicyOperation::ShowGroup(group) | PolicyOperation::RemoveGroup(group) => {
                group_routes::lacks_group(context, group)
            }
            PolicyOperation::ShowAssignment(group, policy)
            | PolicyOperation::Unassign(group, policy) => {
                group_routes::lacks_assignment(context, group, policy)
            }
            PolicyOperation::ListArtifacts
            | PolicyOperation::PutArtifact(_, _, _)
            | PolicyOperation::ListPolicies
            | PolicyOperation::AddRevision(_, _)
            | PolicyOperation::ListGroups
            | PolicyOperation::Assign(_, _, _) => false,
        })
    }

    fn needs<F: Finder>(
        &self,
        alloc: Global,
        context: Context<'_>,
        _lent: &Lent<'_, F>,
        operation: &PolicyOperation,
    ) -> Result<Needs, NoMemory> {
        if let PolicyOperation::Assign(group, policy, _) = operation {
            return group_routes::assigning_needs(alloc, context, group, policy);
        }
        let mut needs = Needs::new(alloc);
        needs.push(needed(alloc, context, operation)?)?;
        Ok(needs)
    }

    fn own_refusal<F: Finder>(
        &self,
        alloc: Global,
        context: Context<'_>,
        _lent: &Lent<'_, F>,
        operation: &PolicyOperation,
    ) -> Result<Option<Refusal>, NoMemory> {
        match operation {
            PolicyOperation::PutArtifact(name, id, edition) => {
                artifact_routes::put_refusal(alloc, context, name, id, edition)
            }
            PolicyOperation::AddRevision(policy, lock) => {
                revision_routes::revision_refusal(alloc, context, policy, lock)
            }
            PolicyOperation::Assign(_, policy, lock) => {
                group_routes::assigning_refusal(alloc, context, policy, lock)
            }
            PolicyOperation::ListArtifacts
            | PolicyOperation::ShowArtifact(_, _)
            | PolicyOperation::RemoveArtifact(_, _)
            | PolicyOperation::ListPolicies
            | PolicyOperation::ShowPolicy(_)
            | PolicyOperation::RemovePolicy(_)
            | PolicyOperation::ShowRevision(_, _)
            | PolicyOperation::ListGroups
            | PolicyOperation::ShowGroup(_)
            | PolicyOperation::RemoveGroup(_)
            | PolicyOperation::ShowAssignment(_, _)
            | PolicyOperation::Unassign(_, _) => Ok(None),
        }
    }

    fn does<F: Finder, L: Ledger>(
        &self,
        alloc: Global,
        context: Context<'_>,
        _lent: &Lent<'_, F>,
        operation: PolicyOperation,
        steps: &mut Steps<L>,
    ) -> Result<Prepared, Stop> {
        match operation {
            PolicyOperation::ListArtifacts => artifact_routes::list(alloc, context),
            PolicyOperation::ShowArtifact(name, id) => {
                artifact_routes::show(alloc, context, name, id, steps)
            }
            PolicyOperation::PutArtifact(name, id, edition) => {
                artifact_routes::put_artifact(alloc, context, name, id, edition)
            }
            PolicyOperation::RemoveArtifact(name, id) => {
                artifact_routes::remove(alloc, context, name, id, steps)
            }
            PolicyOperation::ListPolicies => policy_listings::list(alloc, context),
            PolicyOperation::ShowPolicy(policy) => policy_listings::show(alloc, context, policy),
            PolicyOperation::RemovePolicy(policy) => {
                policy_listings::remove(alloc, context, policy)
            }
            PolicyOperation::AddRevision(policy, lock) => {
                revision_routes::add(alloc, context, policy, lock)
            }
            PolicyOperation::ShowRevision(policy, revision) => {
                revision_routes::show(alloc, context, policy, revision, steps)
            }
            PolicyOperation::ListGroups => group_routes::list(alloc, context),
            PolicyOperation::ShowGroup(group) => group_routes::show(alloc, context, group),
            PolicyOperation::RemoveGroup(group) => group_routes::remove(alloc, context, group),
            PolicyOperation::ShowAssignment(group, policy) => {
                group_routes::show_assignment(alloc, context, group, policy, steps)
            }
            PolicyOperation::Assign(group, policy, lock) => {
                group_routes::assign(alloc, context, group, policy, lock, steps)
            }
            PolicyOperation::Unassign(group, policy) => {
                group_routes::unassign(alloc, context, group, policy, steps)
            }
        }
    }
}

// What is asked by reading alone.
fn only_get(asked: PolicyOperation, verb: Verb) -> Result<PolicyOperation, Stop>
    ensures { Tells result (spec.only_get asked verb) }
{
    match verb {
        Verb::Get => Ok(asked),
        Verb::Post | Verb::Put | Verb::Delete | Verb::Other => {
            drop(asked);
            Err(Stop::Refused(Refusal::NotAllowed))
        }
    }
}

// What is asked of a policy.
fn policy_asked(alloc: Global, policy: &Text, verb: Verb) -> Result<PolicyOperation, Stop>
    ensures { Tells result (spec.policy_by_name policy.now verb) }
{
    match verb {
        Verb::Get => Ok(PolicyOperation::ShowPolicy(policy.copy(alloc)?)),
        Verb::Delete => Ok(PolicyOperation::RemovePolicy(policy.copy(alloc)?)),
        Verb::Post | Verb::Put | Verb::Other => Err(Stop::Refused(Refusal::NotAllowed)),
    }
}

// What is asked of a policy group.
fn group_asked(alloc: Global, group: &Text, verb: Verb) -> Result<PolicyOperation, Stop>
    ensures { Tells result (spec.group_by_name group.now verb) }
{
    match verb {
        Verb::Get => Ok(PolicyOperation::ShowGroup(group.copy(alloc)?)),
        Verb::Delete => Ok(PolicyOperation::RemoveGroup(group.copy(alloc)?)),
        Verb::Post | Verb::Put | Verb::Other => Err(Stop::Refused(Refusal::NotAllowed)),
    }
}

// The one permission that an operation needs. To assign needs two: this is the first of them.
fn needed(
    alloc: Global,
    context: Context<'_>,
    operation: &PolicyOperation,
) -> Result<Need, NoMemory>
    ensures { IfOk result (λ need. need ≡ spec.policy_need (seen context.entry) operation.now) }
{
    match operation {
        PolicyOperation::ListArtifacts => {
            listed_need(alloc, Perm::Read, Kind::Container, "cookbook_artifacts")
        }
        PolicyOperation::ListPolicies => {
            listed_need(alloc, Perm::Read, Kind::Container, "policies")
        }
        PolicyOperation::ListGroups => {
            listed_need(alloc, Perm::Read, Kind::Container, "policy_groups")
        }
        PolicyOperation::ShowArtifact(name, _) => {
            listed_need(alloc, Perm::Read, Kind::Artifact, name.as_str())
        }
        PolicyOperation::RemoveArtifact(name, _) => {
            listed_need(alloc, Perm::Delete, Kind::Artifact, name.as_str())
        }
        PolicyOperation::PutArtifact(name, _, _) => artifact_routes::put_need(alloc, context, name),
        PolicyOperation::ShowPolicy(policy) | PolicyOperation::ShowRevision(policy, _) => {
            listed_need(alloc, Perm::Read, Kind::Policy, policy.as_str())
        }
        PolicyOperation::RemovePolicy(policy) => {
            listed_need(alloc, Perm::Delete, Kind::Policy, policy.as_str())
        }
        PolicyOperation::AddRevision(policy, _) => {
            revision_routes::revision_need(alloc, context, policy)
        }
        PolicyOperation::ShowGroup(group) | PolicyOperation::ShowAssignment(group, _) => {
            listed_need(alloc, Perm::Read, Kind::PolicyGroup, group.as_str())
        }
        PolicyOperation::RemoveGroup(group) => {
            listed_need(alloc, Perm::Delete, Kind::PolicyGroup, group.as_str())
        }
        PolicyOperation::Unassign(group, _) => {
            listed_need(alloc, Perm::Update, Kind::PolicyGroup, group.as_str())
        }
        PolicyOperation::Assign(group, _, _) => group_routes::group_need(alloc, context, group),
    }
}

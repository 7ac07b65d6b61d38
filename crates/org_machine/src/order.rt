//! The order of refusals behind the head, once for every route, over the rules of its group.

ghost use Rattle.std.specs.Prelude.{◌≡◌, IfOk};
ghost use Rattle.org_core.specs.Contexts.{IsExactIn, seen};
ghost use Rattle.org_core.specs.Needs as permissions;
ghost use Rattle.org_core.specs.Outcomes.{IsAsDecided, Looked, all_looks};
ghost use Rattle.org_machine.specs.Order as spec;

use doc_tree::{NoMemory, Steps};
use object_finder::Finder;
use org_core::{Context, Group, Lent, Prepared, first_lacking, is_known};
use org_requests::{Refusal, Request, Stop, is_operator};
use std::alloc::Global;
use std::sync::ledger::Ledger;

/// The refusal where the organisation has to be there: 404 where it isn't, and 401 where nobody there
/// knows the caller.
pub(crate) fn absence_refusal(asks_for_it: bool, context: Context<'_>) -> Option<Refusal>
    ensures { result ≡ spec.absence_refusal asks_for_it (seen context.entry) }
{
    if asks_for_it && !context.state.is_there() {
        return Some(Refusal::NotFound);
    }
    if asks_for_it && !is_known(context) {
        return Some(Refusal::UnknownCaller);
    }
    None
}

/// Decides a request at a route of a group.
pub(crate) fn answered_by<G: Group, F: Finder, L: Ledger>(
    alloc: Global,
    group: &G,
    context: Context<'_>,
    lent: &Lent<'_, F>,
    route: &G::Route,
    request: &Request,
    steps: &mut Steps<L>,
) -> Result<Prepared, Stop>
    requires exact { IsExactIn (F.held lent.now.finder.now) (seen context) }
    ensures done { IsAsDecided result (spec.answered_by (G.rules group.now) (seen context.entry) route.now request.now).answer }
    ensures looked { Looked result (all_looks (F.looks lent.now.finder.now) (spec.answered_by (G.rules group.now) (seen context.entry) route.now request.now)) steps.old steps.new }
{
    let operation = group.operation(alloc, context, lent, route, request)?;
    operated(alloc, group, context, lent, operation, steps)
}

// The request was read: 404 where the object that the path names isn't there.
fn operated<G: Group, F: Finder, L: Ledger>(
    alloc: Global,
    group: &G,
    context: Context<'_>,
    lent: &Lent<'_, F>,
    operation: G::Operation,
    steps: &mut Steps<L>,
) -> Result<Prepared, Stop>
    requires exact { IsExactIn (F.held lent.now.finder.now) (seen context) }
    ensures done { IsAsDecided result (spec.operated (G.rules group.now) (seen context.entry) operation).answer }
    ensures looked { Looked result (all_looks (F.looks lent.now.finder.now) (spec.operated (G.rules group.now) (seen context.entry) operation)) steps.old steps.new }
{
    if group.lacks(alloc, context, lent, &operation)? {
        return Err(Stop::Refused(Refusal::NotFound));
    }
    found(alloc, group, context, lent, operation, steps)
}

// The object is there: 403 where a permission is missing.
fn found<G: Group, F: Finder, L: Ledger>(
    alloc: Global,
    group: &G,
    context: Context<'_>,
    lent: &Lent<'_, F>,
    operation: G::Operation,
    steps: &mut Steps<L>,
) -> Result<Prepared, Stop>
    requires exact { IsExactIn (F.held lent.now.finder.now) (seen context) }
    ensures done { IsAsDecided result (spec.found (G.rules group.now) (seen context.entry) operation).answer }
    ensures looked { Looked result (all_looks (F.looks lent.now.finder.now) (spec.found (G.rules group.now) (seen context.entry) operation)) steps.old steps.new }
{
    match lacking(alloc, group, context, lent, &operation)? {
        Some(refusal) => Err(Stop::Refused(refusal)),
        None => permitted(alloc, group, context, lent, operation, steps),
    }
}

// The operator lacks nothing, and anybody else the first need that isn't granted.
fn lacking<G: Group, F: Finder>(
    alloc: Global,
    group: &G,
    context: Context<'_>,
    lent: &Lent<'_, F>,
    operation: &G::Operation,
) -> Result<Option<Refusal>, NoMemory>
    ensures { IfOk result (λ o. o ≡ permissions.lacking (seen context.entry) ((G.rules group.now).needs (seen context.entry) operation.now)) }
{
    if is_operator(context.caller) {
        return Ok(None);
    }
    let needs = group.needs(alloc, context, lent, operation)?;
    Ok(first_lacking(context, needs.as_slice()))
}

// The caller may do it: what the group itself refuses.
fn permitted<G: Group, F: Finder, L: Ledger>(
    alloc: Global,
    group: &G,
    context: Context<'_>,
    lent: &Lent<'_, F>,
    operation: G::Operation,
    steps: &mut Steps<L>,
) -> Result<Prepared, Stop>
    requires exact { IsExactIn (F.held lent.now.finder.now) (seen context) }
    ensures done { IsAsDecided result (spec.permitted (G.rules group.now) (seen context.entry) operation).answer }
    ensures looked { Looked result (all_looks (F.looks lent.now.finder.now) (spec.permitted (G.rules group.now) (seen context.entry) operation)) steps.old steps.new }
{
    match group.own_refusal(alloc, context, lent, &operation)? {
        Some(refusal) => Err(Stop::Refused(refusal)),
        None => group.does(alloc, context, lent, operation, steps),
    }
}

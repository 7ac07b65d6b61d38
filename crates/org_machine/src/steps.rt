//! One request on one organisation's state: whether the organisation has to be there, and then the rules
//! of the route's group, one line a group: the one place of the code that names the groups.

ghost use Rattle.std.specs.Prelude.{◌≡◌, IfOk};
ghost use Rattle.org_requests.specs.Documents as bodies;
ghost use Rattle.org_core.specs.Contexts.{IsExactIn, seen};
ghost use Rattle.org_core.specs.Outcomes.{IsAsDecided, Looked, all_looks};
ghost use Rattle.org_machine.specs.Steps as spec;

use crate::order::{absence_refusal, answered_by};
use access_routes::Access;
use cookbook_routes::Cookbooks;
use doc_tree::{NoMemory, Steps, Text};
use object_finder::Finder;
use object_routes::{DataBags, Organisations, PlainObjects};
use org_core::{Context, Lent, Prepared};
use org_requests::routes::{OrganisationRoute, Route};
use org_requests::{Body, Refusal, Request, Stop, document_in};
use policy_routes::Policies;
use search_routes::Searches;
use std::alloc::Global;
use std::sync::ledger::Ledger;

/// Decides a request at a route of an organisation.
pub(crate) fn within<F: Finder, L: Ledger>(
    alloc: Global,
    context: Context<'_>,
    lent: &Lent<'_, F>,
    route: &Route,
    request: &Request,
    steps: &mut Steps<L>,
) -> Result<Prepared, Stop>
    requires exact { IsExactIn (F.held lent.now.finder.now) (seen context) }
    ensures done { IsAsDecided result (spec.within (seen context.entry) route.now request.now).answer }
    ensures looked { Looked result (all_looks (F.looks lent.now.finder.now) (spec.within (seen context.entry) route.now request.now)) steps.old steps.new }
{
    match absence_refusal(asks_for_organisation(route), context) {
        Some(refusal) => Err(Stop::Refused(refusal)),
        None => at_route(alloc, context, lent, route, request, steps),
    }
}

/// Whether the route asks that its organisation is there: every one but that by which it is created.
fn asks_for_organisation(route: &Route) -> bool
    ensures { result ≡ spec.asks_for_organisation route.now }
{
    !matches!(route, Route::Organisation(OrganisationRoute::Create))
}

/// Decides a request by the rules of its route's group.
fn at_route<F: Finder, L: Ledger>(
    alloc: Global,
    context: Context<'_>,
    lent: &Lent<'_, F>,
    route: &Route,
    request: &Request,
    steps: &mut Steps<L>,
) -> Result<Prepared, Stop>
    requires exact { IsExactIn (F.held lent.now.finder.now) (seen context) }
    ensures done { IsAsDecided result (spec.at_route (seen context.entry) route.now request.now).answer }
    ensures looked { Looked result (all_looks (F.looks lent.now.finder.now) (spec.at_route (seen context.entry) route.now request.now)) steps.old steps.new }
{
    match route {
        Route::Organisation(route) => {
            answered_by(alloc, &Organisations, context, lent, route, request, steps)
        }
        Route::Objects(collection, route) => {
            let group = PlainObjects {
                collection: *collection,
            };
            answered_by(alloc, &group, context, lent, route, request, steps)
        }
        Route::Data(route) => answered_by(alloc, &DataBags, context, lent, route, request, steps),
        Route::Access(route) => answered_by(alloc, &Access, context, lent, route, request, steps),
        Route::Cookbooks(route) => {
            answered_by(alloc, &Cookbooks, context, lent, route, request, steps)
        }
        Route::Search(route) => {
            answered_by(alloc, &Searches, context, lent, route, request, steps)
        }
        Route::Policies(route) => {
            answered_by(alloc, &Policies, context, lent, route, request, steps)
        }
    }
}

/// The refusal of a POST to `/organizations` whose body names no organisation.
pub(crate) fn unnamed(alloc: Global, body: &Body) -> Result<Refusal, NoMemory>
    ensures { IfOk result (λ refusal. refusal ≡ spec.unnamed (bodies.document_in body.now)) }
{
    match document_in(body) {
        Ok(_) => Ok(Refusal::BadField(Text::from_str(alloc, "name")?)),
        Err(refusal) => Ok(refusal),
    }
}

//! Where a path points, by its segments, the method and the table of routes.
ghost use Rattle.http_routes.specs.Places as spec;
ghost use Rattle.org_requests.specs.Table.{target_of};
ghost use Rattle.std.specs.Prelude.{◌≡◌, IfOk, Some, option_copied};

use crate::router::Routes;
use doc_tree::{NoMemory, Text, Texts, Tree, is_organisation_name};
use org_requests::routes::{OrganisationRoute, Route, RouteOf, nth};
use org_requests::{Body, Place, Row, Verb, is_left_out};
use std::alloc::Global;

// The number of the segment that names the organisation of a path.
const ORGANISATION: usize = 1;

/// The place that the segments of a path name, by a method: the route that the table of routes has, with
/// the names of the path in it. A path that has no segments, `None`, has no route.
pub(crate) fn place_of(
    alloc: Global,
    routes: &Routes,
    segments: Option<Texts>,
    verb: Verb,
) -> Result<Place, NoMemory>
    ensures { IfOk result (λ place. place ≡ spec.place_of segments verb) }
{
    match segments {
        Some(segments) => place_in(alloc, routes, segments.as_slice(), verb),
        None => Ok(Place::NoRoute),
    }
}

fn place_in(
    alloc: Global,
    routes: &Routes,
    segments: &[Text],
    verb: Verb,
) -> Result<Place, NoMemory>
    ensures { IfOk result (λ place. place ≡ spec.place_of (Some segments.now) verb) }
{
    if is_left_out(segments) {
        return Ok(Place::LeftOut);
    }
    match routes.find(alloc, segments)? {
        Some(row) => place_by(alloc, &row, segments, verb),
        None => Ok(Place::NoRoute),
    }
}

// The place of a path of the table by a method.
fn place_by(alloc: Global, row: &Row, segments: &[Text], verb: Verb) -> Result<Place, NoMemory>
    ensures { IfOk result (λ place. place ≡ spec.place_by (target_of row.now) segments.now verb) }
{
    if row.has_method(verb) {
        place_named(alloc, &row.route, segments)
    } else {
        no_method(alloc, &row.route, segments)
    }
}

// A route of the organisation that the path names, or `/organizations`.
fn place_named(
    alloc: Global,
    route: &Option<RouteOf<usize>>,
    segments: &[Text],
) -> Result<Place, NoMemory>
    ensures { IfOk result (λ place. place ≡ spec.place_named route.now segments.now) }
{
    match route {
        Some(route) => {
            let org = nth(alloc, ORGANISATION, segments)?;
            Ok(of(org, route.named(alloc, segments)?))
        }
        None => Ok(Place::Organisations),
    }
}

// The path hasn't the method.
fn no_method(
    alloc: Global,
    route: &Option<RouteOf<usize>>,
    segments: &[Text],
) -> Result<Place, NoMemory>
    ensures { IfOk result (λ place. place ≡ Place.NoMethod (spec.org_named route.now segments.now)) }
{
    match route {
        Some(_) => Ok(Place::NoMethod {
            org: Some(nth(alloc, ORGANISATION, segments)?),
        }),
        None => Ok(Place::NoMethod { org: None }),
    }
}

fn of(org: Text, route: Route) -> Place
    ensures { result ≡ Place.Of org route }
{
    Place::Of { org, route }
}

/// Whether a request to this place by this method creates an organisation, which its body names.
pub(crate) fn is_creation(place: &Place, verb: Verb) -> bool
    ensures { result ≡ spec.is_creation place.now verb }
{
    matches!(place, Place::Organisations) && verb.is_post()
}

/// The place once the body is known: a POST to `/organizations` is of the organisation that its body
/// names, where it names one.
pub(crate) fn place_with(
    alloc: Global,
    place: Place,
    verb: Verb,
    body: &Body,
) -> Result<Place, NoMemory>
    ensures { IfOk result (λ known. known ≡ spec.place_with place verb body.now) }
{
    if is_creation(&place, verb) {
        drop(place);
        creation(alloc, organisation_in(body))
    } else {
        Ok(place)
    }
}

fn creation(alloc: Global, name: Option<&str>) -> Result<Place, NoMemory>
    ensures { IfOk result (λ place. place ≡ spec.creation (option_copied name.entry)) }
{
    match name {
        Some(org) => Ok(of(
            Text::from_str(alloc, org)?,
            Route::Organisation(OrganisationRoute::Create),
        )),
        None => Ok(Place::Organisations),
    }
}

fn organisation_in(body: &Body) -> Option<&str>
    ensures { option_copied result ≡ spec.organisation_in_body body.now }
{
    let Body::Doc(Tree::Dict(fields)) = body else {
        return None;
    };
    match fields.get("name") {
        Some(Tree::Words(name)) if is_organisation_name(name.as_str()) => Some(name.as_str()),
        _ => None,
    }
}

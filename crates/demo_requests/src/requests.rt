//! The requests of a demo, typed as the messages that spell them are read.
ghost use Rattle.std.specs.Prelude.{◌≡◌, ◌∷◌, [], IfOk};
ghost use Rattle.demo_requests.specs.DemoRequests as spec;

use crate::bodies::{named, tagged};
use crate::names;
use crate::turns::{Deed, Turn};
use doc_tree::{NoMemory, Text};
use org_requests::routes::{ObjectsRoute, OrganisationRoute, Route, SearchRoute};
use org_requests::{Body, Collection, Parameter, Parameters, Place, Request, Verb};
use std::alloc::Global;

/// The request that creates the organisation of this number.
pub(crate) fn creation(alloc: Global, number: u64) -> Result<Request, NoMemory>
    ensures { IfOk result (λ request. request ≡ spec.creation (spec.organisation number)) }
{
    let caller = names::operator(alloc)?;
    let org = names::organisation(alloc, number)?;
    let body = Body::Doc(named(alloc, org.copy(alloc)?)?);
    let route = Route::Organisation(OrganisationRoute::Create);
    Ok(asks(caller, Verb::Post, org, route, Parameters::new(alloc), body))
}

/// The request of a turn.
pub(crate) fn turn_request(alloc: Global, turn: Turn) -> Result<Request, NoMemory>
    ensures { IfOk result (λ request. request ≡ spec.turn_request turn) }
{
    let org = names::organisation(alloc, turn.organisation)?;
    match turn.deed {
        Deed::Create => create(alloc, org, turn),
        Deed::Show => ask_of_node(alloc, Verb::Get, org, turn.node),
        Deed::Remove => ask_of_node(alloc, Verb::Delete, org, turn.node),
        Deed::Search => search(alloc, org, turn.tag),
        Deed::Replace => replace(alloc, org, turn),
    }
}

fn create(alloc: Global, org: Text, turn: Turn) -> Result<Request, NoMemory>
    ensures { IfOk result (λ request. request ≡ spec.asks_by Deed.Create org (spec.node turn.node) (spec.tag turn.tag)) }
{
    let caller = names::operator(alloc)?;
    let body = node_body(alloc, turn)?;
    let route = Route::Objects(Collection::Nodes, ObjectsRoute::All);
    Ok(asks(caller, Verb::Post, org, route, Parameters::new(alloc), body))
}

fn replace(alloc: Global, org: Text, turn: Turn) -> Result<Request, NoMemory>
    ensures { IfOk result (λ request. request ≡ spec.asks_by Deed.Replace org (spec.node turn.node) (spec.tag turn.tag)) }
{
    let caller = names::operator(alloc)?;
    let name = names::node(alloc, turn.node)?;
    let body = node_body(alloc, turn)?;
    Ok(asks(
        caller,
        Verb::Put,
        org,
        node_named(name),
        Parameters::new(alloc),
        body,
    ))
}

// The node of a turn, with the turn's tag.
fn node_body(alloc: Global, turn: Turn) -> Result<Body, NoMemory>
    ensures { IfOk result (λ body. body ≡ spec.node_body (spec.node turn.node) (spec.tag turn.tag)) }
{
    let name = names::node(alloc, turn.node)?;
    let tag = names::tag(alloc, turn.tag)?;
    Ok(Body::Doc(tagged(alloc, name, tag)?))
}

// A node is shown or removed.
fn ask_of_node(alloc: Global, verb: Verb, org: Text, number: u64) -> Result<Request, NoMemory>
    ensures { IfOk result (λ request. request ≡ spec.asks verb org (spec.node_named (spec.node number)) [] Body.Empty) }
{
    let caller = names::operator(alloc)?;
    let name = names::node(alloc, number)?;
    Ok(asks(
        caller,
        verb,
        org,
        node_named(name),
        Parameters::new(alloc),
        Body::Empty,
    ))
}

fn search(alloc: Global, org: Text, tag: u64) -> Result<Request, NoMemory>
    ensures { IfOk result (λ request. request ≡ spec.search org (spec.tag tag)) }
{
    let caller = names::operator(alloc)?;
    let parameters = query(alloc, tag)?;
    let index = Text::from_str(alloc, "node")?;
    let route = Route::Search(SearchRoute::Index(index));
    Ok(asks(caller, Verb::Get, org, route, parameters, Body::Empty))
}

// The parameters of a search for the nodes with a tag.
fn query(alloc: Global, tag: u64) -> Result<Parameters, NoMemory>
    ensures { IfOk result (λ parameters. parameters ≡ spec.parameter (spec.query (spec.tag tag)) ∷ []) }
{
    let name = Text::from_str(alloc, "q")?;
    let value = names::query(alloc, tag)?;
    let mut parameters = Parameters::new(alloc);
    parameters.push(Parameter { name, value })?;
    Ok(parameters)
}

fn node_named(name: Text) -> Route
    ensures { result ≡ spec.node_named name }
{
    Route::Objects(Collection::Nodes, ObjectsRoute::One(name))
}

// A request of an organisation, in version 0 of the API.
fn asks(
    caller: Text,
    verb: Verb,
    org: Text,
    route: Route,
    parameters: Parameters,
    body: Body,
) -> Request
    requires { caller ≡ spec.operator }
    ensures { result ≡ spec.asks verb org route parameters body }
{
    Request {
        caller: Some(caller),
        api: Some(0),
        verb,
        place: Place::Of { org, route },
        parameters,
        body,
        close: false,
    }
}

//! An organisation over the finder that looks at each object: it is created, gets a node, and is copied.

ghost use Rattle.std.specs.Prelude.{◌≡◌, ◌<◌, List, ℕ, codes, IfOk, Some};
ghost use Rattle.org_core.specs.FullStates.{full_in, MeetsFileConditions};
ghost use Rattle.org_requests.specs.Requests.{org_of};
ghost use Rattle.sandboxes.specs.Files.{holding_of};
ghost use Rattle.sandboxes.specs.Sandboxes.{nothing};

use doc_tree::{Kind, NoMemory, Steps, Text, read_json};
use object_finder::ScanFinder;
use org_core::OrgState;
use org_machine::serve;
use org_requests::routes::{ObjectsRoute, OrganisationRoute, Route, SearchRoute};
use org_requests::{Body, Collection, Parameters, Place, Reply, Request, Verb};
use sandboxes::Files;
use std::alloc::Global;
use std::hash::RandomState;
use std::marker::Brand;
use std::sync::ledger::{Blank, Ledger};
use std::test::Fail;

// Requests, one after another: the method, the route and the body.
const ASKED: [(Verb, &str, &str); 4] = [
    (Verb::Post, "create", ""),
    (
        Verb::Post,
        "nodes",
        r#"{"name":"web1","normal":{"tier":"front"}}"#,
    ),
    (Verb::Post, "search", r#"{"tier":["tier"]}"#),
    (Verb::Get, "search teams", ""),
];

// What they are answered; whether the state is there, whether it has `web1`, and how many nodes; and the same of its copy.
const TOLD: &str = r#"201 {"uri":"/organizations/acme"}
201 {"uri":"/organizations/acme/nodes/web1"}
200 {"rows":[{"data":{"tier":"front"},"url":"/organizations/acme/nodes/web1"}],"start":0,"total":1}
404 {"error":["not found"]}
true true 1
true true 1
"#;

fn add_reply(alloc: Global, told: &mut String, reply: Reply) -> Result<(), NoMemory> {
    let body = std::str::from_utf8(reply.body.as_slice()).unwrap_or("no text");
    let line = format!(in alloc; "{} {body}\n", reply.status)?;
    told.push_str(line.as_str())?;
    Ok(())
}

fn route(alloc: Global, words: &str) -> Result<Route, NoMemory> {
    Ok(match words {
        "create" => Route::Organisation(OrganisationRoute::Create),
        "nodes" => Route::Objects(Collection::Nodes, ObjectsRoute::All),
        "search" => Route::Search(SearchRoute::Index(Text::from_str(alloc, "node")?)),
        _ => Route::Search(SearchRoute::Index(Text::from_str(alloc, "teams")?)),
    })
}

fn body(alloc: Global, text: &str) -> Body {
    match read_json(alloc, text.as_bytes()) {
        Ok(tree) => Body::Doc(tree),
        Err(_) => Body::Empty,
    }
}

/// A request on `acme` by the operator.
fn request(alloc: Global, verb: Verb, words: &str, text: &str) -> Result<Request, NoMemory>
    ensures { IfOk result (λ r. org_of r ≡ Some (codes "acme")) }
{
    let caller = Text::from_str(alloc, "pivotal")?;
    let org = Text::from_str(alloc, "acme")?;
    let route = route(alloc, words)?;
    Ok(Request {
        caller: Some(caller),
        api: Some(0),
        verb,
        place: Place::Of { org, route },
        parameters: Parameters::new(alloc),
        body: body(alloc, text),
        close: false,
    })
}

/// The reply to a request on the organisation, which is used up.
fn served<L: Ledger>(
    alloc: Global,
    state: &mut OrgState,
    files: &mut Files,
    steps: &mut Steps<L>,
    request: Request,
) -> Reply
    requires of { org_of request ≡ Some state.old.name }
    requires files { MeetsFileConditions (full_in state.old files.old) }
    ensures name { state.new.name ≡ state.old.name }
    ensures files { MeetsFileConditions (full_in state.new files.new) }
{
    serve(alloc, state, files, &request, None, &mut ScanFinder, steps)
}

/// The replies to all that is asked of `acme`, one after another.
fn add_replies<L: Ledger>(
    alloc: Global,
    state: &mut OrgState,
    files: &mut Files,
    steps: &mut Steps<L>,
    told: &mut String,
) -> Result<(), NoMemory>
    requires name { state.old.name ≡ codes "acme" }
    requires files { MeetsFileConditions (full_in state.old files.old) }
{
    for (verb, words, text) in &ASKED {
        let request = request(alloc, *verb, words, text)?;
        let reply = served(alloc, state, files, steps, request);
        add_reply(alloc, told, reply)?;
    }
    Ok(())
}

fn add_state(alloc: Global, told: &mut String, state: &OrgState) -> Result<(), NoMemory> {
    let (there, has) = (state.is_there(), state.has(Kind::Node, "web1"));
    let count = state.names(alloc, Kind::Node)?.len();
    let line = format!(in alloc; "{there} {has} {count}\n")?;
    told.push_str(line.as_str())?;
    Ok(())
}

fn add_copy(alloc: Global, told: &mut String, state: &OrgState) -> Result<(), NoMemory> {
    let copy = state.copy(alloc)?;
    add_state(alloc, told, &copy)
}

fn add_life<L: Ledger>(
    alloc: Global,
    state: &mut OrgState,
    files: &mut Files,
    told: &mut String,
    blank: Blank,
) -> Result<(), NoMemory>
    requires name { state.old.name ≡ codes "acme" }
    requires files { MeetsFileConditions (full_in state.old files.old) }
    requires ledger { blank.name ≡ L.name }
    requires parts { blank.parts ≡ L.parts }
    requires some { 0 < L.parts }
{
    let mut steps: Steps<L> = Steps::begin(blank);
    add_replies(alloc, state, files, &mut steps, told)?;
    add_state(alloc, told, state)?;
    add_copy(alloc, told, state)
}

/// Files of nobody.
fn no_files(alloc: Global) -> Files
    ensures { (name : List ℕ) → holding_of result name ≡ nothing }
{
    Files::none(alloc)
}

/// What is large has one way out.
fn life(alloc: Global, hasher: RandomState, told: &mut String) -> Result<(), NoMemory> {
    let acme = Text::from_str(alloc, "acme")?;
    let mut state = OrgState::none(alloc, hasher, acme);
    let mut files = no_files(alloc);
    add_life::<Brand>(alloc, &mut state, &mut files, told, Blank::new(1))
}

#[test]
fn an_organisation_is_searched_by_a_look_at_each_object_and_copied(
    rt: HostRuntime,
) -> Result<(), Fail> {
    let hasher = RandomState::new(&rt)?;
    let mut told = String::new(rt.alloc());
    life(rt.alloc(), hasher, &mut told)?;
    assert_eq!(rt; told.as_str(), TOLD);
    Ok(())
}

//! Whole requests in words: where they go, what the table says of them, and their bodies.
use doc_tree::NoMemory;
use http_routes::{BodyForm, Head, HeaderValue, Routes, body_of};
use org_requests::routes::{
    AccessRoute, CookbookRoute, DataRoute, ObjectsRoute, OrganisationRoute, PolicyRoute, Route,
    SearchRoute,
};
use org_requests::{Body, Place, Request};
use std::alloc::Global;
use std::test::Fail;

// A method, a target and a body, and the request of the operator that they spell.
const REQUESTS: &str = r#"POST /organizations?x=1 {"name":"acme"} => acme create has doc
POST /organizations {"a":1,"name":"a-1_b"} => a-1_b create has doc
POST /organizations {"name":"Acme"} => organisations has doc
POST /organizations {"name":7} => organisations has doc
POST /organizations ["name"] => organisations has doc
POST /organizations {"name":"acme" => organisations has bad
POST /organizations => organisations has bad
GET /organizations {"name":"acme"} => organisations has empty
PUT /organizations {"name":"acme"} => no organisation lacks empty
post /organizations {"name":"acme"} => no organisation lacks empty
GET /organizations/acme => acme whole has empty
DELETE /organizations/acme => acme lacks empty
POST /organizations/acme/nodes {} => acme nodes has doc
GET /organizations/acme/%6eodes {} => acme nodes has empty
GET /organizations/acme/roles => acme roles has empty
GET /organizations/acme/environments => acme environments has empty
POST /organizations/acme/clients { => acme clients has bad
PUT /organizations/acme/nodes/web1 {} => acme nodes web1 has doc
POST /organizations/acme/nodes/web1 {} => acme lacks empty
GET /organizations/acme/nodes/a%20b => acme nodes a b has empty
GET /organizations/acme/roles/r => acme roles r has empty
GET /organizations/acme/environments/e => acme environments e has empty
DELETE /organizations/acme/clients/c {} => acme clients c has empty
POST /organizations/acme/groups {} => acme groups has doc
GET /organizations/acme/groups/g => acme group g has empty
GET /organizations/acme/users => acme users has empty
GET /organizations/acme/users/u => acme user u has empty
GET /organizations/acme/containers => acme containers has empty
PUT /organizations/acme/containers/c {} => acme lacks empty
GET /organizations/acme/data/b/_acl => acme list data b has empty
GET /organizations/acme/policy_groups/g/_acl => acme list policy_groups g has empty
PUT /organizations/acme/nodes/web/_acl/read {} => acme entry nodes web read has doc
GET /organizations/acme/data => acme bags has empty
GET /organizations/acme/data/b => acme bag b has empty
PUT /organizations/acme/data/b/i {} => acme item b i has doc
POST /organizations/acme/sandboxes {} => acme sandboxes has doc
PUT /organizations/acme/sandboxes/1 {} => acme sandbox 1 has doc
PUT /organizations/acme/files/0f x => acme file 0f has raw
GET /organizations/acme/cookbooks => acme cookbooks has empty
GET /organizations/acme/cookbooks/c => acme cookbook c has empty
GET /organizations/acme/cookbooks/c/1.0.0 => acme version c 1.0.0 has empty
GET /organizations/acme/universe => acme universe has empty
GET /organizations/acme/cookbook_artifacts => acme artifacts has empty
GET /organizations/acme/cookbook_artifacts/c/1f => acme artifact c 1f has empty
POST /organizations/acme/environments/e/cookbook_versions {} => acme solved e has doc
GET /organizations/acme/policies => acme policies has empty
GET /organizations/acme/policies/p => acme policy p has empty
POST /organizations/acme/policies/p/revisions {} => acme revisions p has doc
GET /organizations/acme/policies/p/revisions/1 => acme revision p 1 has empty
GET /organizations/acme/policy_groups => acme policygroups has empty
GET /organizations/acme/policy_groups/g => acme policygroup g has empty
PUT /organizations/acme/policy_groups/g/policies/p {} => acme assignment g p has doc
GET /organizations/acme/search => acme indexes has empty
POST /organizations/acme/search/node {} => acme index node has doc
POST /organizations/acme/nodes/a/b {} => no route lacks empty
GET /organizations/acme/nodes/a%2Fb => no route lacks empty
GET /organizations/acme/nodes/ => no route lacks empty
PUT /license {} => no route lacks empty
GET organizations => no route lacks empty
GET /users => left out lacks empty
POST /users {} => left out lacks empty
GET /users/ann/keys => left out lacks empty
GET /organizations/acme/principals/ann => left out lacks empty
PUT /organizations/acme/required_recipe {} => left out lacks empty
GET /organizations/acme/data/b/i/x => no route lacks empty
POST /organizations/acme/data/b [1] => acme bag b has doc
"#;

// A caller, a version and a target, and the POST of `{"name":"acme"}` that they spell.
const POSTS: &str = r#"pivotal 1 /organizations/o/nodes => o nodes has doc
pivotal 2 /organizations/o/nodes => o nodes has empty
pivotal x /organizations/o/nodes => o nodes has empty
ann 1 /organizations/o/nodes => o nodes has doc
 1 /organizations/o/nodes => o nodes has doc
pivotal 2 /organizations => acme create has doc
ann 1 /organizations => acme create has doc
ann x /organizations => acme create has doc
"#;

type Words<'a> = (&'a str, &'a str, &'a str, &'a str);

fn data(route: &DataRoute) -> Words<'_> {
    match route {
        DataRoute::Bags => ("bags", "", "", ""),
        DataRoute::Bag(bag) => ("bag", bag.as_str(), "", ""),
        DataRoute::Item(bag, id) => ("item", bag.as_str(), id.as_str(), ""),
    }
}

fn access(route: &AccessRoute) -> Words<'_> {
    match route {
        AccessRoute::Groups => ("groups", "", "", ""),
        AccessRoute::Group(name) => ("group", name.as_str(), "", ""),
        AccessRoute::Users => ("users", "", "", ""),
        AccessRoute::User(name) => ("user", name.as_str(), "", ""),
        AccessRoute::Containers => ("containers", "", "", ""),
        AccessRoute::Container(name) => ("container", name.as_str(), "", ""),
        AccessRoute::List(collection, name) => ("list", collection.as_str(), name.as_str(), ""),
        AccessRoute::Entry(collection, name, permission) => (
            "entry",
            collection.as_str(),
            name.as_str(),
            permission.as_str(),
        ),
    }
}

fn cookbooks(route: &CookbookRoute) -> Words<'_> {
    match route {
        CookbookRoute::Sandboxes => ("sandboxes", "", "", ""),
        CookbookRoute::Sandbox(id) => ("sandbox", id.as_str(), "", ""),
        CookbookRoute::File(checksum) => ("file", checksum.as_str(), "", ""),
        CookbookRoute::Cookbooks => ("cookbooks", "", "", ""),
        CookbookRoute::Cookbook(name) => ("cookbook", name.as_str(), "", ""),
        CookbookRoute::Version(name, version) => ("version", name.as_str(), version.as_str(), ""),
        CookbookRoute::Universe => ("universe", "", "", ""),
        CookbookRoute::SolvedVersions(name) => ("solved", name.as_str(), "", ""),
    }
}

fn policies(route: &PolicyRoute) -> Words<'_> {
    match route {
        PolicyRoute::Artifacts => ("artifacts", "", "", ""),
        PolicyRoute::Artifact(name, id) => ("artifact", name.as_str(), id.as_str(), ""),
        PolicyRoute::Policies => ("policies", "", "", ""),
        PolicyRoute::Policy(name) => ("policy", name.as_str(), "", ""),
        PolicyRoute::Revisions(name) => ("revisions", name.as_str(), "", ""),
        PolicyRoute::Revision(name, id) => ("revision", name.as_str(), id.as_str(), ""),
        PolicyRoute::Groups => ("policygroups", "", "", ""),
        PolicyRoute::Group(name) => ("policygroup", name.as_str(), "", ""),
        PolicyRoute::Assignment(group, name) => ("assignment", group.as_str(), name.as_str(), ""),
    }
}

fn search(route: &SearchRoute) -> Words<'_> {
    match route {
        SearchRoute::Indexes => ("indexes", "", "", ""),
        SearchRoute::Index(name) => ("index", name.as_str(), "", ""),
    }
}

fn route(route: &Route) -> Words<'_> {
    match route {
        Route::Organisation(OrganisationRoute::Create) => ("create", "", "", ""),
        Route::Organisation(OrganisationRoute::Whole) => ("whole", "", "", ""),
        Route::Objects(collection, ObjectsRoute::All) => (collection.segment(), "", "", ""),
        Route::Objects(collection, ObjectsRoute::One(name)) => {
            (collection.segment(), name.as_str(), "", "")
        }
        Route::Data(route) => data(route),
        Route::Access(route) => access(route),
        Route::Cookbooks(route) => cookbooks(route),
        Route::Policies(route) => policies(route),
        Route::Search(route) => search(route),
    }
}

fn place(place: &Place) -> (&str, Words<'_>) {
    match place {
        Place::Of { org, route: below } => (org.as_str(), route(below)),
        Place::Organisations => ("organisations", ("", "", "", "")),
        Place::LeftOut => ("left out", ("", "", "", "")),
        Place::NoRoute => ("no route", ("", "", "", "")),
        Place::NoMethod { org: Some(org) } => (org.as_str(), ("", "", "", "")),
        Place::NoMethod { org: None } => ("no organisation", ("", "", "", "")),
        Place::NoMemory => ("no memory", ("", "", "", "")),
    }
}

// Whether the table of routes has the method there.
fn method(place: &Place) -> &'static str {
    match place {
        Place::Of { org: _, route: _ } | Place::Organisations => "has",
        Place::LeftOut | Place::NoRoute | Place::NoMethod { org: _ } | Place::NoMemory => "lacks",
    }
}

fn body(body: &Body) -> &'static str {
    match body {
        Body::Empty => "empty",
        Body::Doc(_) => "doc",
        Body::Bad(_) => "bad",
        Body::Raw(_) => "raw",
        Body::TooLong => "too long",
    }
}

// Adds the words, but for the empty ones, with a space before each.
fn add_words(told: &mut String, words: &[&str]) -> Result<(), NoMemory> {
    for word in words {
        if !word.is_empty() {
            told.push(' ')?;
        }
        told.push_str(word)?;
    }
    Ok(())
}

// Adds a request in words: the organisation, the route and the names in it, the mark, and the body.
fn add_request(told: &mut String, request: &Request) -> Result<(), NoMemory> {
    let (org, (word, first, second, third)) = place(&request.place);
    add_words(told, &[org, word, first, second, third])?;
    add_words(told, &[method(&request.place), body(&request.body)])
}

fn use_up(told: &mut String, request: Request) -> Result<(), NoMemory> {
    add_request(told, &request)
}

fn body_in(alloc: Global, form: BodyForm, text: &str) -> Result<Body, NoMemory> {
    let bytes = Vec::from_slice(alloc, text.as_bytes())?;
    body_of(alloc, form, bytes)
}

// The request of a head and the text of its body.
fn with_text(alloc: Global, head: Head, text: &str) -> Result<Request, NoMemory> {
    match body_in(alloc, head.body_form(), text) {
        Ok(body) => head.with_body(alloc, body),
        Err(fault) => Err(fault),
    }
}

// The request that parts of a message spell.
fn spelled(
    alloc: Global,
    routes: &Routes,
    line: (&str, &str),
    caller: &str,
    version: HeaderValue<'_>,
    body: &str,
) -> Result<Request, NoMemory> {
    let caller = HeaderValue::One(caller.as_bytes());
    let (method, target) = (line.0.as_bytes(), line.1.as_bytes());
    match Head::read(alloc, routes, method, target, caller, version, false) {
        Ok(head) => with_text(alloc, head, body),
        Err(fault) => Err(fault),
    }
}

fn add_spelled(
    alloc: Global,
    told: &mut String,
    routes: &Routes,
    line: (&str, &str),
    caller: &str,
    version: HeaderValue<'_>,
    body: &str,
) -> Result<(), NoMemory> {
    match spelled(alloc, routes, line, caller, version, body) {
        Ok(request) => use_up(told, request),
        Err(fault) => Err(fault),
    }
}

// Adds what a row of the first table sends, and the request that this spells.
fn add_requested(
    alloc: Global,
    told: &mut String,
    routes: &Routes,
    sent: &str,
) -> Result<(), Fail> {
    let (method, rest) = sent.split_once(' ').ok_or("a method")?;
    let (target, body) = rest.split_once(' ').unwrap_or((rest, ""));
    let line = (method, target);
    write!(told, "{sent} =>")?;
    add_spelled(
        alloc,
        told,
        routes,
        line,
        "pivotal",
        HeaderValue::Missing,
        body,
    )?;
    Ok(told.push_str("\n")?)
}

// Adds what a row of the second table sends, and the request that this spells.
fn add_posted(alloc: Global, told: &mut String, routes: &Routes, sent: &str) -> Result<(), Fail> {
    let (caller, rest) = sent.split_once(' ').ok_or("a caller")?;
    let (version, target) = rest.split_once(' ').ok_or("a version")?;
    let version = HeaderValue::One(version.as_bytes());
    let body = "{\"name\":\"acme\"}";
    write!(told, "{sent} =>")?;
    add_spelled(alloc, told, routes, ("POST", target), caller, version, body)?;
    Ok(told.push_str("\n")?)
}

// What a row sends.
fn sent_in(row: &str) -> &str {
    match row.split_once(" => ") {
        Some((sent, _)) => sent,
        None => row,
    }
}

fn add_all_requested(alloc: Global, told: &mut String) -> Result<(), Fail> {
    let routes = Routes::take(alloc)?;
    for row in REQUESTS.lines() {
        add_requested(alloc, told, &routes, sent_in(row))?;
    }
    Ok(())
}

fn add_all_posted(alloc: Global, told: &mut String) -> Result<(), Fail> {
    let routes = Routes::take(alloc)?;
    for row in POSTS.lines() {
        add_posted(alloc, told, &routes, sent_in(row))?;
    }
    Ok(())
}

#[test]
fn a_request_names_its_place(rt: HostRuntime) -> Result<(), Fail> {
    let mut told = String::new(rt.alloc());
    add_all_requested(rt.alloc(), &mut told)?;
    assert_eq!(rt; told.as_str(), REQUESTS);
    Ok(())
}

#[test]
fn a_refused_body_is_not_read(rt: HostRuntime) -> Result<(), Fail> {
    let mut told = String::new(rt.alloc());
    add_all_posted(rt.alloc(), &mut told)?;
    assert_eq!(rt; told.as_str(), POSTS);
    Ok(())
}

//! Paths, their routes and methods, and what is left out.
use doc_tree::{NoMemory, Text};
use http_routes::Routes;
use org_requests::{ROUTES, Row, Verb, is_left_out};
use std::alloc::Global;
use std::test::Fail;

// A path, and the route that it is, with the numbers of the segments that have its names.
const PATHS: &str = "/organizations => of no organisation
/organizations/acme => Organisation(Whole)
/organizations/organizations => Organisation(Whole)
/organizations/acme/nodes => Objects(Nodes, All)
/organizations/acme/nodes/web => Objects(Nodes, One(3))
/organizations/acme/nodes/é => Objects(Nodes, One(3))
/organizations/acme/nodes/_acl => Objects(Nodes, One(3))
/organizations/acme/nodes/web/_acl => Access(List(2, 3))
/organizations/acme/nodes/web/_acl/read => Access(Entry(2, 3, 5))
/organizations/acme/cookbooks/web/_acl => Access(List(2, 3))
/organizations/acme/cookbooks/web/1.0.0 => Cookbooks(Version(3, 4))
/organizations/acme/cookbooks/web/1.0.0/x => none
/organizations/acme/cookbooks/web/_acl/read => Access(Entry(2, 3, 5))
/organizations/acme/cookbook_artifacts/web => none
/organizations/acme/cookbook_artifacts/web/1 => Policies(Artifact(3, 4))
/organizations/acme/data/_acl => Data(Bag(3))
/organizations/acme/data/_acl/x => Data(Item(3, 4))
/organizations/acme/data/x/_acl => Access(List(2, 3))
/organizations/acme/environments/prod/cookbook_versions => Cookbooks(SolvedVersions(3))
/organizations/acme/environments/prod/other => none
/organizations/acme/policies/p/revisions/1 => Policies(Revision(3, 5))
/organizations/acme/policy_groups/g/policies => none
/organizations/acme/policy_groups/g/policies/p => Policies(Assignment(3, 5))
/organizations/acme/nodes/a/b => none
/organizations/acme/users/ann/_acl => none
/organizations/acme/sandboxes/1/_acl => none
/organizations/acme/files => none
/organizations/acme/ => none
/organizations//nodes => none
/Organizations => none
/nodes => none
/ => none
 => none
";

// A path, and the methods that it has.
const METHODS: &str = "/organizations => GET, POST
/organizations/acme => GET
/organizations/acme/nodes => GET, POST
/organizations/acme/nodes/web => GET, PUT, DELETE
/organizations/acme/groups/admins => GET, PUT, DELETE
/organizations/acme/data/b/_acl => GET
/organizations/acme/policies/p/_acl/read => PUT
/organizations/acme/files/1 => GET, PUT
/organizations/acme/search/node => GET, POST
/organizations/acme/policy_groups/g/policies/p => GET, PUT, DELETE
/organizations/acme/nowhere => none
";

// A path, and whether it is left out.
const LEFT_OUT: &str = "/users => true
/users/ann/keys => true
/authenticate_user => true
/authenticate_user/x => true
/organizations/acme/association_requests => true
/organizations/acme/association_requests/1 => true
/organizations/acme/principals/ann => true
/organizations/acme/required_recipe => true
/organizations/acme/users => false
/organizations/users => false
/organizations/acme/nodes/principals => false
/principals => false
/userss => false
/organizations => false
 => false
";

// What is told of a path.
#[derive(Clone, Copy)]
enum Telling {
    Route,
    Methods,
    LeftOut,
}

// The segments of a path; one in braces, as a pattern has them, stands for a name.
fn segments_of(alloc: Global, path: &str) -> Result<Vec<Text>, NoMemory> {
    let mut segments = Vec::new(alloc);
    for piece in path.split('/').skip(1) {
        segments.push(segment_of(alloc, piece)?)?;
    }
    Ok(segments)
}

fn segment_of(alloc: Global, piece: &str) -> Result<Text, NoMemory> {
    Text::from_str(alloc, if piece.starts_with('{') { "x" } else { piece })
}

// The patterns by which their own path isn't found.
fn unfound_patterns(alloc: Global, routes: &Routes, rows: &[Row]) -> Result<String, NoMemory> {
    let mut told = String::new(alloc);
    for row in rows {
        let segments = segments_of(alloc, row.pattern)?;
        let found = routes.find(alloc, &segments)?;
        if found.map(|found| found.pattern) != Some(row.pattern) {
            told.push_str(row.pattern)?;
        }
    }
    Ok(told)
}

// Adds a method to those that a path has.
fn add_method(told: &mut String, name: &str, has: bool) -> Result<(), NoMemory> {
    if !has {
        return Ok(());
    }
    if !told.is_empty() {
        told.push_str(", ")?;
    }
    told.push_str(name)?;
    Ok(())
}

fn methods_of(alloc: Global, row: &Row) -> Result<String, NoMemory> {
    let mut told = String::new(alloc);
    add_method(&mut told, "GET", row.has_method(Verb::Get))?;
    add_method(&mut told, "POST", row.has_method(Verb::Post))?;
    add_method(&mut told, "PUT", row.has_method(Verb::Put))?;
    add_method(&mut told, "DELETE", row.has_method(Verb::Delete))?;
    add_method(&mut told, "other", row.has_method(Verb::Other))?;
    Ok(told)
}

fn methods_told(alloc: Global, found: Option<Row>) -> Result<String, NoMemory> {
    match found {
        Some(row) => methods_of(alloc, &row),
        None => Ok(String::from_str(alloc, "none")?),
    }
}

fn route_told(alloc: Global, found: Option<Row>) -> Result<String, NoMemory> {
    match found.map(|row| row.route) {
        Some(Some(route)) => Ok(format!(in alloc; "{route:?}")?),
        Some(None) => Ok(String::from_str(alloc, "of no organisation")?),
        None => Ok(String::from_str(alloc, "none")?),
    }
}

fn told(
    alloc: Global,
    routes: &Routes,
    telling: Telling,
    segments: &[Text],
) -> Result<String, NoMemory> {
    match telling {
        Telling::Route => route_told(alloc, routes.find(alloc, segments)?),
        Telling::Methods => methods_told(alloc, routes.find(alloc, segments)?),
        Telling::LeftOut => Ok(format!(in alloc; "{}", is_left_out(segments))?),
    }
}

// A line, as the routes tell its path.
fn line_told(
    alloc: Global,
    routes: &Routes,
    telling: Telling,
    line: &str,
) -> Result<String, NoMemory> {
    let (path, _) = line.split_once(" => ").unwrap_or((line, ""));
    let segments = segments_of(alloc, path)?;
    let told = told(alloc, routes, telling, &segments)?;
    Ok(format!(in alloc; "{path} => {told}")?)
}

// The lines that the routes tell otherwise.
fn lines_otherwise(
    alloc: Global,
    routes: &Routes,
    telling: Telling,
    lines: &str,
) -> Result<String, NoMemory> {
    let mut otherwise = String::new(alloc);
    for line in lines.lines() {
        let told = line_told(alloc, routes, telling, line)?;
        if told.as_str() != line {
            otherwise.push_str(told.as_str())?;
            otherwise.push_str("\n")?;
        }
    }
    Ok(otherwise)
}

#[test]
fn paths_are_found_by_their_segments(rt: HostRuntime) -> Result<(), Fail> {
    let routes = Routes::take(rt.alloc())?;
    let otherwise = lines_otherwise(rt.alloc(), &routes, Telling::Route, PATHS)?;
    assert_eq!(rt; otherwise.as_str(), "");
    let unfound = unfound_patterns(rt.alloc(), &routes, &ROUTES)?;
    assert_eq!(rt; unfound.as_str(), "");
    Ok(())
}

#[test]
fn paths_have_their_methods(rt: HostRuntime) -> Result<(), Fail> {
    let routes = Routes::take(rt.alloc())?;
    let otherwise = lines_otherwise(rt.alloc(), &routes, Telling::Methods, METHODS)?;
    assert_eq!(rt; otherwise.as_str(), "");
    assert!(rt; Verb::Get.is_get() && Verb::Post.is_post());
    Ok(())
}

#[test]
fn left_out_paths_are_told_by_their_first_segments(rt: HostRuntime) -> Result<(), Fail> {
    let routes = Routes::take(rt.alloc())?;
    let otherwise = lines_otherwise(rt.alloc(), &routes, Telling::LeftOut, LEFT_OUT)?;
    assert_eq!(rt; otherwise.as_str(), "");
    Ok(())
}

//! The router: which row of the table of routes the segments of a target name.
ghost use Rattle.std.specs.Prelude.{◌≡◌, true, IfOk, string_bytes, []};
ghost use Rattle.std.specs.List.{list_all};
ghost use Rattle.std.specs.Option.{option_map};
ghost use Rattle.matchit.specs.Route.{parse_route};
ghost use Rattle.matchit.specs.Seek.{first};
ghost use Rattle.org_requests.specs.Patterns as patterns;
ghost use Rattle.org_requests.specs.Patterns.{joined};
ghost use Rattle.http_routes.specs.Router.{FindsRows, fits, fits_all, with_route, with_rows};
ghost use Rattle.org_requests.specs.Table as spec;

use doc_tree::{NoMemory, Text};
use matchit::{InsertError, Router};
use org_requests::{ROUTES, Row};
use std::alloc::Global;

// How many bytes a joined path mostly has at most.
const JOINED_LEN: usize = 128;

/// A router over the table of routes. One serves any number of requests.
#[derive(Drop)]
pub struct Routes {
    router: Router<Row>,
    ghost table: { FindsRows router },
}

impl Routes {
    /// A router with all routes of the table. `NoMemory` is its only error.
    pub fn take(alloc: Global) -> Result<Routes, NoMemory> {
        let router = router_of(alloc, &ROUTES)?;
        Ok(Routes { router })
    }

    /// The row of the table that these segments name. `None` where no route has them, as where one
    /// of them is empty or holds a slash. Where two routes fit, the one that has a fixed segment
    /// there is it. It takes the memory of one string.
    pub fn find(&self, alloc: Global, segments: &[Text]) -> Result<Option<Row>, NoMemory>
        ensures { IfOk result (λ found. option_map spec.target_of found ≡ spec.target_at segments.now) }
    {
        if !are_segments(segments) {
            return Ok(None);
        }
        let path = joined(alloc, segments)?;
        Ok(self.found(path.as_str()))
    }

    // The row of the table whose path a text spells.
    fn found(&self, path: &str) -> Option<Row>
        ensures { result ≡ option_map (λ route. route.value) (first self.now.router path.now) }
    {
        match self.router.at(path) {
            Ok(found) => Some(*found.value),
            Err(_) => None,
        }
    }
}

// A router with these rows in it.
#[tactic(auto, unfolding(crate::specs::Router::with_rows, crate::specs::Router::fits_all))]
fn router_of(alloc: Global, rows: &[Row]) -> Result<Router<Row>, NoMemory>
    requires { fits_all rows.now [] ≡ true }
    ensures { IfOk result (λ router. router ≡ with_rows rows.now []) }
{
    let mut router = Router::new(alloc);
    for row in rows {
        add(&mut router, *row)?;
    }
    Ok(router)
}

// Adds a route.
fn add(router: &mut Router<Row>, row: Row) -> Result<(), NoMemory>
    requires { fits (parse_route row.pattern.now) router.old ≡ true }
    ensures { IfOk result (λ _. router.new ≡ with_route (parse_route row.pattern.now) row router.old) }
{
    match router.insert(row.pattern, row) {
        Ok(()) => Ok(()),
        Err(InsertError::OutOfMemory) => Err(NoMemory),
        Err(_) => unreachable!(),
    }
}

// Whether each text is one segment of a path.
fn are_segments(texts: &[Text]) -> bool
    ensures { result ≡ list_all patterns.is_segment texts.now }
{
    texts.iter().all(|text| is_segment(text))
}

// Whether the text is one segment of a path.
fn is_segment(text: &Text) -> bool
    ensures { result ≡ patterns.is_segment text.now }
{
    let bytes = text.as_bytes();
    !bytes.is_empty() && !bytes.contains(&b'/')
}

// The segments with a slash before each.
fn joined(alloc: Global, segments: &[Text]) -> Result<String, NoMemory>
    ensures { IfOk result (λ path. string_bytes path ≡ joined segments.now) }
{
    let mut path = String::with_capacity(alloc, JOINED_LEN)?;
    for segment in segments {
        path.push('/')?;
        path.push_str(segment.as_str())?;
    }
    Ok(path)
}

//! What no clause says of demos: that the calls succeed, and that the definitions are those of the product. The values
//! expected were computed apart, from the rules.
use demo_requests::{Counts, Demo};
use doc_tree::json_text;
use org_requests::routes::{ObjectsRoute, Route, SearchRoute};
use org_requests::{Body, Parameters, Place, Request, Verb};
use std::alloc::Global;
use std::test::Fail;

// The first requests of a demo of size 1.
const OF_ONE: &str = r#"POST /organizations {"name":"o1"}
DELETE /organizations/o1/nodes/n43
POST /organizations/o1/nodes {"automatic":{"tag":"t0"},"name":"n10"}
GET /organizations/o1/search/node?q=tag:t2
POST /organizations/o1/nodes {"automatic":{"tag":"t2"},"name":"n18"}
GET /organizations/o1/nodes/n15
POST /organizations/o1/nodes {"automatic":{"tag":"t2"},"name":"n2"}
DELETE /organizations/o1/nodes/n9
DELETE /organizations/o1/nodes/n15
POST /organizations/o1/nodes {"automatic":{"tag":"t4"},"name":"n39"}
GET /organizations/o1/nodes/n33
PUT /organizations/o1/nodes/n20 {"automatic":{"tag":"t6"},"name":"n20"}
"#;

// The first requests of a demo of size 2.
const OF_TWO: &str = r#"POST /organizations {"name":"o1"}
POST /organizations {"name":"o2"}
POST /organizations/o2/nodes {"automatic":{"tag":"t4"},"name":"n12"}
GET /organizations/o2/search/node?q=tag:t6
PUT /organizations/o2/nodes/n36 {"automatic":{"tag":"t2"},"name":"n36"}
PUT /organizations/o2/nodes/n22 {"automatic":{"tag":"t6"},"name":"n22"}
DELETE /organizations/o2/nodes/n22
GET /organizations/o1/nodes/n29
DELETE /organizations/o1/nodes/n39
"#;

// The first turn of each size, behind the creations: the request that its first four draws make. Of size 1 these are
// 1_817_669_548, 2_187_888_307, 2_784_682_393 and 1_644_385_741; of size 2 they are 3_299_435_481, 3_938_983_765,
// 2_969_520_912 and 1_565_561_008; of size 200 they are 336_346_850, 2_763_533_474, 912_841_999 and 3_138_133_171.
const TURN_OF_ONE: &str = "DELETE /organizations/o1/nodes/n43";

const TURN_OF_TWO: &str = r#"POST /organizations/o2/nodes {"automatic":{"tag":"t4"},"name":"n12"}"#;

const TURN_OF_MANY: &str =
    r#"PUT /organizations/o51/nodes/n49 {"automatic":{"tag":"t5"},"name":"n49"}"#;

// The last request of a demo of size 200.
const LAST_OF_MANY: &str =
    r#"POST /organizations/o87/nodes {"automatic":{"tag":"t6"},"name":"n46"}"#;

fn method(verb: Verb) -> &'static str {
    match verb {
        Verb::Get => "GET",
        Verb::Post => "POST",
        Verb::Put => "PUT",
        Verb::Delete => "DELETE",
        Verb::Other => "other",
    }
}

fn path(alloc: Global, place: &Place) -> Result<String, Fail> {
    let Place::Of { org, route } = place else {
        return Ok(format!(in alloc; "no organisation")?);
    };
    Ok(match route {
        Route::Organisation(_) => format!(in alloc; "/organizations")?,
        Route::Objects(_, ObjectsRoute::All) => format!(in alloc; "/organizations/{org}/nodes")?,
        Route::Objects(_, ObjectsRoute::One(name)) => {
            format!(in alloc; "/organizations/{org}/nodes/{name}")?
        }
        Route::Search(SearchRoute::Index(index)) => {
            format!(in alloc; "/organizations/{org}/search/{index}")?
        }
        _ => format!(in alloc; "another route")?,
    })
}

fn query(alloc: Global, parameters: &Parameters) -> Result<String, Fail> {
    let mut query = String::new(alloc);
    for parameter in parameters.as_slice() {
        query.push('?')?;
        query.push_str(parameter.name.as_str())?;
        query.push('=')?;
        query.push_str(parameter.value.as_str())?;
    }
    Ok(query)
}

fn body(alloc: Global, body: &Body) -> Result<String, Fail> {
    let Body::Doc(tree) = body else {
        return Ok(String::new(alloc));
    };
    let text = json_text(alloc, tree)?;
    let text = String::from_utf8_lossy(alloc, text.as_slice())?;
    Ok(format!(in alloc; " {text}")?)
}

// A request as the line and the body of its message.
fn spelled(alloc: Global, request: &Request) -> Result<String, Fail> {
    let method = method(request.verb);
    let path = path(alloc, &request.place)?;
    let query = query(alloc, &request.parameters)?;
    let body = body(alloc, &request.body)?;
    Ok(format!(in alloc; "{method} {path}{query}{body}")?)
}

// The next request of a demo, spelled.
fn next_of(alloc: Global, demo: &mut Demo) -> Result<String, Fail> {
    match demo.next(alloc)? {
        Some(request) => spelled(alloc, &request),
        None => Ok(format!(in alloc; "none")?),
    }
}

// Passes over the next requests of a demo, so many.
fn pass_over(alloc: Global, demo: &mut Demo, count: u64) -> Result<(), Fail> {
    for _ in 0..count {
        drop(demo.next(alloc)?);
    }
    Ok(())
}

#[test]
fn a_size_gives_its_draws(rt: HostRuntime) -> Result<(), Fail> {
    for (size, expected) in [(1, TURN_OF_ONE), (2, TURN_OF_TWO), (200, TURN_OF_MANY)] {
        let mut demo = Demo::of(size);
        pass_over(rt.alloc(), &mut demo, size)?;
        let told = next_of(rt.alloc(), &mut demo)?;
        assert_eq!(rt; told.as_str(), expected);
    }
    Ok(())
}

#[test]
fn a_demo_begins_with_its_organisations(rt: HostRuntime) -> Result<(), Fail> {
    for (size, lines) in [(1, OF_ONE), (2, OF_TWO)] {
        let mut demo = Demo::of(size);
        for expected in lines.lines() {
            let told = next_of(rt.alloc(), &mut demo)?;
            assert_eq!(rt; told.as_str(), expected);
        }
    }
    Ok(())
}

#[test]
fn a_demo_ends_behind_a_hundred_turns_for_each(rt: HostRuntime) -> Result<(), Fail> {
    let mut demo = Demo::of(200);
    pass_over(rt.alloc(), &mut demo, 20_199)?;
    let last = next_of(rt.alloc(), &mut demo)?;
    assert_eq!(rt; last.as_str(), LAST_OF_MANY);
    assert!(rt; demo.next(rt.alloc())?.is_none());
    Ok(())
}

#[test]
fn counts_are_told_in_five_lines(rt: HostRuntime) -> Result<(), Fail> {
    let mut counts = Counts::none();
    counts.count(201, 110);
    counts.count(200, 90);
    counts.count(404, 7);
    counts.count(200, 1);
    counts.count(500, 0);
    let lines = counts.lines(rt.alloc())?;
    let expected = "requests 5\ncreated 1\nok 2\nrefused 2\nbytes 208\n";
    assert_eq!(rt; lines.as_str(), expected);
    Ok(())
}

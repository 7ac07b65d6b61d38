//! The parts of a head: its target with the parameters, and what its headers say.
use doc_tree::{NoMemory, Text, Texts};
use http_routes::{HeaderValue, api_of, caller_of, lists_close, parameters_of, segments_of};
use org_requests::Parameters;
use std::alloc::Global;
use std::test::Fail;

#[test]
fn a_value_lists_options(rt: HostRuntime) {
    let cases: [(&[u8], bool); 9] = [
        (b"close", true),
        (b"CLOSE", true),
        (b"keep-alive, Close", true),
        (b"close,keep-alive", true),
        (b" x ,\t close \t, y", true),
        (b"", false),
        (b"keep-alive", false),
        (b"closed, not-close", false),
        (b"close;q=1, clo se", false),
    ];
    for (value, expected) in cases {
        assert_eq!(rt; lists_close(value), expected, "at {value:?}");
    }
}

fn are(segments: &Option<Texts>, expected: Option<&[&str]>) -> bool {
    match (segments, expected) {
        (Some(segments), Some(expected)) => {
            segments.len() == expected.len()
                && segments
                    .as_slice()
                    .iter()
                    .zip(expected)
                    .all(|(segment, text)| segment.as_str() == *text)
        }
        (None, None) => true,
        _ => false,
    }
}

#[test]
fn a_target_is_cut_and_decoded(rt: HostRuntime) -> Result<(), Fail> {
    let cases: [(&[u8], Option<&[&str]>); 12] = [
        (b"/organizations", Some(&["organizations"])),
        (
            b"/organizations/acme/nodes?q=a/b?c",
            Some(&["organizations", "acme", "nodes"]),
        ),
        (
            b"/organizations/acme/%6eodes",
            Some(&["organizations", "acme", "nodes"]),
        ),
        (b"/%C3%A9", Some(&["\u{e9}"])),
        (b"/a%3Fb", Some(&["a?b"])),
        (b"/a%2Fb", None),
        (b"//", None),
        (b"/nodes/", None),
        (b"/", None),
        (b"organizations", None),
        (b"", None),
        (b"/%ff", None),
    ];
    for (target, expected) in cases {
        assert!(rt;
            are(&segments_of(rt.alloc(), target)?, expected),
            "at {target:?}"
        );
    }
    Ok(())
}

fn is(caller: &Option<Text>, expected: Option<&str>) -> bool {
    match (caller, expected) {
        (Some(name), Some(text)) => name.as_str() == text,
        (None, None) => true,
        _ => false,
    }
}

#[test]
fn a_caller_has_one_name(rt: HostRuntime) -> Result<(), Fail> {
    let cases: [(HeaderValue<'static>, Option<&str>); 5] = [
        (HeaderValue::One(b"pivotal"), Some("pivotal")),
        (HeaderValue::One(b""), None),
        (HeaderValue::One(b"\xff"), None),
        (HeaderValue::Missing, None),
        (HeaderValue::Several, None),
    ];
    for (value, expected) in cases {
        assert!(rt;
            is(&caller_of(rt.alloc(), value)?, expected),
            "not {expected:?}"
        );
    }
    Ok(())
}

#[test]
fn a_version_is_0_1_or_2(rt: HostRuntime) {
    let cases = [
        (HeaderValue::Missing, Some(0)),
        (HeaderValue::One(b"0"), Some(0)),
        (HeaderValue::One(b"1"), Some(1)),
        (HeaderValue::One(b"2"), Some(2)),
        (HeaderValue::One(b"3"), None),
        (HeaderValue::One(b"01"), None),
        (HeaderValue::One(b""), None),
        (HeaderValue::Several, None),
    ];
    for (value, expected) in cases {
        assert_eq!(rt; api_of(value), expected);
    }
}

// Adds the parameters in words, each as `name=value;`.
fn add_parameters(told: &mut String, parameters: &Parameters) -> Result<(), NoMemory> {
    for parameter in parameters.as_slice() {
        told.push_str(parameter.name.as_str())?;
        told.push_str("=")?;
        told.push_str(parameter.value.as_str())?;
        told.push_str(";")?;
    }
    Ok(())
}

// What a row asks.
fn asked(row: &str) -> &str {
    match row.split_once(" -> ") {
        Some((asked, _)) => asked,
        None => row,
    }
}

// A target, and its parameters in words.
const QUERIES: &str = "/nodes -> \n\
    /nodes? -> \n\
    /nodes?q=a%3Ab&start=5 -> q=a:b;start=5;\n\
    /nodes?q=a+b&q=c -> q=a b;q=c;\n\
    /nodes?q&&=v&a=b=c -> q=;=v;a=b=c;\n\
    /nodes?a?b=c -> a?b=c;\n\
    /nodes?%C3%A9=%ff -> \u{e9}=\u{fffd};\n";

fn add_row(alloc: Global, told: &mut String, target: &str) -> Result<(), NoMemory> {
    write!(told, "{target} -> ")?;
    let parameters = parameters_of(alloc, target.as_bytes())?;
    add_parameters(told, &parameters)
}

fn add_rows(alloc: Global, told: &mut String) -> Result<(), NoMemory> {
    for row in QUERIES.lines() {
        add_row(alloc, told, asked(row))?;
        told.push_str("\n")?;
    }
    Ok(())
}

#[test]
fn a_query_has_parameters(rt: HostRuntime) -> Result<(), Fail> {
    let mut told = String::new(rt.alloc());
    add_rows(rt.alloc(), &mut told)?;
    assert_eq!(rt; told.as_str(), QUERIES);
    Ok(())
}

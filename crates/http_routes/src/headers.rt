//! What the headers of a request say: the caller's name, and the version of the API.
ghost use Rattle.http_routes.specs.Headers.{Stands, api_in, caller_in, caller_named, version_named};
ghost use Rattle.std.specs.Prelude.{◌≡◌, ℕ, List, IfOk};

use doc_tree::{NoMemory, Text};
use std::alloc::Global;
use std::str::from_utf8;

/// What a message has of one header. Contracts speak of the header's values, in their order: one
/// that stands several times is told by that alone.
#[derive(Clone, Copy)]
pub enum HeaderValue<'a> {
    /// No such header.
    Missing,
    /// The header once, with this value.
    One(&'a [u8]),
    /// The header twice or more often.
    Several,
}

/// The caller's name. `None` exactly where the header doesn't stand once, or where its value is
/// empty or isn't UTF-8.
pub fn caller_of(alloc: Global, value: HeaderValue<'_>) -> Result<Option<Text>, NoMemory>
    ensures { (values : List (List ℕ)) → Stands value.entry values
        → IfOk result (λ caller. caller ≡ caller_in values) }
{
    match value {
        HeaderValue::One(name) => caller_named(alloc, name),
        HeaderValue::Missing | HeaderValue::Several => Ok(None),
    }
}

#[tactic(auto, using(crate::proofs::HeaderLemmas::callers))]
fn caller_named(alloc: Global, name: &[u8]) -> Result<Option<Text>, NoMemory>
    ensures { IfOk result (λ caller. caller ≡ caller_named name.now) }
{
    let Ok(text) = from_utf8(name) else {
        return Ok(None);
    };
    if text.is_empty() {
        return Ok(None);
    }
    Ok(Some(Text::from_str(alloc, text)?))
}

/// The version of the API: 0 without the header. `None` exactly where the header stands more than
/// once, or has another value than `0`, `1` and `2`.
pub fn api_of(value: HeaderValue<'_>) -> Option<u8>
    ensures { (values : List (List ℕ)) → Stands value.entry values → result ≡ api_in values }
{
    match value {
        HeaderValue::Missing => Some(0),
        HeaderValue::One(version) => version_named(version),
        HeaderValue::Several => None,
    }
}

fn version_named(version: &[u8]) -> Option<u8>
    ensures { result ≡ version_named version.now }
{
    match version {
        b"0" => Some(0),
        b"1" => Some(1),
        b"2" => Some(2),
        _ => None,
    }
}

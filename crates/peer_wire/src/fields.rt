//! The headers of a reply that are looked at.

ghost use Rattle.std.specs.Prelude.{◌≡◌, ℕ, ◌++◌, ◌∷◌, [], List, All, codes, map, length};
ghost use Rattle.std.specs.Str.{str_eq_ignore_ascii_case};
ghost use Rattle.httparse.specs.Spans.{IsHeaderWithin, header_bytes};
ghost use Rattle.http_routes.specs.Headers.{Stands};
ghost use Rattle.http_wire.specs.Fields.{values_named};
ghost use Rattle.peer_wire.specs.Fields as spec;

use http_routes::HeaderValue;
use http_wire::{read_length, value_named};
use httparse::spans::HeaderSpan;

/// How many bytes the body has, or nothing where the head doesn't say it by one length.
pub(crate) fn body_length(held: &[u8], headers: &[HeaderSpan]) -> Option<u64>
    requires { All (IsHeaderWithin (length held.now)) headers.now }
    ensures { result ≡ spec.body_length (map (header_bytes held.now) headers.now) }
{
    match value_named(held, headers, b"transfer-encoding") {
        HeaderValue::Missing => only_length(value_named(held, headers, b"content-length")),
        _ => None,
    }
}

// The length that the values of Content-Length say.
fn only_length(named: HeaderValue<'_>) -> Option<u64>
    ensures { (values : List (List ℕ)) → Stands named.entry values → result ≡ spec.stated_length values }
{
    match named {
        HeaderValue::One(value) => read_length(value),
        HeaderValue::Missing | HeaderValue::Several => None,
    }
}

/// Whether a `Content-Type` says that the body is raw bytes.
pub(crate) fn is_octets(held: &[u8], headers: &[HeaderSpan]) -> bool
    requires { All (IsHeaderWithin (length held.now)) headers.now }
    ensures { result ≡ spec.is_octets (map (header_bytes held.now) headers.now) }
{
    let mut octets = false;
    for header in headers {
        octets = or_header(octets, held, *header);
    }
    octets
}

// Whether headers that say this, and one more behind them, say that the body is raw bytes.
#[tactic(auto, using(crate::proofs::HeaderLemmas::octets_more))]
fn or_header(octets: bool, held: &[u8], header: HeaderSpan) -> bool
    requires { IsHeaderWithin (length held.now) header }
    ensures { (values : List (List ℕ)) → octets ≡ spec.lists_octets values
        → result ≡ spec.lists_octets (values ++ values_named (codes "content-type") (header_bytes held.now header ∷ [])) }
{
    if !has_name(header.name.of(held), b"content-type") {
        return octets;
    }
    octets || says_octets(header.value.of(held))
}

fn has_name(given: &[u8], name: &[u8]) -> bool
    ensures { result ≡ str_eq_ignore_ascii_case given.now name.now }
{
    given.eq_ignore_ascii_case(name)
}

#[tactic(auto, unfolding(crate::specs::Fields::is_octet_stream))]
fn says_octets(value: &[u8]) -> bool
    ensures { result ≡ spec.is_octet_stream value.now }
{
    value == b"application/octet-stream".as_slice()
}

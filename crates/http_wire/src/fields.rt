//! The headers of a message that are looked at.
ghost use Rattle.std.specs.Prelude.{◌≡◌, ℕ, ◌+◌, ◌*◌, ◌≤◌, ◌&&◌, ◌++◌, Some, None, if◌then◌else◌, nat_le, List, [], ◌∷◌, All, codes, map, length};
ghost use Rattle.std.specs.List.{list_all};
ghost use Rattle.std.specs.Char.{is_ascii_digit, digit_value};
ghost use Rattle.std.specs.Str.{str_eq_ignore_ascii_case};
ghost use Rattle.std.specs.Str.Parse.{digits_value};
ghost use Rattle.httparse.specs.Spans.{IsHeaderWithin, header_bytes};
ghost use Rattle.http_wire.specs.Fields as spec;
ghost use Rattle.http_routes.specs.Connections as connections;
ghost use Rattle.http_routes.specs.Headers.{Stands};

use http_routes::{HeaderValue, lists_close};
use httparse::spans::HeaderSpan;

/// The largest body that a message may have, in bytes.
const LARGEST_BODY: u64 = 67_108_864;

/// The most digits that a length may have.
const MOST_DIGITS: usize = 20;

/// What the headers of this name say.
pub fn value_named<'b>(held: &'b [u8], headers: &[HeaderSpan], name: &[u8]) -> HeaderValue<'b>
    requires { All (IsHeaderWithin (length held.now)) headers.now }
    ensures { Stands result (spec.values_named name.now (map (header_bytes held.now) headers.now)) }
{
    let mut named = HeaderValue::Missing;
    for header in headers {
        named = and_header(named, held, *header, name);
    }
    named
}

// What the headers say with one more behind them.
fn and_header<'b>(
    named: HeaderValue<'b>,
    held: &'b [u8],
    header: HeaderSpan,
    name: &[u8],
) -> HeaderValue<'b>
    requires { IsHeaderWithin (length held.now) header }
    ensures { (values : List (List ℕ)) → Stands named.entry values → Stands result (values ++ spec.values_named name.now (header_bytes held.now header ∷ [])) }
{
    if !same_name(header.name.of(held), name) {
        return named;
    }
    match named {
        HeaderValue::Missing => HeaderValue::One(header.value.of(held)),
        _ => HeaderValue::Several,
    }
}

fn same_name(given: &[u8], name: &[u8]) -> bool
    ensures { result ≡ str_eq_ignore_ascii_case given.now name.now }
{
    given.eq_ignore_ascii_case(name)
}

/// Whether a `Connection` header lists the option `close`.
#[tactic(auto, unfolding(http_routes::specs::Connections::closes))]
pub(crate) fn closes(held: &[u8], headers: &[HeaderSpan]) -> bool
    requires { All (IsHeaderWithin (length held.now)) headers.now }
    ensures { result ≡ connections.closes (spec.values_named (codes "connection") (map (header_bytes held.now) headers.now)) }
{
    let mut closed = false;
    for header in headers {
        closed = or_header(closed, held, *header);
    }
    closed
}

// Whether headers that say this, and one more behind them, list the option.
#[tactic(auto, using(crate::proofs::ConnectionLemmas::closes_more))]
fn or_header(closed: bool, held: &[u8], header: HeaderSpan) -> bool
    requires { IsHeaderWithin (length held.now) header }
    ensures { (values : List (List ℕ)) → closed ≡ connections.closes values
        → result ≡ connections.closes (values ++ spec.values_named (codes "connection") (header_bytes held.now header ∷ [])) }
{
    if !same_name(header.name.of(held), b"connection") {
        return closed;
    }
    closed || lists_close(header.value.of(held))
}

/// How many bytes the body has, or nothing where the head doesn't say it by one length.
pub(crate) fn body_length(held: &[u8], headers: &[HeaderSpan]) -> Option<u64>
    requires { All (IsHeaderWithin (length held.now)) headers.now }
    ensures { result ≡ spec.body_length (map (header_bytes held.now) headers.now) }
{
    match value_named(held, headers, b"transfer-encoding") {
        HeaderValue::Missing => only_length(value_named(held, headers, b"content-length")),
        _ => None,
    }
}

// The length that the values of Content-Length say.
fn only_length(named: HeaderValue<'_>) -> Option<u64>
    ensures { (values : List (List ℕ)) → Stands named.entry values → result ≡ spec.one_length values }
{
    match named {
        HeaderValue::Missing => Some(0),
        HeaderValue::One(value) => read_length(value),
        HeaderValue::Several => None,
    }
}

/// The length of a body that the value of a header says: 1 to 20 decimal digits of a number up to
/// 67,108,864 (RFC 9112, section 6). Any other value says none.
pub fn read_length(value: &[u8]) -> Option<u64>
    ensures { result ≡ spec.read_length value.now }
{
    if value.is_empty() || value.len() > MOST_DIGITS {
        return None;
    }
    digits(value)
}

// The number that decimal digits write, where it is no larger than a body may be.
fn digits(value: &[u8]) -> Option<u64>
    ensures { result ≡ (if list_all is_ascii_digit value.now && nat_le (digits_value 10 value.now) 67108864 then Some (digits_value 10 value.now) else None) }
{
    let mut number = 0;
    for byte in value {
        number = and_digit(number, *byte)?;
    }
    Some(number)
}

// The number with one more digit behind it.
fn and_digit(number: u64, byte: u8) -> Option<u64>
    requires { number ≤ 67108864 }
    ensures { result ≡ (if is_ascii_digit byte && nat_le (number * 10 + digit_value byte) 67108864 then Some (number * 10 + digit_value byte) else None) }
{
    if !byte.is_ascii_digit() {
        return None;
    }
    let next = number * 10 + u64::from(byte - b'0');
    if next > LARGEST_BODY {
        None
    } else {
        Some(next)
    }
}

//! Plain scalars: which texts are plain, and what they stand for in the core schema.
ghost use Rattle.std.specs.Char.{digit_value};
ghost use Rattle.std.specs.Prelude.{◌≡◌, ◌≤◌, ◌^◌, IfOk, Some, None, if◌then◌else◌, nat_lt, true};
ghost use Rattle.std.specs.Str.Parse.{digits_value};
ghost use Rattle.yaml_subset.specs.Scalar.{all_digits, are_digits, based_meaning, begins_digit, behind_digits, decimal_meaning, doc_with, ends_fraction, ends_number, is_digit, is_exponent, is_false, is_float, is_infinity, is_minus, is_not_a_number, is_null, is_plain, is_point_digits, is_true, is_unsigned_float, meaning, number_of, plain_doc, unsigned, whole_meaning};
ghost use Rattle.yaml_subset.specs.declared.scalar.Means.TheVariants as variant;

use crate::document::Document;
use crate::signs::{colon_at, is_apart, is_indicator};
use crate::texts::text_from;
use doc_tree::{NoMemory, Number};
use std::alloc::Global;

// The greatest whole number.
const GREATEST: u128 = 0xFFFF_FFFF_FFFF_FFFF;

/// What a plain scalar stands for.
#[derive(Clone, Copy, Drop)]
pub(crate) enum Means {
    /// Null.
    Null,
    /// A truth value.
    Truth(bool),
    /// A whole number.
    Whole(Number),
    /// A number that isn't whole or is out of range.
    Refused,
    /// Its own text.
    Words,
}

/// Whether a text may be a plain scalar.
pub(crate) fn is_plain(text: &[u8]) -> bool
    ensures { result ≡ is_plain text.now }
{
    match text {
        [] => false,
        [first, after @ ..] => {
            if is_indicator(*first) || (matches!(*first, b'-' | b'?' | b':') && is_apart(after)) {
                false
            } else {
                colon_at(text).is_none()
            }
        }
    }
}

fn is_digit(byte: u8) -> bool
    ensures { result ≡ is_digit byte }
{
    byte.is_ascii_digit()
}

fn digit_below(byte: u8, radix: u8) -> bool
    requires bounds { (2 ≤ radix) × (radix ≤ 36) }
    ensures { result ≡ nat_lt (digit_value byte) radix }
{
    char::from(byte).to_digit(u32::from(radix)).is_some()
}

fn all_digits(radix: u8, text: &[u8]) -> bool
    requires bounds { (2 ≤ radix) × (radix ≤ 36) }
    ensures { result ≡ all_digits radix text.now }
{
    for byte in text {
        if !digit_below(*byte, radix) {
            return false;
        }
    }
    true
}

fn are_digits(radix: u8, text: &[u8]) -> bool
    requires bounds { (2 ≤ radix) × (radix ≤ 36) }
    ensures { result ≡ are_digits radix text.now }
{
    !text.is_empty() && all_digits(radix, text)
}

fn behind_digits(text: &[u8]) -> &[u8]
    ensures { result.now ≡ behind_digits text.now }
{
    let mut rest = text;
    while let [byte, after @ ..] = rest {
        if !is_digit(*byte) {
            return rest;
        }
        rest = after;
    }
    rest
}

fn begins_digit(text: &[u8]) -> bool
    ensures { result ≡ begins_digit text.now }
{
    match text {
        [] => false,
        [byte, ..] => is_digit(*byte),
    }
}

fn unsigned(text: &[u8]) -> &[u8]
    ensures { result.now ≡ unsigned text.now }
{
    match text {
        [b'+' | b'-', after @ ..] => after,
        _ => text,
    }
}

fn is_minus(text: &[u8]) -> bool
    ensures { result ≡ is_minus text.now }
{
    match text {
        [] => false,
        [first, ..] => *first == b'-',
    }
}

fn is_exponent(text: &[u8]) -> bool
    ensures { result ≡ is_exponent text.now }
{
    match text {
        [] => false,
        [first, after @ ..] => matches!(*first, b'e' | b'E') && are_digits(10, unsigned(after)),
    }
}

fn ends_number(text: &[u8]) -> bool
    ensures { result ≡ ends_number text.now }
{
    match text {
        [] => true,
        _ => is_exponent(text),
    }
}

fn ends_fraction(text: &[u8]) -> bool
    ensures { result ≡ ends_fraction text.now }
{
    match text {
        [] => false,
        [b'.', after @ ..] => ends_number(behind_digits(after)),
        _ => is_exponent(text),
    }
}

fn is_point_digits(text: &[u8]) -> bool
    ensures { result ≡ is_point_digits text.now }
{
    match text {
        [b'.', after @ ..] => begins_digit(after) && ends_number(behind_digits(after)),
        _ => false,
    }
}

fn is_unsigned_float(text: &[u8]) -> bool
    ensures { result ≡ is_unsigned_float text.now }
{
    if begins_digit(text) {
        ends_fraction(behind_digits(text))
    } else {
        is_point_digits(text) || is_infinity(text)
    }
}

fn is_infinity(text: &[u8]) -> bool
    ensures { result ≡ is_infinity text.now }
{
    text == b".inf".as_slice() || text == b".Inf".as_slice() || text == b".INF".as_slice()
}

fn is_not_a_number(text: &[u8]) -> bool
    ensures { result ≡ is_not_a_number text.now }
{
    text == b".nan".as_slice() || text == b".NaN".as_slice() || text == b".NAN".as_slice()
}

fn is_float(text: &[u8]) -> bool
    ensures { result ≡ is_float text.now }
{
    is_unsigned_float(unsigned(text)) || is_not_a_number(text)
}

/// Whether a text is one of the words of null.
pub(crate) fn is_null(text: &[u8]) -> bool
    ensures { result ≡ is_null text.now }
{
    text == b"null".as_slice()
        || text == b"Null".as_slice()
        || text == b"NULL".as_slice()
        || text == b"~".as_slice()
}

/// Whether a text is one of the words of true.
pub(crate) fn is_true(text: &[u8]) -> bool
    ensures { result ≡ is_true text.now }
{
    text == b"true".as_slice() || text == b"True".as_slice() || text == b"TRUE".as_slice()
}

/// Whether a text is one of the words of false.
pub(crate) fn is_false(text: &[u8]) -> bool
    ensures { result ≡ is_false text.now }
{
    text == b"false".as_slice() || text == b"False".as_slice() || text == b"FALSE".as_slice()
}

// The number that digits write, or `None` exactly from 2^64 on.
#[tactic(auto, using(crate::proofs::ScalarLemmas::after_ge))]
fn digits_value(radix: u8, text: &[u8]) -> Option<u64>
    requires bounds { (2 ≤ radix) × (radix ≤ 16) }
    requires digits { all_digits radix text.now ≡ true }
    ensures { result ≡ (if nat_lt (digits_value radix text.now) (2 ^ 64) then Some (digits_value radix text.now) else None) }
{
    let mut value = 0u128;
    for byte in text {
        if value > GREATEST {
            return None;
        }
        let digit = char::from(*byte).to_digit(u32::from(radix)).unwrap_or(0);
        value = value * u128::from(radix) + u128::from(digit);
    }
    if value > GREATEST {
        return None;
    }
    Some(value as u64)
}

// The whole number of this value, where it is within the bounds.
fn signed(minus: bool, value: u64) -> Means
    ensures { result ≡ number_of minus value }
{
    if minus {
        match Number::of(-i128::from(value)) {
            Some(number) => Means::Whole(number),
            None => Means::Refused,
        }
    } else {
        Means::Whole(Number::from(value))
    }
}

fn digits_meaning(minus: bool, radix: u8, text: &[u8]) -> Means
    requires bounds { (2 ≤ radix) × (radix ≤ 16) }
    requires digits { all_digits radix text.now ≡ true }
    ensures { result ≡ number_of minus (digits_value radix text.now) }
{
    match digits_value(radix, text) {
        Some(value) => signed(minus, value),
        None => Means::Refused,
    }
}

fn decimal_meaning(minus: bool, text: &[u8]) -> Means
    ensures { result ≡ decimal_meaning minus text.now }
{
    match text {
        [] => Means::Words,
        [b'0', _, ..] => Means::Words,
        _ => {
            if are_digits(10, text) {
                digits_meaning(minus, 10, text)
            } else {
                Means::Words
            }
        }
    }
}

fn based_meaning(radix: u8, text: &[u8]) -> Means
    requires bounds { (2 ≤ radix) × (radix ≤ 16) }
    ensures { result ≡ based_meaning radix text.now }
{
    if are_digits(radix, text) {
        digits_meaning(false, radix, text)
    } else {
        Means::Words
    }
}

fn whole_meaning(text: &[u8]) -> Means
    ensures { result ≡ whole_meaning text.now }
{
    match text {
        [] => Means::Words,
        [_] => decimal_meaning(is_minus(text), unsigned(text)),
        [first, second, digits @ ..] => {
            if *first != b'0' {
                return decimal_meaning(is_minus(text), unsigned(text));
            }
            if *second == b'o' {
                return based_meaning(8, digits);
            }
            if *second == b'x' {
                return based_meaning(16, digits);
            }
            decimal_meaning(is_minus(text), unsigned(text))
        }
    }
}

/// What a plain scalar stands for.
pub(crate) fn meaning(text: &[u8]) -> Means
    ensures { result ≡ meaning text.now }
{
    if is_null(text) {
        Means::Null
    } else if is_true(text) {
        Means::Truth(true)
    } else if is_false(text) {
        Means::Truth(false)
    } else if is_float(text) {
        Means::Refused
    } else {
        whole_meaning(text)
    }
}

fn doc_with(alloc: Global, means: Means, text: &[u8]) -> Result<Option<Document>, NoMemory>
    ensures { IfOk result (λ d. d ≡ doc_with means text.now) }
{
    match means {
        Means::Null => Ok(Some(Document::null())),
        Means::Truth(value) => Ok(Some(Document::truth(value))),
        Means::Whole(number) => Ok(Some(Document::whole(number))),
        Means::Refused => Ok(None),
        Means::Words => words_of(alloc, text),
    }
}

fn words_of(alloc: Global, text: &[u8]) -> Result<Option<Document>, NoMemory>
    ensures { IfOk result (λ d. d ≡ doc_with variant.Words text.now) }
{
    match text_from(alloc, text)? {
        Some(text) => Ok(Some(Document::words(text))),
        None => Ok(None),
    }
}

/// The document of a plain scalar, or `None` exactly where it is none or its number is refused.
pub(crate) fn plain_doc(alloc: Global, text: &[u8]) -> Result<Option<Document>, NoMemory>
    ensures { IfOk result (λ d. d ≡ plain_doc text.now) }
{
    if is_plain(text) {
        doc_with(alloc, meaning(text), text)
    } else {
        Ok(None)
    }
}

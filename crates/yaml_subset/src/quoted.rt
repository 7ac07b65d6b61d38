//! Quoted scalars: what stands between the quotes.
ghost use Rattle.std.specs.Prelude.{◌≡◌, ◌<◌, ◌≤◌, ◌&&◌, ◌++◌, ◌+◌, ◌*◌, IfOk, IfSome, OnOk, Some, None, if◌then◌else◌, length, nat_lt};
ghost use Rattle.std.specs.Char.{digit_value, encode_utf8};
ghost use Rattle.yaml_subset.specs.Quoted.{begins, escape, hex_value, is_hex, is_surrogate, quoted, quoted_text, simple, standing, unicode};
ghost use Rattle.yaml_subset.specs.declared.quoted.Stands.TheVariants as variant;

use crate::texts::text_of;
use doc_tree::{Listed, NoMemory, Text};
use std::alloc::Global;

/// What a byte between quotes stands for.
#[derive(Clone, Copy, Drop)]
pub(crate) enum Stands {
    /// The closing quote.
    Closing,
    /// Itself.
    Plain(u8),
    /// This byte, with one byte behind it.
    Escaped(u8),
    /// This character, with five bytes behind it.
    Unicode(char),
    /// Nothing: no quoted scalar has it.
    Wrong,
}

/// Whether a text begins with this byte.
pub(crate) fn begins(byte: u8, text: &[u8]) -> bool
    ensures { result ≡ begins byte text.now }
{
    match text {
        [] => false,
        [first, ..] => *first == byte,
    }
}

fn hex_digit(byte: u8) -> Option<u32>
    ensures { result ≡ (if nat_lt (digit_value byte) 16 then Some (digit_value byte) else None) }
{
    char::from(byte).to_digit(16)
}

fn unicode(text: &[u8]) -> Stands
    ensures { result ≡ unicode text.now }
{
    match text {
        [a, b, c, d, ..] => match hex_value(*a, *b, *c, *d) {
            Some(code) => character(code),
            None => Stands::Wrong,
        },
        _ => Stands::Wrong,
    }
}

fn hex_value(a: u8, b: u8, c: u8, d: u8) -> Option<u32>
    ensures value { result ≡ (if is_hex a && (is_hex b && (is_hex c && is_hex d)) then Some (hex_value a b c d) else None) }
    ensures small { IfSome result (λ code. code < 65536) }
{
    let high = hex_pair(a, b)?;
    let low = hex_pair(c, d)?;
    Some(high * 256 + low)
}

// The number of two hexadecimal digits.
fn hex_pair(a: u8, b: u8) -> Option<u32>
    ensures value { result ≡ (if is_hex a && is_hex b then Some (digit_value a * 16 + digit_value b) else None) }
    ensures small { IfSome result (λ code. code < 256) }
{
    let high = hex_digit(a)?;
    let low = hex_digit(b)?;
    Some(high * 16 + low)
}

fn character(code: u32) -> Stands
    requires { code < 65536 }
    ensures { result ≡ (if is_surrogate code then variant.Wrong else variant.Unicode code) }
{
    match char::from_u32(code) {
        Some(character) => Stands::Unicode(character),
        None => Stands::Wrong,
    }
}

fn simple(byte: u8) -> Stands
    ensures { result ≡ simple byte }
{
    match byte {
        b'\\' | b'"' | b'/' => Stands::Escaped(byte),
        b'n' => Stands::Escaped(b'\n'),
        b'r' => Stands::Escaped(b'\r'),
        b't' => Stands::Escaped(b'\t'),
        b'0' => Stands::Escaped(0),
        _ => Stands::Wrong,
    }
}

fn escape(text: &[u8]) -> Stands
    ensures { result ≡ escape text.now }
{
    match text {
        [] => Stands::Wrong,
        [b'u', after @ ..] => unicode(after),
        [byte, ..] => simple(*byte),
    }
}

fn standing(mark: u8, byte: u8, after: &[u8]) -> Stands
    ensures { result ≡ standing mark byte after.now }
{
    if mark == b'"' {
        match byte {
            b'"' => Stands::Closing,
            b'\\' => escape(after),
            _ => Stands::Plain(byte),
        }
    } else if byte == b'\'' {
        if begins(b'\'', after) {
            Stands::Escaped(byte)
        } else {
            Stands::Closing
        }
    } else {
        Stands::Plain(byte)
    }
}

// The bytes between quotes of this mark, and how many bytes they take with the closing one.
fn quoted(alloc: Global, mark: u8, inner: &[u8]) -> Result<Option<(Listed<u8>, usize)>, NoMemory>
    ensures found { IfOk result (λ found. found ≡ quoted mark 0 inner.now) }
    ensures within { IfOk result (λ found. IfSome found (λ p. p.1 ≤ length inner.now)) }
{
    let mut bytes = Vec::new(alloc);
    let mut skip = 0usize;
    let mut rest = inner;
    let mut length = 0;
    while let Some((byte, after)) = rest.split_first() {
        rest = after;
        length += 1;
        if skip > 0 {
            skip -= 1;
        } else {
            match standing(mark, *byte, after) {
                Stands::Closing => return Ok(Some((Listed::of(bytes), length))),
                Stands::Plain(plain) => bytes.push(plain)?,
                Stands::Escaped(meant) => {
                    bytes.push(meant)?;
                    skip = 1;
                }
                Stands::Unicode(character) => {
                    push_character(&mut bytes, character)?;
                    skip = 5;
                }
                Stands::Wrong => return Ok(None),
            }
        }
    }
    Ok(None)
}

fn push_character(bytes: &mut Vec<u8>, character: char) -> Result<(), NoMemory>
    ensures { OnOk result (bytes.new.items ≡ bytes.old.items ++ encode_utf8 character) }
{
    let mut room = [0u8; 4];
    let text = character.encode_utf8(&mut room);
    bytes.extend_from_slice(text.as_bytes())?;
    Ok(())
}

/// The text between quotes of this mark, behind the opening one, and how many bytes it takes with the closing one; or
/// `None` exactly where there is no such text.
pub(crate) fn quoted_text(
    alloc: Global,
    mark: u8,
    inner: &[u8],
) -> Result<Option<(Text, usize)>, NoMemory>
    ensures found { IfOk result (λ found. found ≡ quoted_text mark inner.now) }
    ensures within { IfOk result (λ found. IfSome found (λ p. p.1 ≤ length inner.now)) }
{
    match quoted(alloc, mark, inner)? {
        Some((bytes, length)) => match text_of(bytes.into_vec()) {
            Some(text) => Ok(Some((text, length))),
            None => Ok(None),
        },
        None => Ok(None),
    }
}

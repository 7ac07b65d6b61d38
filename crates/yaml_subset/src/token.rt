//! The tokens of flow lists and maps.
ghost use Rattle.std.specs.Prelude.{◌≡◌, ◌∷◌, ◌<◌, ◌≤◌, ◌^◌, IfOk, length};
ghost use Rattle.yaml_subset.specs.Quoted.{quoted_text};
ghost use Rattle.yaml_subset.specs.Signs.{colon_at};
ghost use Rattle.yaml_subset.specs.Tokens.{before_sign, behind_quotes, ends_scalar, is_key_end, plain_key, plain_token, quoted_token, scalar_token, sign_of, token_at};

use crate::document::Document;
use crate::quoted::{begins, quoted_text};
use crate::scalar::{is_plain, plain_doc};
use crate::signs::{behind, colon_at, front, is_flow_sign, is_quote, trimmed};
use crate::texts::text_from;
use doc_tree::{NoMemory, Text};
use std::alloc::Global;

/// A token of a flow.
#[derive(Drop)]
pub(crate) enum Token {
    /// `[`.
    OpenList,
    /// `{`.
    OpenMap,
    /// `]`.
    CloseList,
    /// `}`.
    CloseMap,
    /// `,`.
    Comma,
    /// A key with its colon.
    Key(Text),
    /// A scalar.
    Scalar(Document),
}

fn before_sign(text: &[u8]) -> &[u8]
    ensures { result.now ≡ before_sign text.now }
{
    &text[..sign_place(text)]
}

fn sign_place(text: &[u8]) -> usize
    ensures value { result ≡ length (before_sign text.now) }
    ensures within { result ≤ length text.now }
{
    for (index, byte) in text.iter().enumerate() {
        if is_flow_sign(*byte) {
            return index;
        }
    }
    text.len()
}

fn is_key_end(text: &[u8]) -> bool
    ensures { result ≡ is_key_end text.now }
{
    match text {
        [] => false,
        [first, after @ ..] => *first == b':' && begins(b' ', after),
    }
}

fn ends_scalar(text: &[u8]) -> bool
    ensures { result ≡ ends_scalar text.now }
{
    match text {
        [] => true,
        [first, ..] => *first == b' ' || is_flow_sign(*first),
    }
}

fn behind_quotes(text: Text, length: usize, rest: &[u8]) -> Option<(Token, usize)>
    requires { length < 2 ^ 63 }
    ensures { result ≡ behind_quotes text length rest.now }
{
    if is_key_end(rest) {
        Some((Token::Key(text), length + 1))
    } else if ends_scalar(rest) {
        Some((Token::Scalar(Document::words(text)), length))
    } else {
        None
    }
}

fn quoted_token(alloc: Global, mark: u8, after: &[u8]) -> Result<Option<(Token, usize)>, NoMemory>
    ensures { IfOk result (λ found. found ≡ quoted_token (quoted_text mark after.now) after.now) }
{
    match quoted_text(alloc, mark, after)? {
        Some((text, length)) => Ok(behind_quotes(text, length, behind(after, length))),
        None => Ok(None),
    }
}

fn plain_key(alloc: Global, place: usize, key: &[u8]) -> Result<Option<(Token, usize)>, NoMemory>
    ensures { IfOk result (λ found. found ≡ plain_key place key.now) }
{
    if !is_plain(key) {
        return Ok(None);
    }
    match text_from(alloc, key)? {
        Some(key) => Ok(Some((Token::Key(key), place))),
        None => Ok(None),
    }
}

fn plain_token(
    alloc: Global,
    plain: &[u8],
    after: &[u8],
) -> Result<Option<(Token, usize)>, NoMemory>
    ensures { IfOk result (λ found. found ≡ plain_token (colon_at plain.now) plain.now after.now) }
{
    match colon_at(plain) {
        Some(place) => {
            if begins(b' ', behind(after, place)) {
                plain_key(alloc, place, trimmed(front(plain, place)))
            } else {
                Ok(None)
            }
        }
        None => match plain_doc(alloc, plain)? {
            Some(document) => Ok(Some((Token::Scalar(document), plain.len().saturating_sub(1)))),
            None => Ok(None),
        },
    }
}

fn sign_of(byte: u8) -> Option<Token>
    ensures { result ≡ sign_of byte }
{
    match byte {
        b'[' => Some(Token::OpenList),
        b']' => Some(Token::CloseList),
        b'{' => Some(Token::OpenMap),
        b'}' => Some(Token::CloseMap),
        b',' => Some(Token::Comma),
        _ => None,
    }
}

/// The token that a text begins with, and how many bytes of it stand behind the first; or `None` exactly where there
/// is none.
pub(crate) fn token_at(
    alloc: Global,
    byte: u8,
    text: &[u8],
    after: &[u8],
) -> Result<Option<(Token, usize)>, NoMemory>
    requires { text.now ≡ byte ∷ after.now }
    ensures { IfOk result (λ found. found ≡ token_at byte after.now) }
{
    match sign_of(byte) {
        Some(sign) => Ok(Some((sign, 0))),
        None => scalar_token(alloc, byte, text, after),
    }
}

fn scalar_token(
    alloc: Global,
    byte: u8,
    text: &[u8],
    after: &[u8],
) -> Result<Option<(Token, usize)>, NoMemory>
    requires { text.now ≡ byte ∷ after.now }
    ensures { IfOk result (λ found. found ≡ scalar_token byte after.now) }
{
    if is_quote(byte) {
        quoted_token(alloc, byte, after)
    } else {
        plain_token(alloc, trimmed(before_sign(text)), after)
    }
}

//! What a line says: dashes, a key, and what stands behind them.
ghost use Rattle.std.specs.Prelude.{◌≡◌, ◌∷◌, ◌&&◌, ◌+◌, ◌<◌, ◌^◌, ◌==◌, IfOk, None, false, if◌then◌else◌, option_map};
ghost use Rattle.yaml_subset.specs.Quoted.{quoted_text, text_in};
ghost use Rattle.yaml_subset.specs.LeftOut.{behind_key, is_keeping, is_left_out, is_left_out_sign, is_refused_meaning, value_of};
ghost use Rattle.yaml_subset.specs.Said.{behind_marks, content, literal_of, quoted_value, rest_of, said_at, value_doc};
ghost use Rattle.yaml_subset.specs.Says.{a_said, is_colon, key_of, plain_key, quoted_key};
ghost use Rattle.yaml_subset.specs.Scalar.{is_plain, meaning};
ghost use Rattle.yaml_subset.specs.Signs.{colon_at, is_apart};

use crate::document::Document;
use crate::flow::flow_doc;
use crate::mark::Mark;
use crate::quoted::quoted_text;
use crate::scalar::{Means, is_plain, meaning, plain_doc};
use crate::signs::{behind, colon_at, front, is_apart, is_quote, is_tail, trimmed};
use crate::texts::text_from;
use doc_tree::{Listed, NoMemory, Text};
use std::alloc::Global;

/// What stands behind the dashes and the key of a line.
#[derive(Drop)]
pub(crate) enum Rest {
    /// Nothing, or a comment.
    Nothing,
    /// A value.
    Scalar(Document),
    /// The sign of a literal, and whether its text keeps the line feed at its end.
    Literal(bool),
}

/// What a line says: its dashes and its key, the least indent that the lines of a literal behind them have, and what
/// stands behind them.
#[derive(Drop)]
pub(crate) struct Said {
    pub(crate) heads: Listed<Mark>,
    pub(crate) above: usize,
    pub(crate) rest: Rest,
}

fn is_colon(text: &[u8]) -> bool
    ensures { result ≡ is_colon text.now }
{
    match text {
        [] => false,
        [first, after @ ..] => *first == b':' && is_apart(after),
    }
}

fn quoted_key(alloc: Global, mark: u8, after: &[u8]) -> Result<Option<(Text, usize)>, NoMemory>
    ensures { IfOk result (λ key. key ≡ quoted_key (quoted_text mark after.now) after.now) }
{
    match quoted_text(alloc, mark, after)? {
        Some((text, length)) => {
            if is_colon(behind(after, length)) {
                Ok(Some((text, length + 2)))
            } else {
                Ok(None)
            }
        }
        None => Ok(None),
    }
}

fn plain_key(alloc: Global, plain: &[u8]) -> Result<Option<(Text, usize)>, NoMemory>
    ensures { IfOk result (λ key. key ≡ plain_key (colon_at plain.now) plain.now) }
{
    match colon_at(plain) {
        Some(place) => key_up_to(alloc, place, trimmed(front(plain, place))),
        None => Ok(None),
    }
}

fn key_up_to(alloc: Global, place: usize, key: &[u8]) -> Result<Option<(Text, usize)>, NoMemory>
    requires { place < 2 ^ 63 }
    ensures { IfOk result (λ found. found ≡ (if is_plain key.now then option_map (λ k. (k, place + 1)) (text_in key.now) else None)) }
{
    if !is_plain(key) {
        return Ok(None);
    }
    match text_from(alloc, key)? {
        Some(key) => Ok(Some((key, place + 1))),
        None => Ok(None),
    }
}

fn key_of(alloc: Global, text: &[u8]) -> Result<Option<(Text, usize)>, NoMemory>
    ensures { IfOk result (λ key. key ≡ key_of text.now) }
{
    match text.split_first() {
        None => Ok(None),
        Some((first, after)) => {
            if is_quote(*first) {
                quoted_key(alloc, *first, after)
            } else {
                plain_key(alloc, trimmed(text))
            }
        }
    }
}

fn quoted_value(alloc: Global, mark: u8, after: &[u8]) -> Result<Option<Document>, NoMemory>
    ensures { IfOk result (λ d. d ≡ quoted_value (quoted_text mark after.now) after.now) }
{
    match quoted_text(alloc, mark, after)? {
        Some((text, length)) => {
            if is_tail(behind(after, length)) {
                Ok(Some(Document::words(text)))
            } else {
                Ok(None)
            }
        }
        None => Ok(None),
    }
}

fn value_doc(
    alloc: Global,
    first: u8,
    text: &[u8],
    after: &[u8],
) -> Result<Option<Document>, NoMemory>
    requires { text.now ≡ first ∷ after.now }
    ensures { IfOk result (λ d. d ≡ value_doc first after.now) }
{
    if is_quote(first) {
        quoted_value(alloc, first, after)
    } else if matches!(first, b'[' | b'{') {
        flow_doc(alloc, text)
    } else {
        plain_doc(alloc, trimmed(text))
    }
}

fn literal_of(text: &[u8]) -> Option<Rest>
    ensures { result ≡ literal_of text.now }
{
    match text.split_first() {
        None => Some(Rest::Literal(true)),
        Some((first, after)) => {
            if is_tail(text) {
                Some(Rest::Literal(true))
            } else if *first == b'-' && is_tail(after) {
                Some(Rest::Literal(false))
            } else {
                None
            }
        }
    }
}

fn rest_of(alloc: Global, text: &[u8]) -> Result<Option<Rest>, NoMemory>
    ensures { IfOk result (λ rest. rest ≡ rest_of text.now) }
{
    let mut rest = text;
    while let Some((first, after)) = rest.split_first() {
        if *first != b' ' {
            return rest_from(alloc, *first, rest, after);
        }
        rest = after;
    }
    Ok(Some(Rest::Nothing))
}

// What stands behind dashes and a key, and begins with a byte that is no space.
fn rest_from(alloc: Global, first: u8, text: &[u8], after: &[u8]) -> Result<Option<Rest>, NoMemory>
    requires text { text.now ≡ first ∷ after.now }
    requires no_space { (first == 32) ≡ false }
    ensures { IfOk result (λ rest. rest ≡ rest_of text.now) }
{
    if first == b'#' {
        return Ok(Some(Rest::Nothing));
    }
    if first == b'|' {
        return Ok(literal_of(after));
    }
    match value_doc(alloc, first, text, after)? {
        Some(document) => Ok(Some(Rest::Scalar(document))),
        None => Ok(None),
    }
}

fn content(
    alloc: Global,
    heads: Listed<Mark>,
    above: usize,
    column: usize,
    text: &[u8],
) -> Result<Option<Said>, NoMemory>
    requires { column < 2 ^ 63 }
    ensures { IfOk result (λ said. said ≡ behind_marks heads (content above column text.now)) }
{
    match key_of(alloc, text)? {
        Some((key, length)) => {
            let mut heads = heads;
            heads.push(Mark::Key(column, key))?;
            with_rest(alloc, heads, column + 1, behind(text, length))
        }
        None => with_rest(alloc, heads, above, text),
    }
}

fn with_rest(
    alloc: Global,
    heads: Listed<Mark>,
    above: usize,
    text: &[u8],
) -> Result<Option<Said>, NoMemory>
    ensures { IfOk result (λ said. said ≡ option_map (a_said heads above) (rest_of text.now)) }
{
    match rest_of(alloc, text)? {
        Some(rest) => Ok(Some(Said { heads, above, rest })),
        None => Ok(None),
    }
}

fn is_dash(first: u8, after: &[u8]) -> bool
    ensures { result ≡ (first == 45 && is_apart after.now) }
{
    first == b'-' && is_apart(after)
}

/// What a line says that is no comment and isn't blank, or `None` exactly where it says nothing that YAML has.
#[tactic(auto, using(crate::proofs::SaidLemmas::behind_more))]
pub(crate) fn read_line(alloc: Global, line: &[u8]) -> Result<Option<Said>, NoMemory>
    ensures { IfOk result (λ said. said ≡ said_at 0 0 line.now) }
{
    let mut heads = Listed::new(alloc);
    let mut above = 0;
    let mut column = 0;
    let mut rest = line;
    while let Some((first, after)) = rest.split_first() {
        if *first == b'#' {
            return Ok(Some(Said {
                heads,
                above,
                rest: Rest::Nothing,
            }));
        }
        if *first != b' ' {
            if !is_dash(*first, after) {
                return content(alloc, heads, above, column, rest);
            }
            heads.push(Mark::Dash(column))?;
            above = column + 1;
        }
        column += 1;
        rest = after;
    }
    Ok(Some(Said {
        heads,
        above,
        rest: Rest::Nothing,
    }))
}

fn is_left_out_sign(byte: u8) -> bool
    ensures { result ≡ is_left_out_sign byte }
{
    matches!(byte, b'&' | b'*' | b'!' | b'>' | b'?' | b'%' | b'@' | b'`')
}

fn is_keeping(first: u8, after: &[u8]) -> bool
    ensures { result ≡ is_keeping first after.now }
{
    match after {
        [] => false,
        [second, ..] => first == b'|' && *second == b'+',
    }
}

fn is_refused(text: &[u8]) -> bool
    ensures { result ≡ is_refused_meaning (meaning text.now) }
{
    match meaning(text) {
        Means::Refused => true,
        _ => false,
    }
}

/// Whether a value begins as a form of YAML that is left out, or is a number that is refused.
pub(crate) fn is_left_out(text: &[u8]) -> bool
    ensures { result ≡ is_left_out text.now }
{
    let mut rest = text;
    while let Some((first, after)) = rest.split_first() {
        if *first != b' ' {
            return is_left_out_sign(*first)
                || is_keeping(*first, after)
                || is_refused(trimmed(rest));
        }
        rest = after;
    }
    false
}

/// The value of a line, after its indent, its dashes and a key.
pub(crate) fn value_of<'a>(alloc: Global, line: &'a [u8]) -> Result<&'a [u8], NoMemory>
    ensures { IfOk result (λ value. value.now ≡ value_of line.now) }
{
    let mut rest = line;
    while let Some((first, after)) = rest.split_first() {
        if *first != b' ' && !(*first == b'-' && is_apart(after)) {
            return behind_key(alloc, rest);
        }
        rest = after;
    }
    Ok(rest)
}

fn behind_key<'a>(alloc: Global, text: &'a [u8]) -> Result<&'a [u8], NoMemory>
    ensures { IfOk result (λ value. value.now ≡ behind_key (key_of text.now) text.now) }
{
    match key_of(alloc, text)? {
        Some((_, length)) => Ok(behind(text, length)),
        None => Ok(text),
    }
}

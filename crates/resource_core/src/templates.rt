//! Texts with attributes in them: `#{node['a']['b']}` stands for the attribute at the path of these keys.
ghost use Rattle.std.specs.Prelude.{◌≡◌, ◌<◌, [], ◌++◌, string_bytes, IfOk, OnOk, length, option_copied, option_map};
ghost use Rattle.std.specs.Fmt.{signed_decimal};
ghost use Rattle.doc_tree.specs.Doc.{pairs_of};
ghost use Rattle.doc_tree.specs.Part.{pair_at};
ghost use Rattle.doc_tree.specs.Tree.{doc_of};
ghost use Rattle.resource_core.specs.Templates as spec;
ghost use Rattle.resource_core.specs.Views.{Pushes, cut_of, rest_of};

use attr_merge::Merged;
use doc_tree::{Fields, Listed, NoMemory, Number, Text, Texts, Tree};
use std::alloc::Global;

/// A piece of a text: bytes that stand as they are, or the path of an attribute.
#[derive(Drop)]
pub(crate) enum Piece {
    Plain(Text),
    Attribute(Texts),
}

/// Pieces, in order.
pub(crate) type Pieces = Listed<Piece>;

/// What is stated where a text may stand.
#[derive(Drop)]
pub(crate) enum Stated {
    NotThere,
    /// It isn't a text, or has a `#{` that begins no path.
    Malformed,
    /// The first path that has no text, whole number or truth value.
    Missing(Texts),
    Words(Text),
}

/// What is stated at a key.
pub(crate) fn stated_at(
    alloc: Global,
    fields: &Fields,
    key: &str,
    merged: &Merged,
) -> Result<Stated, NoMemory>
    ensures { IfOk result (λ stated. stated ≡ spec.stated merged.now.document (pair_at key.now (pairs_of fields.now))) }
{
    match fields.get(key) {
        Some(tree) => stated_of(alloc, tree, merged),
        None => Ok(Stated::NotThere),
    }
}

/// What a tree states as a text.
pub(crate) fn stated_of(alloc: Global, tree: &Tree, merged: &Merged) -> Result<Stated, NoMemory>
    ensures { IfOk result (λ stated. stated ≡ spec.stated_of merged.now.document (doc_of tree.now)) }
{
    match tree {
        Tree::Words(text) => filled_text(alloc, text.as_str(), merged),
        Tree::Null | Tree::Bool(_) | Tree::Whole(_) | Tree::List(_) | Tree::Dict(_) => {
            Ok(Stated::Malformed)
        }
    }
}

fn filled_text(alloc: Global, text: &str, merged: &Merged) -> Result<Stated, NoMemory>
    ensures { IfOk result (λ stated. stated ≡ spec.filled_if merged.now.document (spec.pieces_of text.now)) }
{
    match pieces_of(alloc, text)? {
        Some(pieces) => filled(alloc, &pieces, merged),
        None => Ok(Stated::Malformed),
    }
}

fn filled(alloc: Global, pieces: &Pieces, merged: &Merged) -> Result<Stated, NoMemory>
    ensures { IfOk result (λ stated. stated ≡ spec.filled merged.now.document pieces.now) }
{
    let mut made = String::new(alloc);
    for piece in pieces.as_slice() {
        match piece {
            Piece::Plain(text) => made.push_str(text.as_str())?,
            Piece::Attribute(path) => {
                if !push_attribute(alloc, path, merged, &mut made)? {
                    return Ok(Stated::Missing(copy_path(alloc, path)?));
                }
            }
        }
    }
    Ok(Stated::Words(Text::of(made)))
}

/// Adds the text of an attribute, or says that there is none.
fn push_attribute(
    alloc: Global,
    path: &Texts,
    merged: &Merged,
    made: &mut String,
) -> Result<bool, NoMemory>
    ensures { IfOk result (Pushes (spec.attribute_text merged.now.document path.now) (string_bytes made.old) (string_bytes made.new)) }
{
    match merged.value(path.as_slice()) {
        Some(tree) => push_scalar(alloc, tree, made),
        None => Ok(false),
    }
}

fn push_scalar(alloc: Global, tree: &Tree, made: &mut String) -> Result<bool, NoMemory>
    ensures { IfOk result (Pushes (spec.scalar_text (doc_of tree.now)) (string_bytes made.old) (string_bytes made.new)) }
{
    match tree {
        Tree::Words(text) => made.push_str(text.as_str())?,
        Tree::Bool(truth) => made.push_str(if *truth { "true" } else { "false" })?,
        Tree::Whole(number) => push_number(alloc, number, made)?,
        Tree::Null | Tree::List(_) | Tree::Dict(_) => return Ok(false),
    }
    Ok(true)
}

fn push_number(alloc: Global, number: &Number, made: &mut String) -> Result<(), NoMemory>
    ensures { OnOk result (string_bytes made.new ≡ string_bytes made.old ++ signed_decimal number.now) }
{
    let value = number.value();
    let text = format!(in alloc; "{value}")?;
    made.push_str(text.as_str())?;
    Ok(())
}

fn copy_path(alloc: Global, path: &Texts) -> Result<Texts, NoMemory>
    ensures { IfOk result (λ copy. copy ≡ path.now) }
{
    let mut keys = Texts::new(alloc);
    for key in path.as_slice() {
        keys.push(key.copy(alloc)?)?;
    }
    Ok(keys)
}

/// The pieces of a text, or `None` exactly where a `#{` of it begins no path.
fn pieces_of(alloc: Global, text: &str) -> Result<Option<Pieces>, NoMemory>
    ensures { IfOk result (λ found. found ≡ spec.pieces_of text.now) }
{
    let mut pieces = Pieces::new(alloc);
    let mut left = text;
    while let Some((plain, after)) = parted(left) {
        let mut path = Texts::new(alloc);
        match path_at(alloc, after, &mut path)? {
            None => return Ok(None),
            Some(rest) => left = rest,
        }
        push_pieces(alloc, &mut pieces, plain, path)?;
    }
    pieces.push(Piece::Plain(Text::from_str(alloc, left)?))?;
    Ok(Some(pieces))
}

fn push_pieces(alloc: Global, pieces: &mut Pieces, plain: &str, path: Texts) -> Result<(), NoMemory>
    ensures { OnOk result (pieces.new ≡ pieces.old ++ spec.pieces_first plain.now path []) }
{
    pieces.push(Piece::Plain(Text::from_str(alloc, plain)?))?;
    pieces.push(Piece::Attribute(path))
}

/// What stands before the first `#{` and what stands behind it.
fn parted(text: &str) -> Option<(&str, &str)>
    ensures { option_map cut_of result ≡ spec.parted text.now }
{
    text.split_once("#{")
}

/// Puts the keys of the path that stands behind `#{` behind those of `path`, and gives what stands behind its `}`.
fn path_at<'a>(alloc: Global, text: &'a str, path: &mut Texts) -> Result<Option<&'a str>, NoMemory>
    ensures { IfOk result (λ rest. (path.old ≡ []) → rest_of path.new rest ≡ spec.path_at text.now) }
{
    match behind(text, "node") {
        Some(keys) => keys_at(alloc, keys, path),
        None => Ok(None),
    }
}

fn keys_at<'a>(alloc: Global, text: &'a str, path: &mut Texts) -> Result<Option<&'a str>, NoMemory>
    ensures { IfOk result (λ rest. (path.old ≡ []) → rest_of path.new rest ≡ spec.keys_at (length text.now) text.now) }
{
    let mut left = text;
    while let Some((key, after)) = key_at(left) {
        path.push(Text::from_str(alloc, key)?)?;
        match behind(after, "}") {
            Some(rest) => return Ok(Some(rest)),
            None => left = after,
        }
    }
    Ok(None)
}

/// A key between brackets and quotes at the front of a text, with what stands behind it.
fn key_at(text: &str) -> Option<(&str, &str)>
    ensures { option_map cut_of result ≡ spec.key_at text.now }
{
    match key_between(text, "['", '\'') {
        Some(found) => Some(found),
        None => key_between(text, "[\"", '"'),
    }
}

fn key_between<'a>(text: &'a str, opening: &str, quote: char) -> Option<(&'a str, &'a str)>
    requires { quote < 128 }
    ensures { option_map cut_of result ≡ spec.key_between opening.now quote text.now }
{
    let inner = behind(text, opening)?;
    let (key, after) = cut_at(inner, quote)?;
    let rest = behind(after, "]")?;
    Some((key, rest))
}

fn cut_at(text: &str, quote: char) -> Option<(&str, &str)>
    requires { quote < 128 }
    ensures { option_map cut_of result ≡ spec.cut_at quote text.now }
{
    text.split_once(quote)
}

fn behind<'a>(text: &'a str, front: &str) -> Option<&'a str>
    ensures { option_copied result ≡ spec.behind front.now text.now }
{
    text.strip_prefix(front)
}

//! Writing the YAML text of a tree.
ghost use Rattle.doc_tree.specs.Doc.{depth, docs_of, pairs_of};
ghost use Rattle.doc_tree.specs.Tree.{doc_of};
ghost use Rattle.std.specs.Char.{digit_char, encode_utf8};
ghost use Rattle.std.specs.List.{list_all};
ghost use Rattle.std.specs.Fmt.{signed_decimal};
ghost use Rattle.std.specs.Prelude.{◌≡◌, ◌<◌, ◌≤◌, ◌||◌, ◌==◌, ◌++◌, ◌∷◌, [], IfOk, OnOk, if◌then◌else◌, nat_lt, string_bytes};
ghost use Rattle.std.specs.Str.{chars};
ghost use Rattle.yaml_subset.specs.Spells.{Spells};
ghost use Rattle.yaml_subset.specs.Written.{block_text, char_text, deeper, escaped, hex_text, is_bare, is_block, is_inner, items_text, pairs_text, scalar_text, words_text, written};

use crate::scalar::{is_false, is_null, is_true};
use doc_tree::{Fields, NoMemory, Number, Text, Tree, Trees};
use std::alloc::Global;

/// The YAML text of a tree: a line for each key or item, its part on the same line where it is a scalar or empty, and
/// else on the lines below, two spaces deeper. Keys come in the order of their bytes, and each line ends with a line
/// feed. A text stands without quotes where it begins with a letter or `/`, has only letters, digits and `_ . / -`
/// behind that, and is no word of null or a truth value. Where the tree nests at most 100 deep, the text spells it.
pub fn yaml_text(alloc: Global, tree: &Tree) -> Result<Text, NoMemory>
    ensures text { IfOk result (λ text. text ≡ written (doc_of tree.now)) }
    ensures reads_back { IfOk result (λ text. depth (doc_of tree.now) ≤ 100 → Spells text (doc_of tree.now)) }
{
    // What every tree keeps makes its text one that reads back.
    tree.known();
    let mut out = String::new(alloc);
    write_document(alloc, &mut out, tree)?;
    Ok(Text::of(out))
}

fn write_document(alloc: Global, out: &mut String, tree: &Tree) -> Result<(), NoMemory>
    ensures { OnOk result (string_bytes out.new ≡ string_bytes out.old ++ written (doc_of tree.now)) }
{
    if is_block(tree) {
        return write_block(alloc, out, "", tree);
    }
    write_scalar(out, tree)?;
    out.push_str("\n")?;
    Ok(())
}

fn is_block(tree: &Tree) -> bool
    ensures { result ≡ is_block (doc_of tree.now) }
{
    match tree {
        Tree::List(trees) => !trees.is_empty(),
        Tree::Dict(fields) => !fields.is_empty(),
        _ => false,
    }
}

fn is_inner(byte: u8) -> bool
    ensures { result ≡ is_inner byte }
{
    byte.is_ascii_alphabetic() || byte.is_ascii_digit() || matches!(byte, b'_' | b'.' | b'/' | b'-')
}

fn are_inner(bytes: &[u8]) -> bool
    ensures { result ≡ list_all is_inner bytes.now }
{
    for byte in bytes {
        if !is_inner(*byte) {
            return false;
        }
    }
    true
}

fn is_bare(bytes: &[u8]) -> bool
    ensures { result ≡ is_bare bytes.now }
{
    match bytes.split_first() {
        None => false,
        Some((first, after)) => {
            (first.is_ascii_alphabetic() || *first == b'/')
                && are_inner(after)
                && !(is_null(bytes) || is_true(bytes) || is_false(bytes))
        }
    }
}

fn write_words(out: &mut String, text: &str) -> Result<(), NoMemory>
    ensures { OnOk result (string_bytes out.new ≡ string_bytes out.old ++ words_text text.now) }
{
    if is_bare(text.as_bytes()) {
        out.push_str(text)?;
        return Ok(());
    }
    out.push_str("\"")?;
    write_escaped(out, text)?;
    out.push_str("\"")?;
    Ok(())
}

fn write_escaped(out: &mut String, text: &str) -> Result<(), NoMemory>
    ensures { OnOk result (string_bytes out.new ≡ string_bytes out.old ++ escaped (chars text.now)) }
{
    for character in text.chars() {
        write_character(out, character)?;
    }
    Ok(())
}

fn write_character(out: &mut String, character: char) -> Result<(), NoMemory>
    ensures { OnOk result (string_bytes out.new ≡ string_bytes out.old ++ char_text character) }
{
    match character {
        '\\' => out.push_str("\\\\")?,
        '"' => out.push_str("\\\"")?,
        '\n' => out.push_str("\\n")?,
        '\r' => out.push_str("\\r")?,
        '\t' => out.push_str("\\t")?,
        '\0' => out.push_str("\\0")?,
        _ => write_other(out, character)?,
    }
    Ok(())
}

fn write_other(out: &mut String, character: char) -> Result<(), NoMemory>
    ensures { OnOk result (string_bytes out.new ≡ string_bytes out.old ++ (if nat_lt character 32 || character == 127 then hex_text character else encode_utf8 character)) }
{
    if character < ' ' || character == '\u{7f}' {
        write_hex(out, character)
    } else {
        out.push(character)?;
        Ok(())
    }
}

fn write_hex(out: &mut String, character: char) -> Result<(), NoMemory>
    ensures { OnOk result (string_bytes out.new ≡ string_bytes out.old ++ hex_text character) }
{
    let code = character as u32;
    out.push_str("\\u00")?;
    if code < 16 {
        write_pair(out, "0", code)
    } else if code < 32 {
        write_pair(out, "1", code - 16)
    } else {
        out.push_str("7f")?;
        Ok(())
    }
}

// A hexadecimal digit and the one of this value behind it.
fn write_pair(out: &mut String, first: &str, value: u32) -> Result<(), NoMemory>
    requires { value < 16 }
    ensures { OnOk result (string_bytes out.new ≡ string_bytes out.old ++ (first.now ++ digit_char value ∷ [])) }
{
    out.push_str(first)?;
    out.push(hex_digit(value))?;
    Ok(())
}

fn hex_digit(value: u32) -> char
    requires { value < 16 }
    ensures { result ≡ digit_char value }
{
    char::from_digit(value, 16).unwrap_or('0')
}

fn write_number(out: &mut String, number: &Number) -> Result<(), NoMemory>
    ensures { OnOk result (string_bytes out.new ≡ string_bytes out.old ++ signed_decimal number.now) }
{
    let value = number.value();
    if value < 0 {
        write!(out, "{}", value as i64)?;
    } else {
        write!(out, "{}", value as u64)?;
    }
    Ok(())
}

fn write_scalar(out: &mut String, tree: &Tree) -> Result<(), NoMemory>
    ensures { OnOk result (string_bytes out.new ≡ string_bytes out.old ++ scalar_text (doc_of tree.now)) }
{
    match tree {
        Tree::Null => out.push_str("null")?,
        Tree::Bool(true) => out.push_str("true")?,
        Tree::Bool(false) => out.push_str("false")?,
        Tree::Whole(number) => write_number(out, number)?,
        Tree::Words(text) => write_words(out, text.as_str())?,
        Tree::List(_) => out.push_str("[]")?,
        Tree::Dict(_) => out.push_str("{}")?,
    }
    Ok(())
}

// A value behind a dash or a key, on its line.
fn write_value(out: &mut String, tree: &Tree) -> Result<(), NoMemory>
    ensures { OnOk result (string_bytes out.new ≡ string_bytes out.old ++ (32 ∷ (scalar_text (doc_of tree.now) ++ 10 ∷ []))) }
{
    out.push_str(" ")?;
    write_scalar(out, tree)?;
    out.push_str("\n")?;
    Ok(())
}

// Two spaces more.
fn deeper(alloc: Global, front: &str) -> Result<String, NoMemory>
    ensures { IfOk result (λ text. string_bytes text ≡ deeper front.now) }
{
    let mut text = String::from_str(alloc, front)?;
    text.push_str("  ")?;
    Ok(text)
}

#[cycle(write)]
fn write_block(alloc: Global, out: &mut String, front: &str, tree: &Tree) -> Result<(), NoMemory>
    ensures { OnOk result (string_bytes out.new ≡ string_bytes out.old ++ block_text front.now (doc_of tree.now)) }
{
    match tree {
        Tree::List(trees) => write_items(alloc, out, front, trees),
        Tree::Dict(fields) => write_pairs(alloc, out, front, fields),
        _ => Ok(()),
    }
}

#[cycle(write)]
fn write_items(alloc: Global, out: &mut String, front: &str, trees: &Trees) -> Result<(), NoMemory>
    ensures { OnOk result (string_bytes out.new ≡ string_bytes out.old ++ items_text front.now (docs_of trees.now)) }
{
    let below = deeper(alloc, front)?;
    for tree in trees.as_slice() {
        out.push_str(front)?;
        out.push_str("-")?;
        if is_block(tree) {
            out.push_str("\n")?;
            write_block(alloc, out, below.as_str(), tree)?;
        } else {
            write_value(out, tree)?;
        }
    }
    Ok(())
}

#[cycle(write)]
fn write_pairs(
    alloc: Global,
    out: &mut String,
    front: &str,
    fields: &Fields,
) -> Result<(), NoMemory>
    ensures { OnOk result (string_bytes out.new ≡ string_bytes out.old ++ pairs_text front.now (pairs_of fields.now)) }
{
    let below = deeper(alloc, front)?;
    for field in fields.as_slice() {
        out.push_str(front)?;
        write_words(out, field.key.as_str())?;
        out.push_str(":")?;
        if is_block(&field.tree) {
            out.push_str("\n")?;
            write_block(alloc, out, below.as_str(), &field.tree)?;
        } else {
            write_value(out, &field.tree)?;
        }
    }
    Ok(())
}

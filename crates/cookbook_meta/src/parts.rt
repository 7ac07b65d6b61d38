//! The parts of a body.
ghost use Rattle.std.specs.Prelude.{◌≡◌, option_map};
ghost use Rattle.std.specs.List.{list_all};
ghost use Rattle.std.specs.Result.{result_map_both};
ghost use Rattle.doc_tree.specs.Doc.{pairs_of};
ghost use Rattle.doc_tree.specs.Part.{pair_at};
ghost use Rattle.doc_tree.specs.Tree.{doc_of};
ghost use Rattle.cookbook_meta.specs.Entries.{text_or};
ghost use Rattle.cookbook_meta.specs.Faults.{then_do};
ghost use Rattle.cookbook_meta.specs.Outcomes.{Finds};
ghost use Rattle.cookbook_meta.specs.Parts as spec;

use crate::fault::Flaw;
use doc_tree::{Fields, Name, Text, Tree};
use std::alloc::Global;
use version_rules::{Constraint, Version, parse_constraint, parse_version};

/// What stands at a key that must be there.
pub(crate) fn needed<'a>(body: &'a Fields, key: &str) -> Result<&'a Tree, Flaw>
    ensures { result_map_both (λ t. doc_of t.now) (λ f. f) result ≡ spec.needed key.now (pairs_of body.now) }
{
    match body.get(key) {
        Some(tree) => Ok(tree),
        None => Err(Flaw::MissingField),
    }
}

/// The text that a tree is.
pub(crate) fn text_of(tree: &Tree) -> Result<&str, Flaw>
    ensures { result_map_both (λ t. t.now) (λ f. f) result ≡ spec.text_of (doc_of tree.now) }
{
    match tree {
        Tree::Words(text) => Ok(text.as_str()),
        Tree::Null | Tree::Bool(_) | Tree::Whole(_) | Tree::List(_) | Tree::Dict(_) => {
            Err(Flaw::WrongKind)
        }
    }
}

/// The text at a key that must be there.
pub(crate) fn text_at<'a>(body: &'a Fields, key: &str) -> Result<&'a str, Flaw>
    ensures { result_map_both (λ t. t.now) (λ f. f) result ≡ then_do (spec.needed key.now (pairs_of body.now)) spec.text_of }
{
    text_of(needed(body, key)?)
}

/// The text that a tree is, or this one where there is no tree.
pub(crate) fn text_or<'a>(default: &'a str, found: Option<&'a Tree>) -> Result<&'a str, Flaw>
    ensures { result_map_both (λ t. t.now) (λ f. f) result ≡ text_or default.now (option_map (λ t. doc_of t.now) found.entry) }
{
    match found {
        Some(tree) => text_of(tree),
        None => Ok(default),
    }
}

/// The Name at a key that must be there.
pub(crate) fn name_at(alloc: Global, body: &Fields, key: &str) -> Result<Name, Flaw>
    ensures { Finds result (then_do (spec.needed key.now (pairs_of body.now)) spec.name_of) }
{
    let text = text_at(body, key)?;
    name_in(alloc, text)
}

pub(crate) fn name_in(alloc: Global, text: &str) -> Result<Name, Flaw>
    ensures { Finds result (spec.as_name text.now) }
{
    match Name::of(Text::from_str(alloc, text)?) {
        Ok(name) => Ok(name),
        Err(_) => Err(Flaw::WrongKind),
    }
}

/// The version that a tree is.
pub(crate) fn version_of(tree: &Tree) -> Result<Version, Flaw>
    ensures { result ≡ spec.version_of (doc_of tree.now) }
{
    match parse_version(text_of(tree)?) {
        Ok(version) => Ok(version),
        Err(_) => Err(Flaw::BadVersion),
    }
}

/// The version at a key that must be there.
pub(crate) fn version_at(body: &Fields, key: &str) -> Result<Version, Flaw>
    ensures { result ≡ then_do (spec.needed key.now (pairs_of body.now)) spec.version_of }
{
    version_of(needed(body, key)?)
}

/// The constraint that a tree is.
pub(crate) fn constraint_of(tree: &Tree) -> Result<Constraint, Flaw>
    ensures { result ≡ spec.constraint_of (doc_of tree.now) }
{
    match parse_constraint(text_of(tree)?) {
        Ok(constraint) => Ok(constraint),
        Err(_) => Err(Flaw::BadVersion),
    }
}

/// The truth value that a tree is, and false where there is no tree.
pub(crate) fn truth_of(found: Option<&Tree>) -> Result<bool, Flaw>
    ensures { result ≡ spec.truth_of (option_map (λ t. doc_of t.now) found.entry) }
{
    match found {
        None => Ok(false),
        Some(tree) => truth_in(tree),
    }
}

fn truth_in(tree: &Tree) -> Result<bool, Flaw>
    ensures { result ≡ spec.truth_in (doc_of tree.now) }
{
    match tree {
        Tree::Bool(truth) => Ok(*truth),
        Tree::Null | Tree::Whole(_) | Tree::Words(_) | Tree::List(_) | Tree::Dict(_) => {
            Err(Flaw::WrongKind)
        }
    }
}

/// The checksum at a key that must be there.
pub(crate) fn checksum_at<'a>(body: &'a Fields, key: &str) -> Result<&'a str, Flaw>
    ensures { result_map_both (λ t. t.now) (λ f. f) result ≡ then_do (spec.needed key.now (pairs_of body.now)) spec.checksum_of }
{
    let text = text_at(body, key)?;
    if is_checksum(text.as_bytes()) {
        Ok(text)
    } else {
        Err(Flaw::BadChecksum)
    }
}

fn is_checksum(text: &[u8]) -> bool
    ensures { result ≡ spec.is_checksum text.now }
{
    text.len() == 32 && are_lower_hex(text)
}

fn are_lower_hex(text: &[u8]) -> bool
    ensures { result ≡ list_all spec.is_lower_hex text.now }
{
    text.iter().all(|byte| is_lower_hex(*byte))
}

fn is_lower_hex(byte: u8) -> bool
    ensures { result ≡ spec.is_lower_hex byte }
{
    matches!(byte, b'0'..=b'9' | b'a'..=b'f')
}

/// Whether a text has the form of an artifact's identifier: 40 lower-case hexadecimal digits.
pub fn is_identifier(text: &str) -> bool
    ensures { result ≡ spec.is_identifier text.now }
{
    text.len() == 40 && are_lower_hex(text.as_bytes())
}

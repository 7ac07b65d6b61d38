//! The entries that documents spell.
ghost use Rattle.std.specs.Prelude.{◌≡◌, IfOk, map, bytes_eq, codes, ◌&&◌, option_map, option_copied, [], ◌∷◌};
ghost use Rattle.host_tree.specs.declared.entry.Entry.TheVariants as entry;
ghost use Rattle.doc_tree.specs.Doc.{pairs_of};
ghost use Rattle.doc_tree.specs.Tree.{doc_of, pair_of};
ghost use Rattle.host_tree.specs.Documents as spec;
ghost use Rattle.host_tree.specs.Modes.{mode_in};

use crate::entry::Entry;
use crate::modes::Mode;
use doc_tree::{Field, NoMemory, Text, Tree};
use std::alloc::Global;

/// The entry that a tree spells, or `None` where it hasn't the form of one.
pub(crate) fn entry_in(alloc: Global, tree: &Tree) -> Result<Option<Entry>, NoMemory>
    ensures { IfOk result (λ found. found ≡ spec.entry_in (doc_of tree.now)) }
{
    match tree {
        Tree::Dict(fields) => fields_entry(alloc, fields.as_slice()),
        _ => Ok(None),
    }
}

fn fields_entry(alloc: Global, fields: &[Field]) -> Result<Option<Entry>, NoMemory>
    ensures { IfOk result (λ found. found ≡ spec.pairs_entry (pairs_of (map pair_of fields.now))) }
{
    match fields {
        [first, kind] => two_in(alloc, first, kind),
        [content, mode, kind] => file_in(alloc, content, mode, kind),
        _ => Ok(None),
    }
}

fn two_in(alloc: Global, first: &Field, kind: &Field) -> Result<Option<Entry>, NoMemory>
    ensures { IfOk result (λ found. found ≡ spec.pairs_entry (pairs_of (map pair_of (first.now ∷ kind.now ∷ [])))) }
{
    match directory_in(first, kind) {
        Some(mode) => Ok(Some(Entry::Directory { mode })),
        None => link_in(alloc, first, kind),
    }
}

fn directory_in(mode: &Field, kind: &Field) -> Option<Mode>
    ensures { option_map entry.Directory result ≡ spec.directory_in mode.now.key (doc_of mode.now.tree) kind.now.key (doc_of kind.now.tree) }
{
    if mode.key.as_str() == "mode" && is_type(kind, "directory") {
        mode_of(&mode.tree)
    } else {
        None
    }
}

fn link_in(alloc: Global, to: &Field, kind: &Field) -> Result<Option<Entry>, NoMemory>
    ensures { IfOk result (λ found. found ≡ spec.link_in to.now.key (doc_of to.now.tree) kind.now.key (doc_of kind.now.tree)) }
{
    if to.key.as_str() == "to" && is_type(kind, "link") {
        if let Some(text) = to.tree.text() {
            return Ok(Some(Entry::Link {
                to: text.copy(alloc)?,
            }));
        }
    }
    Ok(None)
}

fn file_in(
    alloc: Global,
    content: &Field,
    mode: &Field,
    kind: &Field,
) -> Result<Option<Entry>, NoMemory>
    ensures { IfOk result (λ found. found ≡ spec.file_in content.now.key (doc_of content.now.tree) mode.now.key (doc_of mode.now.tree) kind.now.key (doc_of kind.now.tree)) }
{
    if are_file_keys(content, mode, kind) {
        if let Some(text) = content.tree.text() {
            if let Some(mode) = mode_of(&mode.tree) {
                return Ok(Some(Entry::File {
                    content: text.copy(alloc)?,
                    mode,
                }));
            }
        }
    }
    Ok(None)
}

fn are_file_keys(content: &Field, mode: &Field, kind: &Field) -> bool
    ensures { result ≡ (bytes_eq content.now.key (codes "content") && (bytes_eq mode.now.key (codes "mode") && spec.is_type (codes "file") kind.now.key (doc_of kind.now.tree))) }
{
    content.key.as_str() == "content" && mode.key.as_str() == "mode" && is_type(kind, "file")
}

fn is_type(kind: &Field, word: &str) -> bool
    ensures { result ≡ spec.is_type word.now kind.now.key (doc_of kind.now.tree) }
{
    kind.key.as_str() == "type" && is_word(&kind.tree, word)
}

fn is_word(tree: &Tree, word: &str) -> bool
    ensures { result ≡ spec.is_word word.now (doc_of tree.now) }
{
    match tree {
        Tree::Words(text) => text.as_str() == word,
        _ => false,
    }
}

fn mode_of(tree: &Tree) -> Option<Mode>
    ensures { result ≡ spec.mode_of (doc_of tree.now) }
{
    match tree {
        Tree::Words(text) => mode_in(text.as_bytes()),
        _ => None,
    }
}

fn mode_in(digits: &[u8]) -> Option<Mode>
    ensures { result ≡ mode_in digits.now }
{
    match digits {
        [a, b, c, d] => Mode::octal(*a, *b, *c, *d),
        _ => None,
    }
}

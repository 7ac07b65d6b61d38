//! An image is written.
ghost use Rattle.std.specs.Prelude.{◌≡◌, ◌+◌, ◌<◌, ◌++◌, ◌∷◌, [], IfOk, OnOk, OnErr, codes, map, string_bytes};
ghost use Rattle.std.specs.BTreeMap.{IsOrdered};
ghost use Rattle.std.specs.Cmp.Lexicographic.{slice_cmp};
ghost use Rattle.std.specs.Ordering.{nat_cmp};
ghost use Rattle.doc_tree.specs.Part.{with_pair};
ghost use Rattle.doc_tree.specs.Doc.{dict, pairs_of, words};
ghost use Rattle.doc_tree.specs.Tree.{doc_of};
ghost use Rattle.host_tree.specs.Documents.{doc_pair, entry_doc, image_of};
ghost use Rattle.host_tree.specs.Modes.{mode_text};
ghost use Rattle.host_tree.specs.declared.entry.Entry.TheVariants as entries;

use crate::entry::Entry;
use crate::image::ImageHost;
use crate::modes::Mode;
use doc_tree::{Fields, NoMemory, Text, Tree};
use std::alloc::{AllocError, Global};
use std::collections::BTreeMap;

impl ImageHost {
    /// Its image: the tree that [`ImageHost::read`] reads as this host.
    pub fn image(&self, alloc: Global) -> Result<Tree, NoMemory>
        ensures { IfOk result (λ tree. doc_of tree ≡ image_of self.now) }
    {
        Ok(Tree::Dict(entries_fields(alloc, &self.entries)?))
    }
}

/// The fields of an image, which come in the order of their paths.
fn entries_fields(alloc: Global, entries: &BTreeMap<Text, Entry>) -> Result<Fields, NoMemory>
    ensures fields { IfOk result (λ fields. fields ≡ map doc_pair entries.now.entries) }
    ensures order { IsOrdered (slice_cmp nat_cmp) entries.now }
{
    let mut fields = Fields::with_capacity(alloc, entries.len())?;
    for (path, entry) in entries {
        let tree = entry_tree(alloc, entry)?;
        fields.push(path.copy(alloc)?, tree)?;
    }
    Ok(fields)
}

fn entry_tree(alloc: Global, entry: &Entry) -> Result<Tree, NoMemory>
    ensures { IfOk result (λ tree. doc_of tree ≡ entry_doc entry.now) }
{
    let mut fields = Fields::with_capacity(alloc, 3)?;
    put_entry(alloc, entry, &mut fields)?;
    Ok(Tree::Dict(fields))
}

fn put_entry(alloc: Global, entry: &Entry, fields: &mut Fields) -> Result<(), NoMemory>
    requires { fields.old ≡ [] }
    ensures { OnOk result (dict (pairs_of fields.new) ≡ entry_doc entry.now) }
{
    match entry {
        Entry::File { content, mode } => put_file(alloc, content, *mode, fields),
        Entry::Directory { mode } => put_directory(alloc, *mode, fields),
        Entry::Link { to } => put_link(alloc, to, fields),
    }
}

fn put_file(alloc: Global, content: &Text, mode: Mode, fields: &mut Fields) -> Result<(), NoMemory>
    requires { fields.old ≡ [] }
    ensures { OnOk result (dict (pairs_of fields.new) ≡ entry_doc (entries.File content.now mode)) }
{
    put_words(alloc, fields, "content", content.as_str())?;
    put_mode(alloc, fields, mode)?;
    put_words(alloc, fields, "type", "file")
}

fn put_directory(alloc: Global, mode: Mode, fields: &mut Fields) -> Result<(), NoMemory>
    requires { fields.old ≡ [] }
    ensures { OnOk result (dict (pairs_of fields.new) ≡ entry_doc (entries.Directory mode)) }
{
    put_mode(alloc, fields, mode)?;
    put_words(alloc, fields, "type", "directory")
}

fn put_link(alloc: Global, to: &Text, fields: &mut Fields) -> Result<(), NoMemory>
    requires { fields.old ≡ [] }
    ensures { OnOk result (dict (pairs_of fields.new) ≡ entry_doc (entries.Link to.now)) }
{
    put_words(alloc, fields, "to", to.as_str())?;
    put_words(alloc, fields, "type", "link")
}

fn put_mode(alloc: Global, fields: &mut Fields, mode: Mode) -> Result<(), NoMemory>
    ensures { OnOk result (fields.new ≡ with_pair (codes "mode") (words (mode_text mode)) fields.old) }
{
    put(alloc, fields, "mode", mode_text(alloc, mode)?)
}

fn put_words(alloc: Global, fields: &mut Fields, key: &str, text: &str) -> Result<(), NoMemory>
    ensures { OnOk result (fields.new ≡ with_pair key.now (words text.now) fields.old) }
{
    put(alloc, fields, key, Text::from_str(alloc, text)?)
}

fn put(alloc: Global, fields: &mut Fields, key: &str, text: Text) -> Result<(), NoMemory>
    ensures ok { OnOk result (fields.new ≡ with_pair key.now (words text) fields.old) }
    ensures err { OnErr result (fields.new ≡ fields.old) }
{
    fields.put(Text::from_str(alloc, key)?, Tree::Words(text))
}

/// The four octal digits of a mode.
fn mode_text(alloc: Global, mode: Mode) -> Result<Text, NoMemory>
    ensures { IfOk result (λ text. text ≡ mode_text mode) }
{
    let bits = mode.bits();
    let mut text = String::with_capacity(alloc, 4)?;
    push_digit(&mut text, bits / 512 % 8)?;
    push_digit(&mut text, bits / 64 % 8)?;
    push_digit(&mut text, bits / 8 % 8)?;
    push_digit(&mut text, bits % 8)?;
    Ok(Text::of(text))
}

fn push_digit(text: &mut String, digit: u16) -> Result<(), AllocError>
    requires { digit < 8 }
    ensures { OnOk result (string_bytes text.new ≡ string_bytes text.old ++ (48 + digit) ∷ []) }
{
    text.push(char::from(b'0' + digit as u8))
}

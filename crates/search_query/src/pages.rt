//! The page of a search.
ghost use Rattle.std.specs.Prelude.{◌≡◌, ◌++◌, List, IfOk, OnOk, map};
ghost use Rattle.doc_tree.specs.Doc.{Doc};
ghost use Rattle.doc_tree.specs.Tree.{doc_of};
ghost use Rattle.doc_tree.specs.Written.{text};
ghost use Rattle.search_query.specs.Pages as spec;

use compact_json::CompactJson;
use doc_tree::{Bytes, NoMemory, Number, Text, Tree, json_text};
use std::alloc::Global;
use std::marker::Model;

/// The text of a row: that of an object as it is kept, which is lent, or one that was made. Contracts see its bytes.
#[derive(Drop)]
pub struct RowText<'a> {
    held: HeldText<'a>,
}

#[derive(Drop)]
enum HeldText<'a> {
    Kept(&'a CompactJson),
    Made(Bytes),
}

impl<'a> Model for RowText<'a> {
    ghost use Rattle.std.specs.Prelude.{List, ℕ};
    ghost use Rattle.search_query.specs.RowTexts.{held_text};

    ghost Value = { List ℕ };

    ghost view = { λ r. held_text r.held };
}

impl<'a> RowText<'a> {
    /// The row that shows an object whole: its text isn't copied.
    pub fn kept(object: &'a CompactJson) -> RowText<'a>
        ensures { result ≡ text object.now }
    {
        RowText {
            held: HeldText::Kept(object),
        }
    }

    /// The row of a text that was made.
    pub fn made(written: Bytes) -> RowText<'a>
        ensures { result ≡ written }
    {
        RowText {
            held: HeldText::Made(written),
        }
    }

    /// The text, as a slice that borrows it.
    fn as_slice(&self) -> &[u8]
        ensures { result.now ≡ self.now }
    {
        match &self.held {
            HeldText::Kept(object) => object.as_bytes(),
            HeldText::Made(written) => written.as_slice(),
        }
    }
}

/// The text of the page that shows rows, by their own texts: `{"rows":[..],"start":START,"total":TOTAL}`. The rows are
/// those from the place `start` on, of `total` in all. Each row is copied once. Want of memory is the one refusal.
pub fn page_text(
    alloc: Global,
    rows: &[RowText<'_>],
    start: u64,
    total: usize,
) -> Result<Bytes, NoMemory>
    ensures { IfOk result (λ bytes. (docs : List Doc) → rows.now ≡ map text docs → bytes ≡ text (spec.page_doc docs start total)) }
{
    let mut out = Vec::new(alloc);
    out.push(b'{')?;
    add_text(&mut out, &Tree::Words(Text::from_str(alloc, "rows")?))?;
    out.extend_from_slice(b":[")?;
    add_rows(&mut out, rows)?;
    out.extend_from_slice(b"],")?;
    add_count(&mut out, "start", start)?;
    out.push(b',')?;
    add_count(&mut out, "total", total as u64)?;
    out.push(b'}')?;
    Ok(Bytes::of(out))
}

/// Adds the text of a tree.
fn add_text(out: &mut Vec<u8>, tree: &Tree) -> Result<(), NoMemory>
    ensures { OnOk result (out.new.items ≡ out.old.items ++ text (doc_of tree.now)) }
{
    let written = json_text(*out.allocator(), tree)?;
    out.extend_from_slice(written.as_slice())?;
    Ok(())
}

/// Adds a key with a number.
fn add_count(out: &mut Vec<u8>, key: &str, count: u64) -> Result<(), NoMemory>
    ensures { OnOk result (out.new.items ≡ out.old.items ++ spec.counted key.now count) }
{
    let key = Text::from_str(*out.allocator(), key)?;
    add_text(out, &Tree::Words(key))?;
    out.push(b':')?;
    add_text(out, &Tree::Whole(Number::from(count)))
}

/// Adds the texts of rows, with commas between.
fn add_rows(out: &mut Vec<u8>, rows: &[RowText<'_>]) -> Result<(), NoMemory>
    ensures { OnOk result (out.new.items ≡ out.old.items ++ spec.with_commas rows.now) }
{
    match rows.split_first() {
        Some((first, others)) => {
            out.extend_from_slice(first.as_slice())?;
            add_behind(out, others)
        }
        None => Ok(()),
    }
}

/// Adds the texts of rows behind another, each with a comma before it.
fn add_behind(out: &mut Vec<u8>, rows: &[RowText<'_>]) -> Result<(), NoMemory>
    ensures { OnOk result (out.new.items ≡ out.old.items ++ spec.behind rows.now) }
{
    for row in rows {
        out.push(b',')?;
        out.extend_from_slice(row.as_slice())?;
    }
    Ok(())
}

/// Of what was found, in order, that which a page shows: at most `rows`, from the place `start` on. It takes no memory.
pub fn shown<T>(found: &[T], start: u64, rows: u64) -> &[T]
    ensures { result.now ≡ spec.shown start rows found.now }
{
    let start = found.len().min(start as usize);
    let rest = &found[start..];
    let count = rest.len().min(rows as usize);
    &rest[..count]
}

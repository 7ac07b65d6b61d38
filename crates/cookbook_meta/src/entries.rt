//! The files that a manifest names.
ghost use Rattle.std.specs.Prelude.{◌≡◌, IfOk, Ok, OnOk};
ghost use Rattle.doc_tree.specs.Doc.{pairs_of};
ghost use Rattle.doc_tree.specs.Tree.{doc_of};
ghost use Rattle.cookbook_meta.specs.Entries as spec;
ghost use Rattle.cookbook_meta.specs.Faults.{then_do};
ghost use Rattle.cookbook_meta.specs.Outcomes.{Finds};

use crate::fault::Flaw;
use crate::parts::{checksum_at, text_at, text_or};
use crate::put::put_text;
use doc_tree::{Fields, Listed, NoMemory, Text, Tree};
use std::alloc::Global;

/// A file that a manifest names: its segment, its name in the segment, its path in the cookbook, the checksum of its
/// bytes, and to which hosts it is given.
#[derive(Debug, PartialEq, Eq, Drop)]
pub struct Entry {
    pub segment: Text,
    pub name: Text,
    pub path: Text,
    pub checksum: Text,
    pub specificity: Text,
}

impl Entry {
    /// An entry whose texts are empty. It takes no memory.
    fn blank(alloc: Global) -> Entry {
        Entry {
            segment: Text::of(String::new(alloc)),
            name: Text::of(String::new(alloc)),
            path: Text::of(String::new(alloc)),
            checksum: Text::of(String::new(alloc)),
            specificity: Text::of(String::new(alloc)),
        }
    }
}

/// The files of a manifest: by segments, in the order of the nine, and in a segment in the order sent.
pub type Entries = Listed<Entry>;

/// The entry of a segment that a tree gives.
pub(crate) fn entry_of(alloc: Global, segment: &str, tree: &Tree) -> Result<Entry, Flaw>
    ensures { Finds result (spec.entry_of segment.now (doc_of tree.now)) }
{
    match tree {
        Tree::Dict(body) => entry_in(alloc, segment, body),
        Tree::Null | Tree::Bool(_) | Tree::Whole(_) | Tree::Words(_) | Tree::List(_) => {
            Err(Flaw::WrongKind)
        }
    }
}

fn entry_in(alloc: Global, segment: &str, body: &Fields) -> Result<Entry, Flaw>
    ensures { Finds result (spec.entry_in segment.now (pairs_of body.now)) }
{
    let mut entry = Entry::blank(alloc);
    fill_entry(alloc, segment, body, &mut entry)?;
    Ok(entry)
}

/// Writes what a Dict tells into an entry.
fn fill_entry(alloc: Global, segment: &str, body: &Fields, entry: &mut Entry) -> Result<(), Flaw>
    ensures { Finds (then_do result (λ done. Ok entry.new)) (spec.entry_in segment.now (pairs_of body.now)) }
{
    let name = text_at(body, "name")?;
    let path = text_at(body, "path")?;
    let checksum = checksum_at(body, "checksum")?;
    let specificity = text_or("default", body.get("specificity"))?;
    write(alloc, &mut entry.segment, segment)?;
    write(alloc, &mut entry.name, name)?;
    write(alloc, &mut entry.path, path)?;
    write(alloc, &mut entry.checksum, checksum)?;
    write(alloc, &mut entry.specificity, specificity)?;
    Ok(())
}

/// Writes this text in place of what was there.
fn write(alloc: Global, to: &mut Text, text: &str) -> Result<(), NoMemory>
    ensures { OnOk result (to.new ≡ text.now) }
{
    *to = Text::from_str(alloc, text)?;
    Ok(())
}

/// An entry as it is stored.
pub(crate) fn entry_tree(alloc: Global, entry: &Entry) -> Result<Tree, NoMemory>
    ensures { IfOk result (λ t. doc_of t ≡ spec.entry_doc entry.now) }
{
    let mut made = Fields::with_capacity(alloc, 4)?;
    put_text(alloc, &mut made, "checksum", entry.checksum.as_str())?;
    put_text(alloc, &mut made, "name", entry.name.as_str())?;
    put_text(alloc, &mut made, "path", entry.path.as_str())?;
    put_text(alloc, &mut made, "specificity", entry.specificity.as_str())?;
    Ok(Tree::Dict(made))
}

//! Documents kept as their compact texts.
ghost use Rattle.doc_tree.specs.Part.{at};
ghost use Rattle.doc_tree.specs.Tree.{doc_of};
ghost use Rattle.doc_tree.specs.Valid.{IsDoc};
ghost use Rattle.doc_tree.specs.Written.{text};
ghost use Rattle.std.specs.Prelude.{◌≡◌, IfOk, option_map};

use crate::find::goes_to;
use crate::read::read_doc;
use doc_tree::{Bytes, NoMemory, Text, Tree, json_text};
use json::{Reader, Scratch};
use std::alloc::Global;
use std::marker::Model;

/// A document, kept as its compact JSON text, which takes no more room than its bytes. Contracts see the document.
#[derive(Drop)]
pub struct CompactJson {
    written: Text,
}

impl Model for CompactJson {
    ghost use Rattle.doc_tree.specs.Doc.{Doc};
    ghost use Rattle.doc_tree.specs.DocCode.{doc_code};
    ghost use Rattle.compact_json.specs.Compact.{spelled, IsCompact};

    ghost Value = { Doc };

    ghost coded = { doc_code };

    ghost view = { λ c. spelled c.written };

    ghost invariant = { λ c. IsCompact c.written };
}

impl CompactJson {
    /// The compact text of a tree.
    pub fn of(alloc: Global, tree: &Tree) -> Result<CompactJson, NoMemory>
        ensures { IfOk result (λ kept. kept ≡ doc_of tree.now) }
    {
        // What every tree keeps makes its text one that spells the same document.
        tree.known();
        Ok(CompactJson {
            written: written(alloc, tree)?,
        })
    }

    /// The compact text, as a slice that borrows it.
    pub fn as_bytes(&self) -> &[u8]
        ensures { result.now ≡ text self.now }
    {
        self.written.as_bytes()
    }

    /// The compact text, in bytes of their own.
    pub fn bytes(&self, alloc: Global) -> Result<Bytes, NoMemory>
        ensures { IfOk result (λ bytes. bytes ≡ text self.now) }
    {
        Bytes::from_slice(alloc, self.as_bytes())
    }

    /// The same document, in a text of its own.
    pub fn copy(&self, alloc: Global) -> Result<CompactJson, NoMemory>
        ensures { IfOk result (λ kept. kept ≡ self.now) }
    {
        Ok(CompactJson {
            written: self.written.copy(alloc)?,
        })
    }

    /// Says what every document keeps: its numbers are whole, its texts are UTF-8, and the keys of each of its dicts
    /// come once and in order. It does nothing.
    pub fn known(&self)
        ensures { IsDoc self.now }
    {
        let _written = self.written.as_str();
    }

    /// The tree of the document. Beside it this takes room as long as the text, while it reads.
    pub fn tree(&self, alloc: Global) -> Result<Tree, NoMemory>
        ensures { IfOk result (λ tree. doc_of tree ≡ self.now) }
    {
        let mut scratch = Scratch::new(alloc);
        let mut reader = Reader::new(self.written.as_str(), &mut scratch)?;
        read_doc(alloc, &mut reader)
    }

    /// The tree of the part at a path of keys, or `None` exactly where there is none. The empty path is the whole
    /// document. Of the rest no tree is made: it is passed over as text. Beside the tree this takes room as long as the
    /// text, while it reads.
    pub fn part(&self, alloc: Global, path: &[Text]) -> Result<Option<Tree>, NoMemory>
        ensures { IfOk result (λ part. option_map doc_of part ≡ at path.now self.now) }
    {
        let mut scratch = Scratch::new(alloc);
        let mut reader = Reader::new(self.written.as_str(), &mut scratch)?;
        if !goes_to(&mut reader, path, self.written.len()) {
            return Ok(None);
        }
        Ok(Some(read_doc(alloc, &mut reader)?))
    }
}

/// The compact text of a tree, without spare room.
fn written(alloc: Global, tree: &Tree) -> Result<Text, NoMemory>
    ensures { IfOk result (λ written. written ≡ text (doc_of tree.now)) }
{
    let bytes = json_text(alloc, tree)?;
    match str::from_utf8(bytes.as_slice()) {
        Ok(written) => Text::from_str(alloc, written),
        Err(_) => unreachable!(),
    }
}

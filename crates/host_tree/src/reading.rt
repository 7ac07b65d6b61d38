//! An image is read.
ghost use Rattle.std.specs.Prelude.{◌≡◌, ◌↔◌, ◌⊎◌, IfOk, IsTrue, None, cond, take, option_copied};
ghost use Rattle.doc_tree.specs.Tree.{doc_of, pair_of};
ghost use Rattle.doc_tree.specs.Valid.{InOrder};
ghost use Rattle.std.specs.Map.{keys_of};
ghost use Rattle.host_tree.specs.Acts.{IsReached};
ghost use Rattle.host_tree.specs.Documents.{image_of, host_in, pairs_host, form_in, parent_of, is_slash, is_directory, has_parent};
ghost use Rattle.host_tree.specs.Entries.{IsHost};
ghost use Rattle.host_tree.specs.Outcomes.{Reads};
ghost use Rattle.host_tree.specs.Paths.{EndsPrefix};

use crate::entry::Entry;
use crate::image::ImageHost;
use crate::image_fault::ImageFault;
use crate::paths::{Path, is_normal};
use crate::spelling::entry_in;
use doc_tree::{Field, Fields, NoMemory, Text, Tree};
use std::alloc::Global;

impl ImageHost {
    /// The host that an image spells: a dict from normal paths to `{"type":"file","content":TEXT,"mode":M}`,
    /// `{"type":"directory","mode":M}` or `{"type":"link","to":TEXT}` with no further keys, where `M` is four octal
    /// digits, and where each path's parent is the root or a directory of the image.
    ///
    /// [`ImageFault::BadImage`] comes exactly where the tree is no such image. It has the path of the first entry, in
    /// the order of bytes, that hasn't its form, and no path where the tree is no dict.
    pub fn read(alloc: Global, tree: &Tree) -> Result<ImageHost, ImageFault>
        ensures reads { Reads result (host_in (doc_of tree.now)) }
        ensures image { IfOk result (λ host. image_of host ≡ doc_of tree.now) }
    {
        match tree {
            Tree::Dict(fields) => read_fields(alloc, fields),
            _ => Err(ImageFault::BadImage(Text::from_str(alloc, "")?)),
        }
    }

    /// Whether each proper prefix of a path is a directory, as each change of the path asks.
    pub fn reaches(&self, alloc: Global, path: &Path) -> Result<bool, NoMemory>
        ensures { IfOk result (λ answer. IsTrue answer ↔ IsReached self.now path.now) }
    {
        let _entries = &self.entries;
        let answer = self.has_parent(alloc, path.as_str())?;
        Ok(answer)
    }

    /// The entry that a field of an image spells, or `None` where it hasn't its form.
    fn entry_of(&self, alloc: Global, field: &Field) -> Result<Option<Entry>, NoMemory>
        ensures form { IfOk result (λ found. found ≡ form_in self.now (pair_of field.now)) }
        ensures host { IsHost self.now }
    {
        let _entries = &self.entries;
        let path = field.key.as_str();
        if is_normal(path) && self.has_parent(alloc, path)? {
            entry_in(alloc, &field.tree)
        } else {
            Ok(None)
        }
    }

    /// Whether the parent of a path is the root or a directory.
    fn has_parent(&self, alloc: Global, path: &str) -> Result<bool, NoMemory>
        ensures { IfOk result (λ answer. answer ≡ has_parent self.now path.now) }
    {
        let end = last_slash(path.as_bytes());
        if end == 0 {
            return Ok(true);
        }
        let parent = Text::from_str(alloc, path.split_at(end).0)?;
        Ok(is_directory(self.held(&parent)))
    }
}

fn read_fields(alloc: Global, fields: &Fields) -> Result<ImageHost, ImageFault>
    ensures reads { Reads result (pairs_host fields.now) }
    ensures order { InOrder (keys_of fields.now) }
{
    let mut host = ImageHost::new(alloc);
    for field in fields.as_slice() {
        match host.entry_of(alloc, field)? {
            Some(entry) => host.put(alloc, &field.key, entry)?,
            None => return Err(ImageFault::BadImage(field.key.copy(alloc)?)),
        }
    }
    Ok(host)
}

/// Where the last slash of a path stands, or 0 where there is none.
fn last_slash(path: &[u8]) -> usize
    ensures parent { take result path.now ≡ parent_of path.now }
    ensures ends { (result ≡ 0) ⊎ EndsPrefix path.now result }
{
    let mut last = 0;
    for end in 0..path.len() {
        last = later(path[end], end, last);
    }
    last
}

fn later(byte: u8, end: usize, last: usize) -> usize
    ensures { result ≡ cond (is_slash byte) end last }
{
    if byte == b'/' { end } else { last }
}

fn is_directory(entry: Option<&Entry>) -> bool
    ensures { result ≡ is_directory (option_copied entry.entry) }
{
    match entry {
        Some(Entry::Directory { mode: _ }) => true,
        _ => false,
    }
}

//! A host in memory.
ghost use Rattle.std.specs.Prelude.{◌≡◌, ℕ, List, true, IsTrue, IfOk, OnOk, OnErr, Some, option_copied, option_map, cond};
ghost use Rattle.std.specs.BTreeMap.{get, is_at};
ghost use Rattle.std.specs.Cmp.Lexicographic.{slice_cmp};
ghost use Rattle.std.specs.Ordering.{nat_cmp};
ghost use Rattle.std.specs.FinMap as finite;
ghost use Rattle.host_tree.specs.Acts.{written, moded, with_mode, without};
ghost use Rattle.host_tree.specs.Entries.{at, has_below, IsHost};
ghost use Rattle.host_tree.specs.Image.{CanPut, HasNoneBelow, IsLastBelow, LosesBelow};
ghost use Rattle.host_tree.specs.Paths.{is_normal};
ghost use Rattle.host_tree.specs.declared.entry.Entry.TheVariants as entry;

use crate::below::Ends;
use crate::caps::Caps;
use crate::entry::Entry;
use crate::fault::HostFault;
use crate::host::Host;
use crate::modes::Mode;
use crate::paths::Path;
use crate::seen::Seen;
use doc_tree::{Bytes, NoMemory, Text};
use std::alloc::Global;
use std::collections::BTreeMap;
use std::marker::Model;

/// A host in memory, which a JSON image spells. It offers links and modes, and never fails.
///
/// Contracts see it as its entries by their paths. A look and a change take as many comparisons of paths as the
/// logarithm of the number of entries, and removing a directory as many for each entry that goes with it.
#[derive(Drop)]
pub struct ImageHost {
    pub(crate) entries: BTreeMap<Text, Entry>,
}

impl Model for ImageHost {
    ghost use Rattle.host_tree.specs.Entries.{Entries, entries_code, IsHost};
    ghost use Rattle.host_tree.specs.Image.{kept_in};

    ghost Value = { Entries };

    ghost coded = { entries_code };

    ghost view = { λ h. kept_in h.entries };

    ghost invariant = { λ h. IsHost (kept_in h.entries) };
}

impl ImageHost {
    /// The host without entries, without memory.
    pub fn new(alloc: Global) -> ImageHost
        ensures { result ≡ finite.empty }
    {
        ImageHost {
            entries: BTreeMap::new(alloc),
        }
    }

    /// What stands at a path, where something does. It takes no memory.
    pub fn held(&self, path: &Text) -> Option<&Entry>
        ensures value { option_copied result ≡ at self.now path.now }
        ensures host { IsHost self.now }
    {
        self.entries.get(path)
    }

    /// Whether something stands below a path.
    fn has_below(&self, alloc: Global, path: &Path) -> Result<bool, NoMemory>
        ensures { IfOk result (λ answer. answer ≡ has_below self.now path.now) }
    {
        let ends = Ends::below(alloc, path)?;
        Ok(self.entries.range(&ends.from..&ends.to).next().is_some())
    }

    /// The last of what stands below a path, or `None` where nothing does.
    fn last_below(&self, alloc: Global, ends: &Ends) -> Result<Option<Text>, NoMemory>
        ensures { IfOk result (IsLastBelow self.now ends.now) }
    {
        match self.entries.range(&ends.from..&ends.to).next_back() {
            Some((path, _)) => Ok(Some(path.copy(alloc)?)),
            None => Ok(None),
        }
    }

    /// Puts an entry at a path, in place of what stands there.
    pub(crate) fn put(&mut self, alloc: Global, path: &Text, entry: Entry) -> Result<(), NoMemory>
        requires normal { IsTrue (is_normal path.now) }
        requires fits { CanPut self.old path.now entry }
        ensures ok { OnOk result (self.new ≡ finite.insert self.old path.now entry) }
        ensures err { OnErr result (self.new ≡ self.old) }
    {
        let path = path.copy(alloc)?;
        self.entries.insert(path, entry)?;
        Ok(())
    }
}

impl ImageHost {
    /// The mode of a file that is written at a path: that of the file that stands there, else 0644.
    fn file_mode(&self, path: &Path) -> Mode
        ensures { (content : List ℕ) → written content (at self.now path.now) ≡ entry.File content result }
    {
        match self.held(path.as_text()) {
            Some(Entry::File { content: _, mode }) => *mode,
            _ => Mode::known(0o644),
        }
    }

    /// Sets the mode at a path, where something stands that has one.
    fn change_mode(&mut self, path: &Path, mode: Mode)
        ensures { self.new ≡ with_mode path.now mode self.old }
    {
        put_mode_at(&mut self.entries, path.as_text(), mode);
    }

    /// Takes away what stands at a path and has nothing below it.
    fn take(&mut self, path: &Text)
        requires { HasNoneBelow self.old path.now }
        ensures { self.new ≡ finite.remove self.old path.now }
    {
        self.entries.remove(path);
    }

    /// Takes away what is below a path, from the last to the first, so that what is left is a host after each step.
    fn take_below(&mut self, alloc: Global, ends: &Ends) -> Result<(), NoMemory>
        ensures part { LosesBelow ends.now self.old self.new }
        ensures all { OnOk result (HasNoneBelow self.new ends.now) }
    {
        while let Some(last) = self.last_below(alloc, ends)? {
            self.take(&last);
        }
        Ok(())
    }

    /// Takes away what stands at a path, with all that is below it.
    fn take_all(&mut self, alloc: Global, path: &Path) -> Result<(), NoMemory>
        ensures ok { OnOk result (self.new ≡ without path.now self.old) }
        ensures err { OnErr result (LosesBelow path.now self.old self.new) }
        ensures host { IsHost self.old }
    {
        let _entries = &self.entries;
        let ends = Ends::below(alloc, path)?;
        self.take_below(alloc, &ends)?;
        self.take(path.as_text());
        Ok(())
    }
}

fn put_mode_at(entries: &mut BTreeMap<Text, Entry>, path: &Text, mode: Mode)
    ensures { (q : List ℕ) → get (slice_cmp nat_cmp) entries.new q ≡ cond (is_at (slice_cmp nat_cmp path.now) q) (option_map (moded mode) (get (slice_cmp nat_cmp) entries.old path.now)) (get (slice_cmp nat_cmp) entries.old q) }
{
    match entries.get_mut(path) {
        Some(entry) => put_mode(entry, mode),
        None => {}
    }
}

fn put_mode(entry: &mut Entry, mode: Mode)
    ensures { entry.new ≡ moded mode entry.old }
{
    match entry {
        Entry::File {
            content: _,
            mode: held,
        } => *held = mode,
        Entry::Directory { mode: held } => *held = mode,
        Entry::Link { to: _ } => {}
    }
}

impl Host for ImageHost {
    ghost tells = { Some };

    ghost faults = { λ _. 0 };

    ghost offers = { λ _. record { links = true; modes = true } };

    fn caps(&self) -> Caps {
        Caps {
            links: true,
            modes: true,
        }
    }

    fn look(&mut self, alloc: Global, path: &Path) -> Result<Seen, HostFault> {
        match self.held(path.as_text()) {
            None => Ok(Seen::Absent),
            Some(Entry::File { content, mode }) => Ok(Seen::FileThere {
                content: Bytes::from_slice(alloc, content.as_bytes())?,
                mode: *mode,
            }),
            Some(Entry::Directory { mode }) => Ok(Seen::FolderThere {
                mode: *mode,
                empty: !self.has_below(alloc, path)?,
            }),
            Some(Entry::Link { to }) => Ok(Seen::LinkThere {
                to: to.copy(alloc)?,
            }),
        }
    }

    fn write_file(&mut self, alloc: Global, path: &Path, content: &Text) -> Result<(), HostFault> {
        let content = content.copy(alloc)?;
        let mode = self.file_mode(path);
        self.put(alloc, path.as_text(), Entry::File { content, mode })?;
        Ok(())
    }

    fn make_dir(&mut self, alloc: Global, path: &Path) -> Result<(), HostFault> {
        let mode = Mode::known(0o755);
        self.put(alloc, path.as_text(), Entry::Directory { mode })?;
        Ok(())
    }

    fn make_link(&mut self, alloc: Global, path: &Path, to: &Text) -> Result<(), HostFault> {
        let to = to.copy(alloc)?;
        self.put(alloc, path.as_text(), Entry::Link { to })?;
        Ok(())
    }

    fn set_mode(&mut self, _alloc: Global, path: &Path, mode: Mode) -> Result<(), HostFault> {
        self.change_mode(path, mode);
        Ok(())
    }

    fn remove(&mut self, alloc: Global, path: &Path) -> Result<(), HostFault> {
        self.take_all(alloc, path)?;
        Ok(())
    }
}

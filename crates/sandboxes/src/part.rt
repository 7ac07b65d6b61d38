//! What is kept for one organisation.
ghost use Rattle.std.specs.Prelude.{◌≡◌, ◌+◌, ◌<◌, ◌≤◌, ◌⊎◌, ◌↔◌, [], bytes_eq, IfOk, OnOk, IfErr, IfSome, MatchResult, Ok, Err, Some, None, option_map, option_copied};
ghost use Rattle.std.specs.FinMap as finite;
ghost use Rattle.std.specs.List.{list_any};
ghost use Rattle.indexmap.specs.IndexMap.{spare, values, IsUnique};
ghost use Rattle.sandboxes.specs.declared.fault.SandFault.TheVariants as fault;
ghost use Rattle.sandboxes.specs.Checksums.{checksum_of};
ghost use Rattle.sandboxes.specs.Sums.{lists};
ghost use Rattle.sandboxes.specs.Sandboxes.{nothing, id_or_end, begun, awaits, upload_fault, uploaded, with_file, missing_from, with_committed, committed, without, released, laid_file, laid_sandbox, laid_count};

use crate::checksum::Checksum;
use crate::fault::{Refused, SandFault};
use crate::hashed::Hashed;
use crate::id::sandbox_id;
use crate::maps::{add, put};
use crate::stored::Stored;
use crate::sums::Sums;
use doc_tree::{NoMemory, Text};
use indexmap::IndexMap;
use std::alloc::Global;
use std::marker::Model;

/// What is kept for one organisation: its files, its uncommitted sandboxes, and how many sandboxes
/// it has made. Contracts see finite maps, and the room that is left in both.
#[derive(Drop)]
pub struct Part {
    files: IndexMap<Checksum, Stored>,
    sandboxes: IndexMap<Checksum, Sums>,
    count: u64,
}

impl Model for Part {
    ghost use Rattle.sandboxes.specs.Files.{Kept, kept_code};

    ghost Value = { Kept };

    ghost coded = { kept_code };

    ghost use Rattle.std.specs.FinMap as finite;
    ghost use Rattle.indexmap.specs.IndexMap.{spare};
    ghost use Rattle.sandboxes.specs.Room.{smaller};
    ghost use Rattle.doc_tree.specs.Text.{text_cmp};
    ghost use Rattle.sandboxes.specs.Sandboxes.{AreNamed};

    ghost view = { λ p. record {
      holding = record { files = finite.from_entries p.files.entries; sandboxes = finite.from_entries p.sandboxes.entries; count = p.count };
      spare = smaller (spare p.files) (spare p.sandboxes);
    } };

    ghost invariant = { λ p. AreNamed (finite.from_entries p.files.entries) };
}

impl Part {
    /// Nothing, and no room. It takes no memory.
    pub fn none(alloc: Global) -> Part
        ensures { result.holding ≡ nothing }
    {
        Part {
            files: IndexMap::new(alloc),
            sandboxes: IndexMap::new(alloc),
            count: 0,
        }
    }

    /// Nothing, and room for at least `count` files, and as many sandboxes.
    pub fn with_room(alloc: Global, count: usize) -> Result<Part, NoMemory>
        ensures holding { IfOk result (λ part. part.holding ≡ nothing) }
        ensures spare { IfOk result (λ part. count ≤ part.spare) }
    {
        let mut part = Part::none(alloc);
        part.reserve(count).and(Ok(part))
    }

    /// Makes room for at least `count` further files, and as many sandboxes.
    pub fn reserve(&mut self, count: usize) -> Result<(), NoMemory>
        ensures holding { self.new.holding ≡ self.old.holding }
        ensures ok { OnOk result (count ≤ self.new.spare) }
        ensures spare { self.old.spare ≤ self.new.spare }
    {
        self.files.reserve(count)?;
        self.sandboxes.reserve(count)?;
        Ok(())
    }

    /// Begins a sandbox that lists these checksums. It takes no memory.
    pub fn begin(&mut self, org: &Text, sums: Sums) -> Result<Checksum, SandFault>
        requires { 0 < self.old.spare }
        ensures answer { result ≡ id_or_end org.now self.old.holding }
        ensures holding { self.new.holding ≡ begun org.now sums self.old.holding }
        ensures spare { self.old.spare ≤ self.new.spare + 1 }
    {
        let Some(count) = self.count.checked_add(1) else {
            return Err(SandFault::CountAtEnd);
        };
        let id = sandbox_id(org, count);
        put(&mut self.sandboxes, id, sums);
        self.count = count;
        Ok(id)
    }

    /// Whether a sandbox lists a checksum.
    pub fn awaits(&self, sum: &Checksum) -> bool
        ensures { result ≡ awaits self.now.holding sum.now }
    {
        any_lists(&self.sandboxes, sum)
    }

    /// Takes a file that a sandbox lists under the checksum that was asked for. It takes no memory.
    pub fn upload(&mut self, asked: Checksum, file: Hashed) -> Result<(), Refused>
        requires { 0 < self.old.spare }
        ensures answer { MatchResult result
            (λ _. upload_fault asked file self.old.holding ≡ None)
            (λ refused. (upload_fault asked file self.old.holding ≡ Some refused.fault) × (refused.file ≡ file)) }
        ensures holding { self.new.holding ≡ uploaded asked file self.old.holding }
        ensures spare { self.old.spare ≤ self.new.spare + 1 }
    {
        if !self.awaits(&asked) {
            let fault = SandFault::NoSandbox;
            return Err(Refused { file, fault });
        }
        let found = file.digest();
        if found != asked {
            let fault = SandFault::DigestDiffers { asked, found };
            return Err(Refused { file, fault });
        }
        self.keep(asked, file);
        Ok(())
    }

    // Keeps a file that isn't committed, unless one of its checksum is there.
    fn keep(&mut self, sum: Checksum, file: Hashed)
        requires room { 0 < self.old.spare }
        requires named { checksum_of file ≡ sum }
        ensures holding { self.new.holding ≡ with_file sum file self.old.holding }
        ensures spare { self.old.spare ≤ self.new.spare + 1 }
    {
        if !self.files.contains_key(&sum) {
            let committed = false;
            put(&mut self.files, sum, Stored { file, committed });
        }
    }

    /// The checksums of a sandbox of which no file is there, in order.
    pub fn missing(&self, alloc: Global, id: &Checksum) -> Result<Sums, SandFault>
        ensures missing { IfOk result (λ sums. missing_from self.now.holding id.now ≡ Some sums) }
        ensures faults { IfErr result (λ cause. (cause ≡ fault.NoSandbox) ⊎ (cause ≡ fault.NoMemory)) }
        ensures absent { (result ≡ Err fault.NoSandbox) ↔ (finite.get self.now.holding.sandboxes id.now ≡ None) }
    {
        match self.sandboxes.get(id) {
            Some(sums) => Ok(sums.without(alloc, &self.files)?),
            None => Err(SandFault::NoSandbox),
        }
    }

    /// Marks the files of a sandbox as committed, and ends it.
    pub fn commit(&mut self, id: &Checksum)
        requires { missing_from self.old.holding id.now ≡ Some [] }
        ensures holding { self.new.holding ≡ committed id.now self.old.holding }
        ensures spare { self.old.spare ≤ self.new.spare }
    {
        if let Some(sums) = self.sandboxes.swap_remove(id) {
            mark_committed(&mut self.files, &sums);
        }
    }

    /// Drops these files, where they are there. It takes no memory.
    pub fn release(&mut self, sums: &Sums)
        ensures holding { self.new.holding ≡ released sums.now self.old.holding }
        ensures spare { self.old.spare ≤ self.new.spare }
    {
        drop_files(&mut self.files, sums);
    }

    /// Puts a file in, committed or not, in place of one of its checksum. It takes no memory.
    pub fn lay_file(&mut self, file: Hashed, committed: bool)
        requires { 0 < self.old.spare }
        ensures holding { self.new.holding ≡ laid_file file committed self.old.holding }
        ensures spare { self.old.spare ≤ self.new.spare + 1 }
    {
        let sum = file.digest();
        put(&mut self.files, sum, Stored { file, committed });
    }

    /// Puts a sandbox in, in place of one of its id. It takes no memory.
    pub fn lay_sandbox(&mut self, id: Checksum, sums: Sums)
        requires { 0 < self.old.spare }
        ensures holding { self.new.holding ≡ laid_sandbox id sums self.old.holding }
        ensures spare { self.old.spare ≤ self.new.spare + 1 }
    {
        put(&mut self.sandboxes, id, sums);
    }

    /// Puts in how many sandboxes were made. It takes no memory.
    pub fn lay_count(&mut self, count: u64)
        ensures holding { self.new.holding ≡ laid_count count self.old.holding }
        ensures spare { self.new.spare ≡ self.old.spare }
    {
        self.count = count;
    }

    /// The file of a checksum, and whether it is committed.
    pub fn file(&self, sum: &Checksum) -> Option<(&Hashed, bool)>
        ensures file { option_map (λ found. record { file = found.0.now; committed = found.1 }) result ≡ finite.get self.now.holding.files sum.now }
        ensures named { IfSome result (λ found. checksum_of found.0.now ≡ sum.now) }
    {
        match self.files.get(sum) {
            Some(stored) => Some((&stored.file, stored.committed)),
            None => None,
        }
    }

    /// The checksums that a sandbox lists.
    pub fn listed(&self, id: &Checksum) -> Option<&Sums>
        ensures { option_copied result ≡ finite.get self.now.holding.sandboxes id.now }
    {
        self.sandboxes.get(id)
    }

    /// How many sandboxes were made.
    pub fn count(&self) -> u64
        ensures { result ≡ self.now.holding.count }
    {
        self.count
    }

    /// An equal part with memory of its own, and room for no more.
    pub fn copy(&self, alloc: Global) -> Result<Part, NoMemory>
        ensures { IfOk result (λ part. part.holding ≡ self.now.holding) }
    {
        Ok(Part {
            files: copy_files(alloc, &self.files)?,
            sandboxes: copy_sandboxes(alloc, &self.sandboxes)?,
            count: self.count,
        })
    }
}

fn any_lists(sandboxes: &IndexMap<Checksum, Sums>, sum: &Checksum) -> bool
    ensures lists { result ≡ list_any (λ sums. lists sums sum.now) (values sandboxes.now) }
    ensures unique { IsUnique bytes_eq sandboxes.now }
{
    for (_, sums) in sandboxes {
        if sums.contains(sum) {
            return true;
        }
    }
    false
}

fn mark_committed(files: &mut IndexMap<Checksum, Stored>, sums: &Sums)
    ensures files { finite.from_entries files.new.entries ≡ with_committed sums.now (finite.from_entries files.old.entries) }
    ensures room { spare files.new ≡ spare files.old }
{
    for sum in sums.as_slice() {
        if let Some(stored) = files.get_mut(sum) {
            stored.committed = true;
        }
    }
}

fn drop_files(files: &mut IndexMap<Checksum, Stored>, sums: &Sums)
    ensures files { finite.from_entries files.new.entries ≡ without sums.now (finite.from_entries files.old.entries) }
    ensures room { spare files.old ≤ spare files.new }
{
    for sum in sums.as_slice() {
        let _ = files.swap_remove(sum);
    }
}

fn copy_files(
    alloc: Global,
    files: &IndexMap<Checksum, Stored>,
) -> Result<IndexMap<Checksum, Stored>, NoMemory>
    ensures { IfOk result (λ copy. copy.entries ≡ files.now.entries) }
{
    let mut copy = IndexMap::with_capacity(alloc, files.len())?;
    add_files(alloc, files, &mut copy).and(Ok(copy))
}

// Adds a copy of each file to a map that has none.
fn add_files(
    alloc: Global,
    files: &IndexMap<Checksum, Stored>,
    copy: &mut IndexMap<Checksum, Stored>,
) -> Result<(), NoMemory>
    requires { copy.old.entries ≡ [] }
    ensures { OnOk result (copy.new.entries ≡ files.now.entries) }
{
    for (sum, stored) in files {
        add(copy, *sum, stored.copy(alloc)?)?;
    }
    Ok(())
}

fn copy_sandboxes(
    alloc: Global,
    sandboxes: &IndexMap<Checksum, Sums>,
) -> Result<IndexMap<Checksum, Sums>, NoMemory>
    ensures { IfOk result (λ copy. copy.entries ≡ sandboxes.now.entries) }
{
    let mut copy = IndexMap::with_capacity(alloc, sandboxes.len())?;
    add_sandboxes(alloc, sandboxes, &mut copy).and(Ok(copy))
}

// Adds a copy of each sandbox to a map that has none.
fn add_sandboxes(
    alloc: Global,
    sandboxes: &IndexMap<Checksum, Sums>,
    copy: &mut IndexMap<Checksum, Sums>,
) -> Result<(), NoMemory>
    requires { copy.old.entries ≡ [] }
    ensures { OnOk result (copy.new.entries ≡ sandboxes.now.entries) }
{
    for (id, sums) in sandboxes {
        add(copy, *id, sums.copy(alloc)?)?;
    }
    Ok(())
}

//! The files and sandboxes of organisations.
ghost use Rattle.std.specs.Prelude.{◌≡◌, ◌+◌, ◌<◌, ◌≤◌, ◌⊎◌, ◌↔◌, ℕ, List, [], IfOk, OnOk, IfErr, IfSome, MatchResult, Ok, Err, Some, None, option_map, option_copied};
ghost use Rattle.std.specs.FinMap as finite;
ghost use Rattle.sandboxes.specs.declared.fault.SandFault.TheVariants as fault;
ghost use Rattle.sandboxes.specs.Checksums.{checksum_of};
ghost use Rattle.sandboxes.specs.Sandboxes.{nothing, id_or_end, begun, awaits, upload_fault, uploaded, missing_from, committed, released, laid_file, laid_sandbox, laid_count};
ghost use Rattle.sandboxes.specs.Files.{holding_of, spare_of, HasPart, OthersStay};

use crate::checksum::Checksum;
use crate::fault::{Refused, SandFault};
use crate::hashed::Hashed;
use crate::maps::add;
use crate::part::Part;
use crate::sums::Sums;
use doc_tree::{NoMemory, Text};
use indexmap::IndexMap;
use std::alloc::Global;
use std::marker::Model;

/// What is kept for each organisation, by their names.
type Parts = IndexMap<Text, Part>;

/// The files and uncommitted sandboxes of organisations, and how many sandboxes each has made. What
/// a call does for one organisation leaves what every other has as it was. Contracts see what is kept
/// by the names of the organisations; one that was never named has nothing.
#[derive(Drop)]
pub struct Files {
    parts: Parts,
}

impl Model for Files {
    ghost use Rattle.std.specs.Coded.{coded_list, coded_ℕ};
    ghost use Rattle.std.specs.FinMap as finite;
    ghost use Rattle.sandboxes.specs.Files.{KeptByName, kept_code};

    ghost Value = { KeptByName };

    ghost coded = { finite.code (coded_list coded_ℕ) kept_code };

    ghost view = { λ f. finite.from_entries f.parts.entries };
}

impl Files {
    /// Nothing of any organisation. It takes no memory.
    pub fn none(alloc: Global) -> Files
        ensures { result ≡ finite.empty }
    {
        Files {
            parts: IndexMap::new(alloc),
        }
    }

    /// Makes room for at least `count` further files of an organisation, and as many sandboxes.
    pub fn reserve(&mut self, alloc: Global, org: &Text, count: usize) -> Result<(), NoMemory>
        ensures holding { holding_of self.new org.now ≡ holding_of self.old org.now }
        ensures ok { OnOk result (count ≤ spare_of self.new org.now) }
        ensures spare { spare_of self.old org.now ≤ spare_of self.new org.now }
        ensures others { OthersStay org.now self.old self.new }
    {
        match self.parts.get_mut(org) {
            Some(part) => part.reserve(count),
            None => self.add_part(alloc, org, count),
        }
    }

    // An empty part with room, for an organisation that has none.
    fn add_part(&mut self, alloc: Global, org: &Text, count: usize) -> Result<(), NoMemory>
        requires { finite.get self.old org.now ≡ None }
        ensures holding { holding_of self.new org.now ≡ holding_of self.old org.now }
        ensures ok { OnOk result (count ≤ spare_of self.new org.now) }
        ensures spare { spare_of self.old org.now ≤ spare_of self.new org.now }
        ensures others { OthersStay org.now self.old self.new }
    {
        let name = org.copy(alloc)?;
        let part = Part::with_room(alloc, count)?;
        drop(self.parts.insert(name, part)?);
        Ok(())
    }

    /// Begins a sandbox of an organisation, which lists these checksums, and gives its id: the MD5 of
    /// the organisation's name, a line feed and the count after it rose. A sandbox that has this id is
    /// replaced. At the end of the count nothing changes, and the checksums are dropped. It takes no
    /// memory.
    pub fn begin(&mut self, org: &Text, sums: Sums) -> Result<Checksum, SandFault>
        requires { 0 < spare_of self.old org.now }
        ensures answer { result ≡ id_or_end org.now (holding_of self.old org.now) }
        ensures holding { holding_of self.new org.now ≡ begun org.now sums (holding_of self.old org.now) }
        ensures spare { spare_of self.old org.now ≤ spare_of self.new org.now + 1 }
        ensures others { OthersStay org.now self.old self.new }
    {
        match self.parts.get_mut(org) {
            Some(part) => part.begin(org, sums),
            None => unreachable!(),
        }
    }

    /// Takes a file for the sandboxes of an organisation that list the checksum that was asked for. It
    /// is handed back where no uncommitted sandbox of the organisation lists this, or else where its
    /// own checksum is another. A file that is there stays as it is. It takes no memory.
    pub fn upload(&mut self, org: &Text, asked: Checksum, file: Hashed) -> Result<(), Refused>
        requires { 0 < spare_of self.old org.now }
        ensures answer { MatchResult result
            (λ _. upload_fault asked file (holding_of self.old org.now) ≡ None)
            (λ refused. (upload_fault asked file (holding_of self.old org.now) ≡ Some refused.fault) × (refused.file ≡ file)) }
        ensures holding { holding_of self.new org.now ≡ uploaded asked file (holding_of self.old org.now) }
        ensures spare { spare_of self.old org.now ≤ spare_of self.new org.now + 1 }
        ensures others { OthersStay org.now self.old self.new }
    {
        match self.parts.get_mut(org) {
            Some(part) => part.upload(asked, file),
            None => unreachable!(),
        }
    }

    /// The checksums of a sandbox of which its organisation has no file, in the order of their bytes.
    pub fn missing(&self, alloc: Global, org: &Text, id: &Checksum) -> Result<Sums, SandFault>
        ensures missing { IfOk result (λ sums. missing_from (holding_of self.now org.now) id.now ≡ Some sums) }
        ensures faults { IfErr result (λ cause. (cause ≡ fault.NoSandbox) ⊎ (cause ≡ fault.NoMemory)) }
        ensures absent { (result ≡ Err fault.NoSandbox) ↔ (finite.get (holding_of self.now org.now).sandboxes id.now ≡ None) }
    {
        match self.parts.get(org) {
            Some(part) => part.missing(alloc, id),
            None => Err(SandFault::NoSandbox),
        }
    }

    /// Marks the files of a sandbox as committed, and ends it. It takes no memory.
    pub fn commit(&mut self, org: &Text, id: &Checksum)
        requires { missing_from (holding_of self.old org.now) id.now ≡ Some [] }
        ensures holding { holding_of self.new org.now ≡ committed id.now (holding_of self.old org.now) }
        ensures spare { spare_of self.old org.now ≤ spare_of self.new org.now }
        ensures others { OthersStay org.now self.old self.new }
    {
        match self.parts.get_mut(org) {
            Some(part) => part.commit(id),
            None => unreachable!(),
        }
    }

    /// Drops these files of an organisation, where it has them. It takes no memory.
    pub fn release(&mut self, org: &Text, sums: &Sums)
        ensures holding { holding_of self.new org.now ≡ released sums.now (holding_of self.old org.now) }
        ensures spare { spare_of self.old org.now ≤ spare_of self.new org.now }
        ensures others { OthersStay org.now self.old self.new }
    {
        let Some(part) = self.parts.get_mut(org) else {
            return;
        };
        part.release(sums);
    }

    /// Puts in a file that was kept for an organisation, committed or not, in place of one of its
    /// checksum. It takes no memory.
    pub fn lay_file(&mut self, org: &Text, file: Hashed, committed: bool)
        requires { 0 < spare_of self.old org.now }
        ensures holding { holding_of self.new org.now ≡ laid_file file committed (holding_of self.old org.now) }
        ensures spare { spare_of self.old org.now ≤ spare_of self.new org.now + 1 }
        ensures others { OthersStay org.now self.old self.new }
    {
        match self.parts.get_mut(org) {
            Some(part) => part.lay_file(file, committed),
            None => unreachable!(),
        }
    }

    /// Puts in an uncommitted sandbox that was kept for an organisation, in place of one of its id. It
    /// takes no memory.
    pub fn lay_sandbox(&mut self, org: &Text, id: Checksum, sums: Sums)
        requires { 0 < spare_of self.old org.now }
        ensures holding { holding_of self.new org.now ≡ laid_sandbox id sums (holding_of self.old org.now) }
        ensures spare { spare_of self.old org.now ≤ spare_of self.new org.now + 1 }
        ensures others { OthersStay org.now self.old self.new }
    {
        match self.parts.get_mut(org) {
            Some(part) => part.lay_sandbox(id, sums),
            None => unreachable!(),
        }
    }

    /// Puts in how many sandboxes an organisation has made, in place of the count that is there. It
    /// takes no memory. For the organisation something is there, as after `reserve` for one file or more.
    pub fn lay_count(&mut self, org: &Text, count: u64)
        requires { HasPart self.old org.now }
        ensures holding { holding_of self.new org.now ≡ laid_count count (holding_of self.old org.now) }
        ensures spare { spare_of self.new org.now ≡ spare_of self.old org.now }
        ensures others { OthersStay org.now self.old self.new }
    {
        match self.parts.get_mut(org) {
            Some(part) => part.lay_count(count),
            None => unreachable!(),
        }
    }

    /// The file of a checksum that an organisation has, and whether it is committed.
    pub fn file(&self, org: &Text, sum: &Checksum) -> Option<(&Hashed, bool)>
        ensures file { option_map (λ found. record { file = found.0.now; committed = found.1 }) result ≡ finite.get (holding_of self.now org.now).files sum.now }
        ensures named { IfSome result (λ found. checksum_of found.0.now ≡ sum.now) }
    {
        match self.parts.get(org) {
            Some(part) => part.file(sum),
            None => None,
        }
    }

    /// The checksums that an uncommitted sandbox of an organisation lists.
    pub fn listed(&self, org: &Text, id: &Checksum) -> Option<&Sums>
        ensures { option_copied result ≡ finite.get (holding_of self.now org.now).sandboxes id.now }
    {
        match self.parts.get(org) {
            Some(part) => part.listed(id),
            None => None,
        }
    }

    /// Whether an uncommitted sandbox of an organisation lists a checksum. It looks through the
    /// organisation's sandboxes, in each by halves.
    pub fn awaited(&self, org: &Text, sum: &Checksum) -> bool
        ensures { result ≡ awaits (holding_of self.now org.now) sum.now }
    {
        match self.parts.get(org) {
            Some(part) => part.awaits(sum),
            None => false,
        }
    }

    /// How many sandboxes an organisation has made.
    pub fn count(&self, org: &Text) -> u64
        ensures { result ≡ (holding_of self.now org.now).count }
    {
        match self.parts.get(org) {
            Some(part) => part.count(),
            None => 0,
        }
    }

    /// Equal files and sandboxes with memory of their own, and room for no more.
    pub fn copy(&self, alloc: Global) -> Result<Files, NoMemory>
        ensures { IfOk result (λ files. (name : List ℕ) → holding_of files name ≡ holding_of self.now name) }
    {
        let mut parts = IndexMap::with_capacity(alloc, self.parts.len())?;
        add_copies(alloc, &self.parts, &mut parts).and(Ok(Files { parts }))
    }
}

// Adds a copy of each part to a map that has none.
fn add_copies(alloc: Global, parts: &Parts, copies: &mut Parts) -> Result<(), NoMemory>
    requires { copies.old.entries ≡ [] }
    ensures { OnOk result ((name : List ℕ) → holding_of (finite.from_entries copies.new.entries) name ≡ holding_of (finite.from_entries parts.now.entries) name) }
{
    for (org, part) in parts {
        add(copies, org.copy(alloc)?, part.copy(alloc)?)?;
    }
    Ok(())
}

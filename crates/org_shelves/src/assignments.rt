//! The policies that a group assigns.
ghost use Rattle.std.specs.FinMap as finite;
ghost use Rattle.std.specs.Prelude.{◌≡◌, IfOk, option_copied};

use doc_tree::{NoMemory, Text};
use shelves::{Duplicate, Forget, SortedMap};
use std::alloc::Global;
use std::marker::Model;

/// The policies that a group assigns, each with its revision, in the byte order of the policies' names. Contracts see the
/// finite map.
#[derive(Drop)]
pub struct Assignments {
    revisions: SortedMap<Text, Text>,
}

impl Model for Assignments {
    ghost use Rattle.org_shelves.specs.Shelved.{Assigned, assigned_code};

    ghost Value = { Assigned };

    ghost coded = { assigned_code };

    ghost use Rattle.doc_tree.specs.Text.{text_cmp};
    ghost use Rattle.shelves.specs.SortedMap.{map_of};

    ghost view = { λ a. map_of text_cmp a.revisions };
}

impl Assignments {
    /// No assignments. It takes no memory.
    pub fn none(alloc: Global) -> Assignments
        ensures { result ≡ finite.empty }
    {
        Assignments {
            revisions: SortedMap::new(alloc),
        }
    }

    /// The revision that is assigned of a policy, or `None` exactly where none is.
    pub fn revision(&self, policy: &Text) -> Option<&Text>
        ensures { option_copied result ≡ finite.get self.now policy.now }
    {
        self.revisions.get(policy)
    }

    /// The policies with their revisions, in the byte order of the policies' names.
    pub fn entries(&self) -> &[(Text, Text)]
        ensures { result.now ≡ finite.entries self.now }
    {
        self.revisions.entries()
    }

    /// The same assignments with this revision of a policy, in the place of the one that is assigned.
    pub fn with(
        &self,
        alloc: Global,
        policy: &Text,
        revision: &Text,
    ) -> Result<Assignments, NoMemory>
        ensures { IfOk result (λ a. a ≡ finite.insert self.now policy.now revision.now) }
    {
        let mut made = self.copy(alloc)?;
        made.revisions.reserve(1)?;
        let _ = made
            .revisions
            .insert(policy.copy(alloc)?, revision.copy(alloc)?);
        Ok(made)
    }

    /// The same assignments without a policy's.
    pub fn without(&self, alloc: Global, policy: &Text) -> Result<Assignments, NoMemory>
        ensures { IfOk result (λ a. a ≡ finite.remove self.now policy.now) }
    {
        let mut made = self.copy(alloc)?;
        made.forget(policy);
        Ok(made)
    }

    /// Equal assignments of their own.
    pub fn copy(&self, alloc: Global) -> Result<Assignments, NoMemory>
        ensures { IfOk result (λ a. a ≡ self.now) }
    {
        Ok(Assignments {
            revisions: self.revisions.copy(alloc)?,
        })
    }
}

impl Duplicate for Assignments {
    fn duplicate(&self, alloc: Global) -> Result<Assignments, NoMemory> {
        self.copy(alloc)
    }
}

impl Forget for Assignments {
    ghost without = { λ policy a. finite.remove a policy };

    /// Takes a policy's assignment out, if there is one.
    fn forget(&mut self, name: &Text) {
        let _ = self.revisions.remove(name);
    }
}

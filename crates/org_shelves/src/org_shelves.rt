//! What an organisation keeps on shelves, with room kept ahead.
ghost use Rattle.org_shelves.specs.Shelved.{nothing, with_artifacts, with_cookbooks, with_groups, with_policies};
ghost use Rattle.org_shelves.specs.ShelfMoves.{unassigned};
ghost use Rattle.shelves.specs.Shelves.{put, shelves_of, value_at, without};
ghost use Rattle.shelves.specs.SortedMap.{each_value, map_of};
ghost use Rattle.std.specs.FinMap as finite;
ghost use Rattle.std.specs.Prelude.{◌≡◌, ◌+◌, ◌≤◌, IfOk, OnOk};
ghost use Rattle.doc_tree.specs.Text.{text_cmp};
ghost use Rattle.version_rules.specs.Order.{version_cmp};

use crate::assignments::Assignments;
use crate::editions::Edition;
use crate::revision::Revision;
use doc_tree::{NoMemory, Text};
use shelves::{Shelves, SortedMap};
use std::alloc::Global;
use std::marker::Model;
use version_rules::Version;

/// The versions of cookbooks, by the cookbook's name and then by the version, each typed.
pub type Cookbooks = Shelves<Version, Edition>;

/// Artifacts, by the cookbook's name and then by the identifier, each typed.
pub type Artifacts = Shelves<Text, Edition>;

/// The revisions of policies, by the policy's name and then by the revision.
pub type Policies = Shelves<Text, Revision>;

/// Policy groups by their names, each with what it assigns: one that assigns nothing is there too.
pub type PolicyGroups = SortedMap<Text, Assignments>;

/// What an organisation keeps on shelves. Contracts see it, and how many more versions, artifacts, revisions and groups
/// fit without memory, of each.
#[derive(Drop)]
pub struct OrgShelves {
    cookbooks: Cookbooks,
    artifacts: Artifacts,
    policies: Policies,
    groups: PolicyGroups,
    spare: usize,
}

impl Model for OrgShelves {
    ghost use Rattle.org_shelves.specs.Shelved.{Kept, kept_code};

    ghost Value = { Kept };

    ghost coded = { kept_code };

    ghost use Rattle.shelves.specs.Shelves.{shelves_of};
    ghost use Rattle.shelves.specs.SortedMap.{map_of};
    ghost use Rattle.version_rules.specs.Order.{version_cmp};
    ghost use Rattle.std.specs.Prelude.{◌≤◌};
    ghost use Rattle.doc_tree.specs.Text.{text_cmp};

    ghost view = { λ s. record {
      shelved = record {
        cookbooks = shelves_of version_cmp s.cookbooks;
        artifacts = shelves_of text_cmp s.artifacts;
        policies = shelves_of text_cmp s.policies;
        groups = map_of text_cmp s.groups;
      };
      spare = s.spare;
    } };

    // There is that much room on each.
    ghost invariant = { λ s. (s.spare ≤ s.cookbooks.spare) × ((s.spare ≤ s.artifacts.spare) × ((s.spare ≤ s.policies.spare) × (s.spare ≤ s.groups.spare))) };
}

impl OrgShelves {
    /// Nothing on any shelf, and no room. It takes no memory.
    pub fn none(alloc: Global) -> OrgShelves
        ensures { result.shelved ≡ nothing }
    {
        OrgShelves {
            cookbooks: Shelves::none(alloc),
            artifacts: Shelves::none(alloc),
            policies: Shelves::none(alloc),
            groups: SortedMap::new(alloc),
            spare: 0,
        }
    }

    /// The versions of cookbooks.
    pub fn cookbooks(&self) -> &Cookbooks
        ensures { shelves_of version_cmp result.now ≡ self.now.shelved.cookbooks }
    {
        &self.cookbooks
    }

    /// The artifacts.
    pub fn artifacts(&self) -> &Artifacts
        ensures { shelves_of text_cmp result.now ≡ self.now.shelved.artifacts }
    {
        &self.artifacts
    }

    /// The revisions of policies.
    pub fn policies(&self) -> &Policies
        ensures { shelves_of text_cmp result.now ≡ self.now.shelved.policies }
    {
        &self.policies
    }

    /// The policy groups.
    pub fn groups(&self) -> &PolicyGroups
        ensures { map_of text_cmp result.now ≡ self.now.shelved.groups }
    {
        &self.groups
    }

    /// Equal shelves with memory of their own, and no room for more.
    pub fn copy(&self, alloc: Global) -> Result<OrgShelves, NoMemory>
        ensures { IfOk result (λ copy. copy.shelved ≡ self.now.shelved) }
    {
        Ok(OrgShelves {
            cookbooks: self.cookbooks.copy(alloc)?,
            artifacts: self.artifacts.copy(alloc)?,
            policies: self.policies.copy(alloc)?,
            groups: self.groups.copy(alloc)?,
            spare: 0,
        })
    }

    /// Makes room for at least `count` more versions, artifacts, revisions and groups, of each. What is there stays, and
    /// the room never falls, also after `NoMemory`, which comes for want of memory alone.
    pub fn reserve(&mut self, count: usize) -> Result<(), NoMemory>
        ensures shelved { self.new.shelved ≡ self.old.shelved }
        ensures ok { OnOk result (count ≤ self.new.spare) }
        ensures spare { self.old.spare ≤ self.new.spare }
    {
        if count > self.spare {
            self.cookbooks.reserve(count)?;
            self.artifacts.reserve(count)?;
            self.policies.reserve(count)?;
            self.groups.reserve(count)?;
            self.spare = count;
        }
        Ok(())
    }

    /// Puts a version of a cookbook in, for which there is room, and hands out the one that it replaces.
    pub(crate) fn put_version(
        &mut self,
        name: Text,
        version: Version,
        edition: Edition,
    ) -> Option<Edition>
        requires { 1 ≤ self.old.spare }
        ensures shelved { self.new.shelved ≡ with_cookbooks (put name version edition self.old.shelved.cookbooks) self.old.shelved }
        ensures gone { result ≡ value_at self.old.shelved.cookbooks name version }
        ensures spare { self.old.spare ≤ self.new.spare + 1 }
    {
        self.spare -= 1;
        self.cookbooks.put(name, version, edition)
    }

    /// Takes a version of a cookbook out, if it is there.
    pub(crate) fn take_version(&mut self, name: &Text, version: &Version) -> Option<Edition>
        ensures shelved { self.new.shelved ≡ with_cookbooks (without name.now version.now self.old.shelved.cookbooks) self.old.shelved }
        ensures gone { result ≡ value_at self.old.shelved.cookbooks name.now version.now }
        ensures spare { self.old.spare ≤ self.new.spare }
    {
        self.cookbooks.take_out(name, version)
    }

    /// Puts an artifact in, for which there is room, and hands out the one that it replaces.
    pub(crate) fn put_artifact(&mut self, name: Text, id: Text, edition: Edition) -> Option<Edition>
        requires { 1 ≤ self.old.spare }
        ensures shelved { self.new.shelved ≡ with_artifacts (put name id edition self.old.shelved.artifacts) self.old.shelved }
        ensures gone { result ≡ value_at self.old.shelved.artifacts name id }
        ensures spare { self.old.spare ≤ self.new.spare + 1 }
    {
        self.spare -= 1;
        self.artifacts.put(name, id, edition)
    }

    /// Takes an artifact out, if it is there.
    pub(crate) fn take_artifact(&mut self, name: &Text, id: &Text) -> Option<Edition>
        ensures shelved { self.new.shelved ≡ with_artifacts (without name.now id.now self.old.shelved.artifacts) self.old.shelved }
        ensures gone { result ≡ value_at self.old.shelved.artifacts name.now id.now }
        ensures spare { self.old.spare ≤ self.new.spare }
    {
        self.artifacts.take_out(name, id)
    }

    /// Puts a revision of a policy in, for which there is room, in the place of the one that is there.
    pub(crate) fn put_revision(&mut self, policy: Text, revision: Text, lock: Revision)
        requires { 1 ≤ self.old.spare }
        ensures shelved { self.new.shelved ≡ with_policies (put policy revision lock self.old.shelved.policies) self.old.shelved }
        ensures spare { self.old.spare ≤ self.new.spare + 1 }
    {
        self.spare -= 1;
        drop(self.policies.put(policy, revision, lock));
    }

    /// Takes all revisions of a policy out, and the policy out of every group.
    pub(crate) fn take_policy(&mut self, policy: &Text)
        ensures shelved { self.new.shelved ≡ with_groups (each_value (unassigned policy.now) self.old.shelved.groups) (with_policies (finite.remove self.old.shelved.policies policy.now) self.old.shelved) }
        ensures spare { self.old.spare ≤ self.new.spare }
    {
        self.policies.remove_shelf(policy);
        self.groups.forget_in_each(policy);
    }

    /// Puts a policy group in, for which there is room, in the place of the one of its name.
    pub(crate) fn put_group(&mut self, name: Text, assignments: Assignments)
        requires { 1 ≤ self.old.spare }
        ensures shelved { self.new.shelved ≡ with_groups (finite.insert self.old.shelved.groups name assignments) self.old.shelved }
        ensures spare { self.old.spare ≤ self.new.spare + 1 }
    {
        self.spare -= 1;
        drop(self.groups.insert(name, assignments));
    }

    /// Takes a policy group out, if it is there.
    pub(crate) fn take_group(&mut self, name: &Text)
        ensures shelved { self.new.shelved ≡ with_groups (finite.remove self.old.shelved.groups name.now) self.old.shelved }
        ensures spare { self.old.spare ≤ self.new.spare }
    {
        drop(self.groups.remove(name));
    }
}

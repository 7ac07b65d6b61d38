//! An organisation whose rows are laid one by one.
ghost use Rattle.std.specs.Prelude.{◌≡◌, ◌++◌, ◌∷◌, [], List, OnOk};
ghost use Rattle.sandboxes.specs.Files.{holding_of, OthersStay};
ghost use Rattle.org_core.specs.FullStates.{full_in};
ghost use Rattle.org_core.specs.States.{nothing};
ghost use Rattle.org_rows.specs.Legal.{IsLegal};
ghost use Rattle.outside_keeper.specs.Rows.{KeptRows};
ghost use Rattle.row_laying.specs.Laid.{organisation_laid, IsLaid};
ghost use Rattle.row_laying.specs.Laying.{with_said, files_with_said};
ghost use Rattle.row_laying.specs.KeptRows.{AreKept, AreWhole};
ghost use Rattle.row_laying.specs.SaidRows.{AreRowsIn};
ghost use Rattle.row_reading.specs.declared.said.Said.{Said as ASaid};

use crate::laying::lay;
use doc_tree::{NoMemory, Text};
use membership::Groups;
use object_store::Objects;
use org_core::OrgState;
use org_shelves::OrgShelves;
use row_reading::Said;
use sandboxes::Files;
use std::alloc::Global;
use std::hash::RandomState;

/// What was laid so far of what an organisation's rows say, but for its files and sandboxes, which
/// are laid beside it under the organisation's name. Contracts see it as an organisation
/// (`organisation_laid`).
#[derive(Drop)]
pub struct Laid {
    objects: Objects,
    groups: Groups,
    shelves: OrgShelves,
}

impl Laid {
    /// Nothing was laid yet. It takes no memory.
    pub fn nothing(alloc: Global, hasher: RandomState) -> Laid
        ensures { organisation_laid result ≡ nothing }
    {
        let objects = Objects::none(alloc, hasher);
        let groups = Groups::none(alloc, hasher);
        let shelves = OrgShelves::none(alloc);
        Laid {
            objects,
            groups,
            shelves,
        }
    }

    /// Lays what one row says, in place of what is there of it: where some were laid, it is laid
    /// behind them. After `NoMemory` a part of it may be there.
    pub fn lay(
        &mut self,
        alloc: Global,
        org: &Text,
        files: &mut Files,
        one: Said,
    ) -> Result<(), NoMemory>
        ensures organisation { OnOk result (organisation_laid self.new ≡ with_said one (organisation_laid self.old)) }
        ensures files { OnOk result (holding_of files.new org.now ≡ files_with_said one (holding_of files.old org.now)) }
        ensures laid { OnOk result ((all : List ASaid) → IsLaid all (organisation_laid self.old) (holding_of files.old org.now) → IsLaid (all ++ one ∷ []) (organisation_laid self.new) (holding_of files.new org.now)) }
        ensures others { OthersStay org.now files.old files.new }
    {
        lay(
            alloc,
            org,
            &mut self.objects,
            &mut self.groups,
            &mut self.shelves,
            files,
            one,
        )
    }

    /// The state of the organisation of this name that has just what was laid, with the files that
    /// were laid under its name: the rows of that state are the rows that said it, and it is one that
    /// an organisation can have. It requires that what was laid is all that rows of the organisation
    /// say, that these have all that they ask for, and that one is there. It takes no memory.
    pub fn state(self, hasher: RandomState, org: Text, files: &Files) -> OrgState
        requires { (all : List ASaid) × IsLaid all (organisation_laid self) (holding_of files.now org) × AreWhole org all }
        ensures name { result.name ≡ org }
        ensures rows { (all : List ASaid) (rows : KeptRows) → IsLaid all (organisation_laid self) (holding_of files.now org) → AreKept org rows all → AreRowsIn org rows (full_in result files.now) }
        ensures legal { IsLegal (full_in result files.now) }
    {
        let Laid {
            objects,
            groups,
            shelves,
        } = self;
        OrgState::of(hasher, org, objects, groups, shelves, files)
    }
}

//! A state built of all that its rows say.
ghost use Rattle.std.specs.Prelude.{◌≡◌, IfOk, OnOk, Some};
ghost use Rattle.sandboxes.specs.Files.{holding_of, OthersStay};
ghost use Rattle.sandboxes.specs.Sandboxes.{nothing as no_files};
ghost use Rattle.org_core.specs.FullStates.{full_in};
ghost use Rattle.org_rows.specs.Legal.{IsLegal};
ghost use Rattle.outside_keeper.specs.Rows.{KeptRows};
ghost use Rattle.row_laying.specs.Laid.{organisation_laid};
ghost use Rattle.row_laying.specs.Laying.{with_all, files_with_all};
ghost use Rattle.row_laying.specs.KeptRows.{AreKept, AreWhole};
ghost use Rattle.row_laying.specs.SaidRows.{AreRowsIn};

use crate::laid::Laid;
use doc_tree::{NoMemory, Text};
use org_core::OrgState;
use row_reading::Said;
use sandboxes::Files;
use std::alloc::Global;
use std::hash::RandomState;

/// The state of the organisation of this name that has just what its rows say, with its files and
/// sandboxes laid in `files` under its name, where nothing lies yet: the rows of that state are the
/// rows that said it, and it is one that an organisation can have. It requires that they are all that
/// rows of the organisation say, that these have all that they ask for, and that one is there. After
/// `NoMemory` a part of the files may lie there.
pub fn lay_all(
    alloc: Global,
    hasher: RandomState,
    org: Text,
    files: &mut Files,
    said: Vec<Said>,
) -> Result<OrgState, NoMemory>
    requires empty { holding_of files.old org ≡ no_files }
    requires kept { AreWhole org said.items }
    ensures name { IfOk result (λ s. s.name ≡ org) }
    ensures rows { IfOk result (λ s. (rows : KeptRows) → AreKept org rows said.items → AreRowsIn org rows (full_in s files.new)) }
    ensures legal { IfOk result (λ s. IsLegal (full_in s files.new)) }
    ensures others { OthersStay org files.old files.new }
{
    let mut laid = Laid::nothing(alloc, hasher);
    match lay_each(alloc, &org, &mut laid, files, said) {
        Ok(()) => Ok(laid.state(hasher, org, files)),
        Err(fault) => {
            drop(laid);
            Err(fault)
        }
    }
}

// Lays what each row says, in order.
fn lay_each(
    alloc: Global,
    org: &Text,
    laid: &mut Laid,
    files: &mut Files,
    said: Vec<Said>,
) -> Result<(), NoMemory>
    ensures organisation { OnOk result (organisation_laid laid.new ≡ with_all said.items (organisation_laid laid.old)) }
    ensures files { OnOk result (holding_of files.new org.now ≡ files_with_all said.items (holding_of files.old org.now)) }
    ensures others { OthersStay org.now files.old files.new }
{
    for one in said {
        laid.lay(alloc, org, files, one)?;
    }
    Ok(())
}

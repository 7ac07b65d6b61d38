//! What is laid on an organisation's shelves.
ghost use Rattle.std.specs.Prelude.{◌≡◌, OnOk, cond};
ghost use Rattle.org_shelves.specs.ShelfMoves.{after_shelf_move};

use doc_tree::{NoMemory, Text};
use org_shelves::{OrgShelves, ShelfMove, make_on_shelves};
use sandboxes::Files;
use std::alloc::Global;

/// Puts something on the shelves. Where nothing stood in its place no file goes with it, so none is
/// looked at.
pub fn shelve(
    alloc: Global,
    org: &Text,
    shelves: &mut OrgShelves,
    one: ShelfMove,
) -> Result<(), NoMemory>
    ensures { OnOk result (shelves.new.shelved ≡ after_shelf_move one shelves.old.shelved) }
{
    if shelves.reserve(1).is_err() {
        drop(one);
        return Err(NoMemory);
    }
    let mut none = Files::none(alloc);
    make_on_shelves(shelves, &mut none, org, one);
    Ok(())
}

//! The moves that change what an organisation keeps on shelves.
ghost use Rattle.org_shelves.specs.ShelfMoves as spec;
ghost use Rattle.sandboxes.specs.Files.{holding_of, spare_of, OthersStay};
ghost use Rattle.sandboxes.specs.Sandboxes.{released};
ghost use Rattle.std.specs.Prelude.{◌≡◌, ◌+◌, ◌≤◌, cond};

use crate::assignments::Assignments;
use crate::editions::Edition;
use crate::naming::is_named;
use crate::org_shelves::OrgShelves;
use crate::revision::Revision;
use doc_tree::Text;
use sandboxes::{Files, Sums};
use version_rules::Version;

/// One change of what an organisation that is there keeps on shelves, with all the memory that it needs but for the place
/// of what is put in.
#[derive(Drop)]
pub enum ShelfMove {
    /// A version of a cookbook is put in, in the place of the one that is there.
    PutVersion(Text, Version, Edition),
    /// A version of a cookbook goes.
    TakeVersion(Text, Version),
    /// An artifact of a cookbook is put in under its identifier, in the place of the one that is there.
    PutArtifact(Text, Text, Edition),
    /// An artifact of a cookbook goes.
    TakeArtifact(Text, Text),
    /// A revision of a policy is put in, in the place of the one that is there.
    PutRevision(Text, Text, Revision),
    /// A policy goes with its revisions, and out of every group.
    TakePolicy(Text),
    /// A policy group is put in with what it assigns, in the place of the one of its name.
    PutGroup(Text, Assignments),
    /// A policy group goes with what it assigns.
    TakeGroup(Text),
}

impl ShelfMove {
    /// Whether it puts something on a shelf, which takes room.
    pub fn puts_on_shelves(&self) -> bool
        ensures { result ≡ spec.puts_on_shelves self.now }
    {
        match self {
            ShelfMove::PutVersion(_, _, _)
            | ShelfMove::PutArtifact(_, _, _)
            | ShelfMove::PutRevision(_, _, _)
            | ShelfMove::PutGroup(_, _) => true,
            ShelfMove::TakeVersion(_, _)
            | ShelfMove::TakeArtifact(_, _)
            | ShelfMove::TakePolicy(_)
            | ShelfMove::TakeGroup(_) => false,
        }
    }
}

/// Makes a move on the shelves of an organisation, and drops the files that something on them named and nothing names any
/// more. It takes no memory.
///
/// It requires room for what is put in, as `OrgShelves::reserve` makes it.
pub fn make_on_shelves(shelves: &mut OrgShelves, files: &mut Files, org: &Text, one: ShelfMove)
    requires { cond (spec.puts_on_shelves one) 1 0 ≤ shelves.old.spare }
    ensures shelved { shelves.new.shelved ≡ spec.after_shelf_move one shelves.old.shelved }
    ensures room { shelves.old.spare ≤ shelves.new.spare + cond (spec.puts_on_shelves one) 1 0 }
    ensures holding { holding_of files.new org.now ≡ spec.files_after_shelf_move one shelves.old.shelved (holding_of files.old org.now) }
    ensures spare { spare_of files.old org.now ≤ spare_of files.new org.now }
    ensures others { OthersStay org.now files.old files.new }
{
    if let Some(gone) = change(shelves, one) {
        drop_unnamed(shelves, files, org, gone.into_sums());
    }
}

// Makes a move, and hands out the manifest that stood in its place.
fn change(shelves: &mut OrgShelves, one: ShelfMove) -> Option<Edition>
    requires { cond (spec.puts_on_shelves one) 1 0 ≤ shelves.old.spare }
    ensures shelved { shelves.new.shelved ≡ spec.after_shelf_move one shelves.old.shelved }
    ensures room { shelves.old.spare ≤ shelves.new.spare + cond (spec.puts_on_shelves one) 1 0 }
    ensures gone { result ≡ spec.replaced_by one shelves.old.shelved }
{
    match one {
        ShelfMove::PutVersion(name, version, edition) => {
            shelves.put_version(name, version, edition)
        }
        ShelfMove::TakeVersion(name, version) => shelves.take_version(&name, &version),
        ShelfMove::PutArtifact(name, id, edition) => shelves.put_artifact(name, id, edition),
        ShelfMove::TakeArtifact(name, id) => shelves.take_artifact(&name, &id),
        ShelfMove::PutRevision(policy, revision, lock) => {
            shelves.put_revision(policy, revision, lock);
            None
        }
        ShelfMove::TakePolicy(policy) => {
            shelves.take_policy(&policy);
            None
        }
        ShelfMove::PutGroup(name, assignments) => {
            shelves.put_group(name, assignments);
            None
        }
        ShelfMove::TakeGroup(name) => {
            shelves.take_group(&name);
            None
        }
    }
}

// Drops the files of these checksums that nothing on the shelves names.
fn drop_unnamed(shelves: &OrgShelves, files: &mut Files, org: &Text, sums: Sums)
    ensures holding { holding_of files.new org.now ≡ released (spec.unnamed shelves.now.shelved sums) (holding_of files.old org.now) }
    ensures spare { spare_of files.old org.now ≤ spare_of files.new org.now }
    ensures others { OthersStay org.now files.old files.new }
{
    let mut freed = sums.into_vec();
    freed.retain(|sum| !is_named(shelves, sum));
    files.release(org, &Sums::in_order(freed));
}

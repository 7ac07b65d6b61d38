//! The moves that change the files and sandboxes of an organisation.

ghost use Rattle.std.specs.Prelude.{◌≡◌, ◌+◌, ◌≤◌, IsTrue, Some, cond, option_map, unwrap_or, false};
ghost use Rattle.std.specs.FinMap as finite;
ghost use Rattle.sandboxes.specs.Files.{holding_of, spare_of, OthersStay};
ghost use Rattle.org_core.specs.declared.file_moves.FileMove.TheVariants as moves;
ghost use Rattle.org_core.specs.FileMoves as spec;

use doc_tree::Text;
use sandboxes::{Checksum, Files, Hashed, Sums};

/// One change of the files and sandboxes of an organisation that is there, with all the memory that it
/// needs but for the place of what is put in.
#[derive(Drop)]
pub enum FileMove {
    /// A sandbox of these checksums begins. At the end of the organisation's count nothing does.
    Begin(Sums),
    /// A file comes for the sandboxes that list this checksum, where they do and it is the file's.
    Upload(Checksum, Hashed),
    /// The files of the sandbox of this id are committed, where none is missing, and it ends.
    Commit(Checksum),
}

impl FileMove {
    /// Whether it puts a sandbox or a file in, which takes room.
    pub(crate) fn puts_in_files(&self) -> bool
        ensures { result ≡ spec.puts_in_files self.now }
    {
        match self {
            FileMove::Begin(_) | FileMove::Upload(_, _) => true,
            FileMove::Commit(_) => false,
        }
    }
}

/// Makes a move on the files of an organisation. It takes no memory.
pub(crate) fn make_on_files(files: &mut Files, org: &Text, one: FileMove)
    requires { cond (spec.puts_in_files one) 1 0 ≤ spare_of files.old org.now }
    ensures holding { holding_of files.new org.now ≡ spec.after_file_move org.now one (holding_of files.old org.now) }
    ensures spare { spare_of files.old org.now ≤ spare_of files.new org.now + cond (spec.puts_in_files one) 1 0 }
    ensures others { OthersStay org.now files.old files.new }
{
    match one {
        FileMove::Begin(sums) => drop(files.begin(org, sums)),
        FileMove::Upload(asked, file) => drop(files.upload(org, asked, file)),
        FileMove::Commit(id) => commit(files, org, &id),
    }
}

// Commits a sandbox, where it is complete.
fn commit(files: &mut Files, org: &Text, id: &Checksum)
    ensures holding { holding_of files.new org.now ≡ spec.after_file_move org.now (moves.Commit id.now) (holding_of files.old org.now) }
    ensures spare { spare_of files.old org.now ≤ spare_of files.new org.now }
    ensures others { OthersStay org.now files.old files.new }
{
    if is_complete(files, org, id) {
        files.commit(org, id);
    }
}

/// Whether the sandbox of this id is there, and no file is missing from it. It takes no memory.
pub fn is_complete(files: &Files, org: &Text, id: &Checksum) -> bool
    ensures { result ≡ spec.is_complete id.now (holding_of files.now org.now) }
{
    match files.listed(org, id) {
        Some(sums) => has_all(files, org, sums.as_slice()),
        None => false,
    }
}

fn has_all(files: &Files, org: &Text, sums: &[Checksum]) -> bool
    ensures { result ≡ spec.has_all (holding_of files.now org.now) sums.now }
{
    sums.iter().all(|sum| has_file(files, org, sum))
}

fn has_file(files: &Files, org: &Text, sum: &Checksum) -> bool
    ensures { result ≡ finite.contains_key (holding_of files.now org.now).files sum.now }
{
    files.file(org, sum).is_some()
}

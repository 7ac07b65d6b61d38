//! What can be asked of cookbooks, sandboxes and files: one operation for each path and method of the
//! table of routes, with all that the path, the parameters and the body say.

use dep_solver::Roots;
use doc_tree::Text;
use org_shelves::Edition;
use sandboxes::{Checksum, Hashed, Sums};
use version_rules::Version;

/// How many versions of each cookbook a listing shows, greatest first.
#[derive(Clone, Copy, Debug, PartialEq, Eq)]
pub enum Count {
    /// All of them.
    All,
    /// At most so many.
    Most(u64),
}

/// Which version of a cookbook is wanted.
#[derive(Clone, Copy, Debug, PartialEq, Eq)]
pub enum Wanted {
    /// The greatest.
    Latest,
    /// This one.
    Exactly(Version),
}

/// What can be asked of cookbooks, sandboxes and files.
#[derive(Drop)]
pub enum CookbookOperation {
    /// To begin a sandbox that lists these checksums.
    BeginSandbox(Sums),
    /// To commit the sandbox of this id.
    CommitSandbox(Checksum),
    /// To upload this file under this checksum.
    Upload(Checksum, Hashed),
    /// To show the file of this checksum.
    ShowFile(Checksum),
    /// To list the cookbooks, with so many versions of each.
    ListCookbooks(Count),
    /// To list all versions of this cookbook.
    ListVersions(Text),
    /// To show a version of this cookbook.
    ShowVersion(Text, Wanted),
    /// To put this manifest as a version of this cookbook, also over a frozen one where that is forced.
    PutVersion(Text, Version, Edition, bool),
    /// To remove a version of this cookbook.
    RemoveVersion(Text, Version),
    /// To show the universe of all versions.
    ShowUniverse,
    /// To choose the versions of cookbooks that these roots ask for, under the rules of this environment.
    SolveVersions(Text, Roots),
}

//! The files that what is on the shelves names.
ghost use Rattle.org_shelves.specs.Files as spec;
ghost use Rattle.sandboxes.specs.Files.{holding_of};
ghost use Rattle.std.specs.Prelude.{◌≡◌};

use doc_tree::Text;
use sandboxes::{Checksum, Files};

/// Whether an organisation has a committed file of this checksum. It takes no memory.
pub fn is_committed(org: &Text, files: &Files, sum: &Checksum) -> bool
    ensures { result ≡ spec.is_committed (holding_of files.now org.now) sum.now }
{
    match files.file(org, sum) {
        Some((_, committed)) => committed,
        None => false,
    }
}

//! The bodies of files.
ghost use Rattle.org_rows.specs.Reading as spec;
ghost use Rattle.std.specs.Prelude.{◌≡◌, IfOk, Some};

use doc_tree::{Bytes, NoMemory};
use sandboxes::{Hashed, Stored};
use std::alloc::Global;

/// The file that a body has behind its mark, and whether it is committed. It is hashed once.
pub(crate) fn read_file(alloc: Global, body: &[u8]) -> Result<Option<Stored>, NoMemory>
    ensures { IfOk result (λ found. found ≡ spec.file_in body.now) }
{
    match body {
        [b'0', rest @ ..] => Ok(Some(stored(alloc, rest, false)?)),
        [b'1', rest @ ..] => Ok(Some(stored(alloc, rest, true)?)),
        _ => Ok(None),
    }
}

fn stored(alloc: Global, bytes: &[u8], committed: bool) -> Result<Stored, NoMemory>
    ensures { IfOk result (λ stored. stored ≡ record { file = bytes.now; committed = committed }) }
{
    let file = Hashed::of(Bytes::from_slice(alloc, bytes)?);
    Ok(Stored { file, committed })
}

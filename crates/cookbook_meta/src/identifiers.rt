//! The identifier of a manifest.
ghost use Rattle.std.specs.Prelude.{◌≡◌, IfOk, map, string_bytes};
ghost use Rattle.sha1.specs.Sha1.{sha1};
ghost use Rattle.cookbook_meta.specs.Identifiers as spec;

use crate::entries::Entry;
use crate::manifests::Manifest;
use doc_tree::{NoMemory, Text};
use sha1::Sha1;
use std::alloc::Global;

/// The identifier of a manifest: the SHA-1 (FIPS 180-4), in lower-case hexadecimal digits, of the lines `PATH:CHECKSUM`
/// of its files, each ended by a line feed, in the order of the lines' bytes.
pub fn identifier(alloc: Global, manifest: &Manifest) -> Result<Text, NoMemory>
    ensures { IfOk result (spec.IsIdentifier manifest.now.files) }
{
    let mut lines = lines_of(alloc, manifest.files.as_slice())?;
    lines.sort_unstable();
    let digest = digest_of(&lines);
    Ok(Text::of(hex::encode(alloc, digest.as_slice())?))
}

/// The lines of entries, one an entry.
fn lines_of(alloc: Global, files: &[Entry]) -> Result<Vec<Text>, NoMemory>
    ensures { IfOk result (λ lines. lines.items ≡ map spec.line_of files.now) }
{
    let mut lines = Vec::with_capacity(alloc, files.len())?;
    for entry in files {
        lines.push(Text::of(line_of(alloc, entry)?))?;
    }
    Ok(lines)
}

fn line_of(alloc: Global, entry: &Entry) -> Result<String, NoMemory>
    ensures { IfOk result (λ text. string_bytes text ≡ spec.line_of entry.now) }
{
    let path = &entry.path;
    let checksum = &entry.checksum;
    Ok(format!(in alloc; "{path}:{checksum}")?)
}

/// The digest of lines, each ended by a line feed.
fn digest_of(lines: &[Text]) -> [u8; 20]
    ensures { result ≡ sha1 (spec.text_of_lines lines.now) }
{
    let mut hasher = Sha1::new();
    for line in lines {
        hasher.update(line.as_bytes());
        hasher.update(b"\n");
    }
    hasher.finalize()
}

//! What a sources file explains.
ghost use Rattle.std.specs.Prelude.{◌≡◌, IfOk, Err, None};
ghost use Rattle.attr_merge.specs.Lines.{Explains};
ghost use Rattle.attr_merge.specs.Sources.{layers_in};
ghost use Rattle.attr_merge.specs.declared.fault.SourcesFault.TheVariants.{NotSources};

use crate::fault::SourcesFault;
use crate::lines::lines;
use crate::merging::merge;
use crate::sources::read_sources;
use doc_tree::Bytes;
use std::alloc::Global;

/// The lines that explain the layers of a sources file: for each leaf of their merge, in the order of the paths, the path
/// and the value as compact JSON and the layers that the value comes from, as
/// `["a"] = [1,2,3] <- 1 site, 4 web`. Each line ends with a line feed.
///
/// It is `NotSources` exactly where the bytes aren't a sources file.
pub fn explain(alloc: Global, bytes: &[u8]) -> Result<Bytes, SourcesFault>
    ensures explains { IfOk result (Explains bytes.now) }
    ensures not_sources { result ≡ Err NotSources → layers_in bytes.now ≡ None }
{
    let layers = read_sources(alloc, bytes)?;
    let merged = merge(alloc, layers.as_slice())?;
    let leaves = merged.leaves(alloc)?;
    let printed = lines(alloc, layers.as_slice(), &merged, &leaves)?;
    Ok(Bytes::of(printed))
}

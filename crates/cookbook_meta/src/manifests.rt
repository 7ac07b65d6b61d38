//! The manifest of a cookbook's version.
ghost use Rattle.std.specs.Prelude.{◌≡◌, IfOk, Ok};
ghost use Rattle.doc_tree.specs.Doc.{pairs_of};
ghost use Rattle.doc_tree.specs.Tree.{doc_of};
ghost use Rattle.doc_tree.specs.Valid.{InOrder};
ghost use Rattle.doc_tree.specs.declared.tree.Tree.TheVariants as tree;
ghost use Rattle.cookbook_meta.specs.Checksums as named;
ghost use Rattle.cookbook_meta.specs.Faults.{inside, then_do};
ghost use Rattle.cookbook_meta.specs.Fields as fields;
ghost use Rattle.cookbook_meta.specs.Manifests as spec;
ghost use Rattle.cookbook_meta.specs.Metadata.{metadata_from};
ghost use Rattle.cookbook_meta.specs.Outcomes.{Finds, Gives};
ghost use Rattle.cookbook_meta.specs.Sound as sound;
ghost use Rattle.cookbook_meta.specs.Parts.{needed};
ghost use Rattle.cookbook_meta.specs.Stored.{metadata_key};

use crate::entries::{Entries, Entry};
use crate::fault::{Flaw, MetaFault, in_field};
use crate::fields::{are_as_asked, release_name, same_version, told_by};
use crate::metadata::{Metadata, read_metadata};
use crate::parts::{needed, truth_of};
use crate::segments::files_in;
use crate::stored::whole_of;
use doc_tree::{Fields, Name, NoMemory, Text, Texts, Tree};
use std::alloc::Global;
use version_rules::Version;

/// What is kept of a cookbook's version: its name and version, its metadata, whether it is frozen, the files that it
/// names, and the stored object, from which it is read again.
#[derive(Drop)]
pub struct Manifest {
    pub name: Name,
    pub version: Version,
    pub metadata: Metadata,
    pub frozen: bool,
    pub files: Entries,
    pub whole: Tree,
}

/// The manifest that a body gives under the path's name and version, looked at field by field: `cookbook_name` and
/// `name` (`NAME-VERSION`), which may be missing and else are the path's; `version`, which is the path's; `chef_type`
/// and `json_class`, which may be missing; `frozen?`, false where it isn't given; `metadata`, whose name and version
/// are the path's; and the nine segments, empty where they aren't given. No two entries have one path.
///
/// A fault is that of the first field, in this order, that hasn't its form, exactly where one hasn't. What is no Dict
/// is `WrongKind` of `cookbook_name`.
pub fn read_manifest(
    alloc: Global,
    tree: &Tree,
    name: &Name,
    version: &Version,
) -> Result<Manifest, MetaFault>
    ensures manifest { Gives result (spec.manifest_from name.now version.now (doc_of tree.now)) }
    ensures own { IfOk result (sound.IsOf name.now version.now) }
    ensures paths { IfOk result (λ m. sound.HasOwnPaths m.files) }
    ensures sums { IfOk result (λ m. sound.HasChecksums m.files) }
{
    match tree {
        Tree::Dict(body) => manifest_in(alloc, body, name, *version),
        Tree::Null | Tree::Bool(_) | Tree::Whole(_) | Tree::Words(_) | Tree::List(_) => {
            Err(Flaw::WrongKind.of_field(alloc, "cookbook_name"))
        }
    }
}

fn manifest_in(
    alloc: Global,
    body: &Fields,
    name: &Name,
    version: Version,
) -> Result<Manifest, MetaFault>
    ensures { Gives result (spec.manifest_in name.now version (pairs_of body.now)) }
{
    let release = release_name(alloc, name, version)?;
    manifest_told(alloc, body, name, version, release.as_str())
}

/// The manifest that a body gives, where this is the name of the release.
fn manifest_told(
    alloc: Global,
    body: &Fields,
    name: &Name,
    version: Version,
    release: &str,
) -> Result<Manifest, MetaFault>
    requires { release.now ≡ fields.release_name name.now version }
    ensures { Gives result (spec.manifest_in name.now version (pairs_of body.now)) }
{
    are_as_asked(alloc, &told_by(name.as_str(), release, version), body)?;
    let frozen = in_field(alloc, "frozen?", truth_of(body.get("frozen?")))?;
    let metadata = in_field(alloc, "metadata", metadata_at(alloc, body, name, &version))?;
    let files = files_in(alloc, body)?;
    let entries = files.as_slice();
    let whole = whole_of(alloc, name, version, release, frozen, entries, body)?;
    manifest_of(alloc, name, version, metadata, frozen, files, whole)
}

/// The manifest of these parts.
pub(crate) fn manifest_of(
    alloc: Global,
    name: &Name,
    version: Version,
    metadata: Metadata,
    frozen: bool,
    files: Entries,
    whole: Fields,
) -> Result<Manifest, MetaFault>
    ensures { Gives result (Ok (record { name = name.now; version = version; metadata = metadata; frozen = frozen; files = files; whole = tree.Dict whole })) }
{
    Ok(Manifest {
        name: name.copy(alloc)?,
        version,
        metadata,
        frozen,
        files,
        whole: Tree::Dict(whole),
    })
}

/// The metadata that a body gives, which are those of this name and version.
pub(crate) fn metadata_at(
    alloc: Global,
    body: &Fields,
    name: &Name,
    version: &Version,
) -> Result<Metadata, Flaw>
    ensures { Finds result (then_do (needed metadata_key (pairs_of body.now)) (spec.metadata_of name.now version.now)) }
{
    metadata_of(alloc, needed(body, "metadata")?, name, version)
}

/// The metadata that a tree gives, which are those of this name and version.
fn metadata_of(alloc: Global, tree: &Tree, name: &Name, version: &Version) -> Result<Metadata, Flaw>
    ensures { Finds result (spec.metadata_of name.now version.now (doc_of tree.now)) }
{
    let metadata = metadata_inside(alloc, tree)?;
    if metadata.name == *name && same_version(&metadata.version, version) {
        Ok(metadata)
    } else {
        Err(Flaw::NameDiffers)
    }
}

/// The metadata that a tree gives, or what is wrong with its first part that hasn't its form.
fn metadata_inside(alloc: Global, tree: &Tree) -> Result<Metadata, Flaw>
    ensures { Finds result (inside (metadata_from (doc_of tree.now))) }
{
    match read_metadata(alloc, tree) {
        Ok(metadata) => Ok(metadata),
        Err(fault) => Err(fault.flaw()),
    }
}

impl Manifest {
    /// The checksums of the files that it names, each once, in the order of their bytes.
    pub fn checksums(&self, alloc: Global) -> Result<Texts, NoMemory>
        ensures order { IfOk result InOrder }
        ensures each { IfOk result (named.AreChecksumsOf self.now.files) }
    {
        let mut sums = checksums_of(alloc, self.files.as_slice())?;
        sums.sort_unstable();
        sums.dedup();
        Ok(Texts::of(sums))
    }
}

/// The checksums of entries, one by one.
fn checksums_of(alloc: Global, files: &[Entry]) -> Result<Vec<Text>, NoMemory>
    ensures { IfOk result (λ sums. sums.items ≡ named.checksums_of files.now) }
{
    let mut sums = Vec::with_capacity(alloc, files.len())?;
    for entry in files {
        sums.push(entry.checksum.copy(alloc)?)?;
    }
    Ok(sums)
}

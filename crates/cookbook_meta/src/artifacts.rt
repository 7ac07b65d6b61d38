//! Artifacts: the manifests of cookbooks under their identifiers.
ghost use Rattle.std.specs.Prelude.{◌≡◌, [], IfOk, Ok, codes};
ghost use Rattle.doc_tree.specs.Doc.{pairs_of};
ghost use Rattle.doc_tree.specs.Tree.{doc_of};
ghost use Rattle.doc_tree.specs.declared.tree.Tree.TheVariants as tree;
ghost use Rattle.cookbook_meta.specs.Artifacts as spec;
ghost use Rattle.cookbook_meta.specs.Faults.{in_field, then_do};
ghost use Rattle.cookbook_meta.specs.Outcomes.{Gives};
ghost use Rattle.cookbook_meta.specs.Parts.{needed};
ghost use Rattle.cookbook_meta.specs.Segments.{segments, with_segments};
ghost use Rattle.cookbook_meta.specs.Sound as sound;
ghost use Rattle.cookbook_meta.specs.Stored as stored;

use crate::fault::{Flaw, MetaFault, in_field};
use crate::fields::{are_as_asked, named_by, stated};
use crate::manifests::{Manifest, manifest_of, metadata_at};
use crate::metadata::Metadata;
use crate::parts::{is_identifier, text_at, truth_of, version_at};
use crate::segments::files_in;
use crate::stored::artifact_whole;
use doc_tree::{Fields, Name, Text, Tree};
use std::alloc::Global;
use version_rules::Version;

/// The artifact that a body gives under the path's name and identifier, looked at field by field: `name`, which may be
/// missing and else is the path's; `version`; `chef_type` and `json_class`, which may be missing; `frozen?`, false where
/// it isn't given; `metadata`, whose name and version are the artifact's; the nine segments, empty where they aren't
/// given; and `identifier`, 40 lower-case hexadecimal digits, which is the path's. No two entries have one path. The
/// stored object has the identifier and no `cookbook_name`.
///
/// A fault is that of the first field, in this order, that hasn't its form, exactly where one hasn't. What is no Dict
/// is `WrongKind` of `name`.
pub fn read_artifact(
    alloc: Global,
    tree: &Tree,
    name: &Name,
    id: &Text,
) -> Result<Manifest, MetaFault>
    ensures artifact { Gives result (spec.artifact_from name.now id.now (doc_of tree.now)) }
    ensures own { IfOk result (λ m. sound.IsOf name.now m.version m) }
    ensures paths { IfOk result (λ m. sound.HasOwnPaths m.files) }
    ensures sums { IfOk result (λ m. sound.HasChecksums m.files) }
{
    match tree {
        Tree::Dict(body) => artifact_in(alloc, body, name, id),
        Tree::Null | Tree::Bool(_) | Tree::Whole(_) | Tree::Words(_) | Tree::List(_) => {
            Err(Flaw::WrongKind.of_field(alloc, "name"))
        }
    }
}

fn artifact_in(alloc: Global, body: &Fields, name: &Name, id: &Text) -> Result<Manifest, MetaFault>
    ensures { Gives result (spec.artifact_in name.now id.now (pairs_of body.now)) }
{
    let id = id.as_str();
    are_as_asked(alloc, &named_by(name.as_str()), body)?;
    let version = in_field(alloc, "version", version_at(body, "version"))?;
    are_as_asked(alloc, &stated(), body)?;
    let frozen = in_field(alloc, "frozen?", truth_of(body.get("frozen?")))?;
    let metadata = in_field(alloc, "metadata", metadata_at(alloc, body, name, &version))?;
    artifact_with(alloc, body, name, version, id, frozen, metadata)
}

/// The artifact with these metadata, whose files are those of a body.
fn artifact_with(
    alloc: Global,
    body: &Fields,
    name: &Name,
    version: Version,
    id: &str,
    frozen: bool,
    metadata: Metadata,
) -> Result<Manifest, MetaFault>
    ensures { Gives result (then_do (with_segments segments (pairs_of body.now) []) (λ files. then_do (in_field spec.identifier_key (then_do (needed spec.identifier_key (pairs_of body.now)) (spec.is_identified id.now))) (λ identified. Ok (record { name = name.now; version = version; metadata = metadata; frozen = frozen; files = files; whole = tree.Dict (stored.artifact_whole name.now version id.now frozen files (pairs_of body.now)) })))) }
{
    let files = files_in(alloc, body)?;
    in_field(alloc, "identifier", is_identified(body, id))?;
    let whole = artifact_whole(alloc, name, version, id, frozen, files.as_slice(), body)?;
    manifest_of(alloc, name, version, metadata, frozen, files, whole)
}

/// Whether a body has this identifier.
fn is_identified(body: &Fields, id: &str) -> Result<(), Flaw>
    ensures { result ≡ then_do (needed (codes "identifier") (pairs_of body.now)) (spec.is_identified id.now) }
{
    let sent = text_at(body, "identifier")?;
    if !is_identifier(sent) {
        return Err(Flaw::WrongKind);
    }
    if sent == id {
        Ok(())
    } else {
        Err(Flaw::NameDiffers)
    }
}

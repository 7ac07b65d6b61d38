//! The bodies of versions and artifacts of cookbooks, which are what is stored of them.
ghost use Rattle.cookbook_meta.specs.declared.fault.MetaFault.TheVariants as fault;
ghost use Rattle.doc_tree.specs.Tree.{doc_of};
ghost use Rattle.doc_tree.specs.Written.{text};
ghost use Rattle.org_rows.specs.Reading as spec;
ghost use Rattle.org_shelves.specs.Conditions.{IsArtifactOf, IsVersionOf};
ghost use Rattle.org_shelves.specs.StoredManifests.{IsStored, IsStoredArtifact, artifact_stored_from, stored_from};
ghost use Rattle.row_reading.specs.Bodies.{IsTextOf};
ghost use Rattle.std.specs.Prelude.{◌≡◌, ◌≢◌, IfOk, IfSome};

use crate::bodies::{is_text_of, tree_in};
use cookbook_meta::MetaFault;
use doc_tree::{Name, NoMemory, Text, Tree};
use org_shelves::Edition;
use std::alloc::Global;
use version_rules::Version;

/// The version of a cookbook that a body is, where it is what is stored of itself.
pub(crate) fn read_version(
    alloc: Global,
    body: &[u8],
    name: &Name,
    version: &Version,
) -> Result<Option<Edition>, NoMemory>
    ensures found { IfOk result (λ found. found ≡ spec.stored_in (λ doc. spec.given (stored_from name.now version.now doc)) body.now) }
    ensures stored { IfOk result (λ found. IfSome found (IsVersionOf name.now version.now)) }
{
    // The name has the form of one.
    let _name = name.as_str();
    match tree_in(alloc, body)? {
        Some(tree) => {
            let edition = version_in(alloc, &tree, name, version);
            drop(tree);
            if_written(alloc, body, edition?)
        }
        None => Ok(None),
    }
}

fn version_in(
    alloc: Global,
    tree: &Tree,
    name: &Name,
    version: &Version,
) -> Result<Option<Edition>, NoMemory>
    ensures found { IfOk result (λ found. found ≡ spec.given (stored_from name.now version.now (doc_of tree.now))) }
    ensures stored { IfOk result (λ found. IfSome found (IsStored name.now version.now)) }
{
    match Edition::read(alloc, tree, name, version) {
        Ok(edition) => Ok(Some(edition)),
        Err(cause) => none_for(cause),
    }
}

/// The artifact of a cookbook that a body is, where it is what is stored of itself.
pub(crate) fn read_artifact(
    alloc: Global,
    body: &[u8],
    name: &Name,
    id: &Text,
) -> Result<Option<Edition>, NoMemory>
    ensures found { IfOk result (λ found. found ≡ spec.stored_in (λ doc. spec.given (artifact_stored_from name.now id.now doc)) body.now) }
    ensures stored { IfOk result (λ found. IfSome found (IsArtifactOf name.now id.now)) }
{
    // The name has the form of one.
    let _name = name.as_str();
    match tree_in(alloc, body)? {
        Some(tree) => {
            let edition = artifact_in(alloc, &tree, name, id);
            drop(tree);
            if_written(alloc, body, edition?)
        }
        None => Ok(None),
    }
}

fn artifact_in(
    alloc: Global,
    tree: &Tree,
    name: &Name,
    id: &Text,
) -> Result<Option<Edition>, NoMemory>
    ensures found { IfOk result (λ found. found ≡ spec.given (artifact_stored_from name.now id.now (doc_of tree.now))) }
    ensures stored { IfOk result (λ found. IfSome found (IsStoredArtifact name.now id.now)) }
{
    match Edition::read_artifact(alloc, tree, name, id) {
        Ok(edition) => Ok(Some(edition)),
        Err(cause) => none_for(cause),
    }
}

/// No edition, where a document gives none.
fn none_for(cause: MetaFault) -> Result<Option<Edition>, NoMemory>
    ensures { IfOk result (λ found. (found ≡ None) × (cause ≢ fault.NoMemory)) }
{
    let given_none = cause.field().is_some();
    drop(cause);
    if given_none { Ok(None) } else { Err(NoMemory) }
}

/// The edition that was found, where the body is the text of what is stored of it.
fn if_written(
    alloc: Global,
    body: &[u8],
    found: Option<Edition>,
) -> Result<Option<Edition>, NoMemory>
    ensures found { IfOk result (λ kept. kept ≡ spec.written_as text body.now found) }
    ensures compact { IfOk result (λ kept. IfSome kept (λ doc. IsTextOf doc body.now)) }
{
    match found {
        Some(edition) => {
            let same = is_text_of(alloc, body, edition.tree());
            Ok(same?.then_some(edition))
        }
        None => Ok(None),
    }
}

//! Manifests of cookbook versions and artifacts: what refuses one, and how a reply shows one.

ghost use Rattle.std.specs.Prelude.{◌≡◌, IfOk, Some, option_copied};
ghost use Rattle.doc_tree.specs.Tree.{doc_of};
ghost use Rattle.org_core.specs.Contexts.{seen};
ghost use Rattle.org_core.specs.Manifests as spec;

use crate::contexts::Context;
use cookbook_meta::MetaFault;
use doc_tree::{NoMemory, Text, Tree};
use org_requests::{Refusal, Stop, org_uri};
use org_shelves::{Edition, is_committed, shown as shown_manifest};
use sandboxes::Sums;
use std::alloc::Global;

/// 400 with the first field of a manifest that hasn't its form, or want of memory.
pub fn bad_manifest(alloc: Global, fault: &MetaFault) -> Stop
    ensures { spec.IsToldAs result fault.now }
{
    match fault.field() {
        Some(field) => match field.copy(alloc) {
            Ok(field) => Stop::Refused(Refusal::BadField(field)),
            Err(NoMemory) => Stop::NoMemory,
        },
        None => Stop::NoMemory,
    }
}

/// The checksums that a manifest names and of which the organisation has no committed file, in the order of
/// their bytes. The error is want of memory.
pub fn missing_sums(
    alloc: Global,
    context: Context<'_>,
    edition: &Edition,
) -> Result<Sums, NoMemory>
    ensures { IfOk result (λ sums. sums ≡ spec.missing_sums (seen context.entry).files edition.now) }
{
    let mut missing = edition.sums().copy(alloc)?.into_vec();
    missing.retain(|sum| !is_committed(context.org, context.files, sum));
    Ok(Sums::in_order(missing))
}

/// 400 where some of these checksums are missing, with all of them.
pub fn missing_told(sums: Sums) -> Option<Refusal>
    ensures { result ≡ spec.missing_told sums }
{
    if sums.is_empty() {
        None
    } else {
        Some(Refusal::MissingChecksums(sums))
    }
}

/// A manifest as a reply shows it, with the URLs of its files, where one was found, and null where none was. The
/// error is want of memory.
pub fn shown_found(alloc: Global, org: &Text, found: Option<&Edition>) -> Result<Tree, NoMemory>
    ensures { IfOk result (λ tree. doc_of tree ≡ spec.shown_found org.now (option_copied found.entry)) }
{
    match found {
        Some(edition) => shown_edition(alloc, org, edition),
        None => Ok(Tree::Null),
    }
}

/// A manifest as a reply shows it, with the URLs of its files. The error is want of memory.
pub fn shown_edition(alloc: Global, org: &Text, edition: &Edition) -> Result<Tree, NoMemory>
    ensures { IfOk result (λ tree. doc_of tree ≡ spec.shown_found org.now (Some edition.now)) }
{
    let front = Text::joined(alloc, org_uri(alloc, org)?.as_str(), "/files/")?;
    shown_manifest(alloc, front.as_str(), edition)
}

//! The bodies of revisions of policies, which are what is stored of their locks.
ghost use Rattle.doc_tree.specs.Tree.{doc_of};
ghost use Rattle.doc_tree.specs.Written.{text};
ghost use Rattle.org_rows.specs.Reading as spec;
ghost use Rattle.org_shelves.specs.Conditions.{IsRevisionOf, IsStoredLock};
ghost use Rattle.row_reading.specs.Bodies.{IsTextOf};
ghost use Rattle.std.specs.Prelude.{◌≡◌, IfOk, IfSome};

use crate::bodies::{is_text_of, tree_in};
use doc_tree::{Name, NoMemory, Tree};
use org_shelves::Revision;
use policy_locks::{Lock, LockFault, read_lock_of};
use std::alloc::Global;

/// The revision of a policy that a body is, where it is what is stored of its lock.
pub(crate) fn read_revision(
    alloc: Global,
    body: &[u8],
    policy: &Name,
    id: &Name,
) -> Result<Option<Revision>, NoMemory>
    ensures found { IfOk result (λ found. found ≡ spec.stored_in (spec.revision_stored policy.now id.now) body.now) }
    ensures stored { IfOk result (λ found. IfSome found (IsRevisionOf policy.now id.now)) }
{
    // Both names have the form of one.
    let _policy = policy.as_str();
    let _id = id.as_str();
    match tree_in(alloc, body)? {
        Some(tree) => {
            let revision = revision_in(alloc, &tree, policy, id);
            drop(tree);
            if_written(alloc, body, revision?)
        }
        None => Ok(None),
    }
}

fn revision_in(
    alloc: Global,
    tree: &Tree,
    policy: &Name,
    id: &Name,
) -> Result<Option<Revision>, NoMemory>
    ensures found { IfOk result (λ found. found ≡ spec.revision_stored policy.now id.now (doc_of tree.now)) }
    ensures stored { IfOk result (λ found. IfSome found (IsStoredLock policy.now id.now)) }
{
    match read_lock_of(alloc, tree, policy) {
        Ok(lock) => Ok(revision_of(lock, id)),
        Err(LockFault::BadField(_)) => Ok(None),
        Err(LockFault::NoMemory) => Err(NoMemory),
    }
}

/// What is stored of a lock, where it is of this revision.
fn revision_of(lock: Lock, id: &Name) -> Option<Revision>
    ensures { result ≡ spec.lock_stored id.now lock }
{
    if lock.revision_id == *id {
        Some(Revision::of(lock))
    } else {
        drop(lock);
        None
    }
}

/// The revision that was found, where the body is the text of what is stored of it.
fn if_written(
    alloc: Global,
    body: &[u8],
    found: Option<Revision>,
) -> Result<Option<Revision>, NoMemory>
    ensures found { IfOk result (λ kept. kept ≡ spec.written_as text body.now found) }
    ensures compact { IfOk result (λ kept. IfSome kept (λ doc. IsTextOf doc body.now)) }
{
    match found {
        Some(revision) => {
            let same = is_text_of(alloc, body, revision.tree());
            Ok(same?.then_some(revision))
        }
        None => Ok(None),
    }
}

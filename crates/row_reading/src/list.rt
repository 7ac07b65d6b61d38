//! The bodies of access lists.
ghost use Rattle.compact_json.specs.Compact.{IsCompact};
ghost use Rattle.access_lists.specs.Forms.{acl_in};
ghost use Rattle.doc_tree.specs.Tree.{doc_of};
ghost use Rattle.org_rows.specs.Bodies.{acl_body};
ghost use Rattle.org_rows.specs.Reading as spec;
ghost use Rattle.std.specs.Prelude.{◌≡◌, IfOk, IfSome, IsTrue, bytes_eq};

use crate::bodies::{is_text_of, tree_in};
use access_lists::{Acl, AclAt, AclFault, acl_tree, whole_acl};
use doc_tree::{NoMemory, Tree};
use std::alloc::Global;

/// The access list that a body says.
pub(crate) fn read_list(alloc: Global, body: &[u8]) -> Result<Option<Acl>, NoMemory>
    ensures { IfOk result (λ found. found ≡ spec.said acl_body acl_in body.now) }
{
    match tree_in(alloc, body)? {
        Some(tree) => {
            let found = list_in(alloc, &tree);
            drop(tree);
            if_written(alloc, body, found?)
        }
        None => Ok(None),
    }
}

fn list_in(alloc: Global, tree: &Tree) -> Result<Option<Acl>, NoMemory>
    ensures { IfOk result (λ found. found ≡ acl_in (doc_of tree.now)) }
{
    match whole_acl(alloc, tree) {
        Ok(list) => Ok(Some(list)),
        Err(AclFault::NotAnAcl) => Ok(None),
        Err(AclFault::NoMemory) => Err(NoMemory),
    }
}

/// The list that was found, where the body is what is written of it.
fn if_written(alloc: Global, body: &[u8], found: Option<Acl>) -> Result<Option<Acl>, NoMemory>
    ensures found { IfOk result (λ kept. kept ≡ spec.written_as acl_body body.now found) }
    ensures compact { IfOk result (λ kept. IfSome kept (λ _. IsCompact body.now)) }
{
    match found {
        Some(list) => {
            let same = is_written(alloc, body, &list);
            Ok(same?.then_some(list))
        }
        None => Ok(None),
    }
}

fn is_written(alloc: Global, body: &[u8], list: &Acl) -> Result<bool, NoMemory>
    ensures same { IfOk result (λ same. same ≡ bytes_eq (acl_body list.now) body.now) }
    ensures compact { IfOk result (λ same. IsTrue same → IsCompact body.now) }
{
    let tree = acl_tree(alloc, AclAt::of(list))?;
    let same = is_text_of(alloc, body, &tree);
    drop(tree);
    same
}

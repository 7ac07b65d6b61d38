//! Access lists as documents.
ghost use Rattle.std.specs.Prelude.{◌≡◌, [], IfOk, OnOk};
ghost use Rattle.doc_tree.specs.Doc.{dict, pairs_of};
ghost use Rattle.doc_tree.specs.Part.{with_pair};
ghost use Rattle.doc_tree.specs.Tree.{doc_of};
ghost use Rattle.access_lists.specs.Acls.{word_of};
ghost use Rattle.access_lists.specs.Forms as spec;

use crate::acl::{Acl, Entry};
use crate::lent::AclAt;
use crate::perm::Perm;
use doc_tree::{Fields, NoMemory, Text, Tree};
use std::alloc::Global;

/// The document of an access list,
/// `{"create":{"actors":[..],"groups":[..]},"delete":..,"grant":..,"read":..,"update":..}`.
/// `whole_acl` reads it back.
pub fn acl_tree(alloc: Global, acl: AclAt<'_>) -> Result<Tree, NoMemory>
    ensures { IfOk result (λ tree. doc_of tree ≡ spec.acl_doc acl.entry) }
{
    match acl.creator {
        None => whole_tree(alloc, acl.base),
        Some(name) => {
            let whole = acl.base.with_actor(alloc, name)?;
            let tree = whole_tree(alloc, &whole);
            drop(whole);
            tree
        }
    }
}

fn whole_tree(alloc: Global, acl: &Acl) -> Result<Tree, NoMemory>
    ensures { IfOk result (λ tree. doc_of tree ≡ spec.acl_doc acl.now) }
{
    let mut fields = Fields::with_capacity(alloc, 5)?;
    put_entries(alloc, acl, &mut fields).and(Ok(Tree::Dict(fields)))
}

fn put_entries(alloc: Global, acl: &Acl, fields: &mut Fields) -> Result<(), NoMemory>
    requires { fields.old ≡ [] }
    ensures { OnOk result (dict (pairs_of fields.new) ≡ spec.acl_doc acl.now) }
{
    put_entry(alloc, fields, Perm::Create, &acl.create)?;
    put_entry(alloc, fields, Perm::Delete, &acl.delete)?;
    put_entry(alloc, fields, Perm::Grant, &acl.grant)?;
    put_entry(alloc, fields, Perm::Read, &acl.read)?;
    put_entry(alloc, fields, Perm::Update, &acl.update)
}

fn put_entry(alloc: Global, fields: &mut Fields, perm: Perm, entry: &Entry) -> Result<(), NoMemory>
    ensures { OnOk result (fields.new ≡ with_pair (word_of perm) (spec.entry_doc entry.now) fields.old) }
{
    put(alloc, fields, perm.word(), entry_tree(alloc, entry)?)
}

fn entry_tree(alloc: Global, entry: &Entry) -> Result<Tree, NoMemory>
    ensures { IfOk result (λ tree. doc_of tree ≡ spec.entry_doc entry.now) }
{
    let mut fields = Fields::with_capacity(alloc, 2)?;
    put_lists(alloc, entry, &mut fields).and(Ok(Tree::Dict(fields)))
}

fn put_lists(alloc: Global, entry: &Entry, fields: &mut Fields) -> Result<(), NoMemory>
    requires { fields.old ≡ [] }
    ensures { OnOk result (dict (pairs_of fields.new) ≡ spec.entry_doc entry.now) }
{
    put(alloc, fields, "actors", entry.actors.tree(alloc)?)?;
    put(alloc, fields, "groups", entry.groups.tree(alloc)?)
}

fn put(alloc: Global, fields: &mut Fields, key: &str, tree: Tree) -> Result<(), NoMemory>
    ensures { OnOk result (fields.new ≡ with_pair key.now (doc_of tree) fields.old) }
{
    fields.put(Text::from_str(alloc, key)?, tree)
}

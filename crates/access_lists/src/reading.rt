//! Access lists that are read from documents.
ghost use Rattle.std.specs.Prelude.{◌≡◌, ◌↔◌, IfOk, OnOk, Err, Some, None, option_map, option_and_then};
ghost use Rattle.doc_tree.specs.Doc.{dict, docs_of, pairs_of};
ghost use Rattle.doc_tree.specs.Tree.{doc_of};
ghost use Rattle.doc_tree.specs.Part.{pair_at};
ghost use Rattle.membership.specs.TextTrees as text_trees;
ghost use Rattle.access_lists.specs.declared.fault.AclFault.TheVariants as fault;
ghost use Rattle.access_lists.specs.Forms as spec;
ghost use Rattle.access_lists.specs.Sent.{entry_sent, acl_sent};

use crate::acl::{Acl, Entry};
use crate::fault::AclFault;
use crate::perm::Perm;
use doc_tree::{Fields, NoMemory, Tree, Trees};
use membership::{texts_among, texts_in};
use std::alloc::Global;

/// The lists of an entry as they were sent, each of nothing but texts.
#[derive(Clone, Copy, Drop)]
struct SentEntry<'a> {
    actors: &'a Trees,
    groups: &'a Trees,
}

/// The entries of an access list as they were sent.
#[derive(Clone, Copy, Drop)]
struct SentAcl<'a> {
    create: SentEntry<'a>,
    read: SentEntry<'a>,
    update: SentEntry<'a>,
    delete: SentEntry<'a>,
    grant: SentEntry<'a>,
}

/// The entry that a body gives for a permission: the body is `{"PERM":{"actors":[..],"groups":[..]}}`,
/// with both lists, nothing but texts in them, and no further key. The texts may be any, and are put
/// in order. It is `NotAnAcl` exactly where the body hasn't this form, which takes no memory to see.
pub fn read_acl(alloc: Global, tree: &Tree, perm: Perm) -> Result<Entry, AclFault>
    ensures entry { IfOk result (λ entry. spec.entry_for perm (doc_of tree.now) ≡ Some entry) }
    ensures not_an_acl { (result ≡ Err fault.NotAnAcl) ↔ (spec.entry_for perm (doc_of tree.now) ≡ None) }
{
    match entry_for(tree, perm) {
        Some(sent) => Ok(sent.read(alloc)?),
        None => Err(AclFault::NotAnAcl),
    }
}

/// The access list that a document is, as `acl_tree` writes it: its five entries are there, each as
/// `read_acl` has it, and no further key. It is `NotAnAcl` exactly where the document hasn't this form,
/// which takes no memory to see.
pub fn whole_acl(alloc: Global, tree: &Tree) -> Result<Acl, AclFault>
    ensures acl { IfOk result (λ acl. spec.acl_in (doc_of tree.now) ≡ Some acl) }
    ensures not_an_acl { (result ≡ Err fault.NotAnAcl) ↔ (spec.acl_in (doc_of tree.now) ≡ None) }
{
    match acl_in(tree) {
        Some(sent) => Ok(sent.read(alloc)?),
        None => Err(AclFault::NotAnAcl),
    }
}

fn entry_for<'a>(tree: &'a Tree, perm: Perm) -> Option<SentEntry<'a>>
    ensures { option_map entry_sent result ≡ spec.entry_for perm (doc_of tree.now) }
{
    match fields_of(tree, 1) {
        Some(fields) => entry_at(fields, perm),
        None => None,
    }
}

fn acl_in(tree: &Tree) -> Option<SentAcl<'_>>
    ensures { option_map acl_sent result ≡ spec.acl_in (doc_of tree.now) }
{
    match fields_of(tree, 5) {
        Some(fields) => acl_of_entries(fields),
        None => None,
    }
}

fn acl_of_entries(fields: &Fields) -> Option<SentAcl<'_>>
    ensures { option_map acl_sent result ≡ spec.acl_of_entries (pairs_of fields.now) }
{
    Some(SentAcl {
        create: entry_at(fields, Perm::Create)?,
        read: entry_at(fields, Perm::Read)?,
        update: entry_at(fields, Perm::Update)?,
        delete: entry_at(fields, Perm::Delete)?,
        grant: entry_at(fields, Perm::Grant)?,
    })
}

/// The fields of a Dict that has just so many.
fn fields_of(tree: &Tree, count: usize) -> Option<&Fields>
    ensures { option_map (λ fields. pairs_of fields.now) result ≡ spec.fields_of count (doc_of tree.now) }
{
    match tree {
        Tree::Dict(fields) => some_of(fields, count),
        Tree::Null | Tree::Bool(_) | Tree::Whole(_) | Tree::Words(_) | Tree::List(_) => None,
    }
}

#[tactic(auto, using(doc_tree::proofs::Docs::back))]
fn some_of(fields: &Fields, count: usize) -> Option<&Fields>
    ensures { option_map (λ fields. pairs_of fields.now) result ≡ spec.fields_of count (dict (pairs_of fields.now)) }
{
    if fields.len() == count {
        Some(fields)
    } else {
        None
    }
}

/// The entry at a permission's word.
fn entry_at(fields: &Fields, perm: Perm) -> Option<SentEntry<'_>>
    ensures { option_map entry_sent result ≡ spec.entry_at perm (pairs_of fields.now) }
{
    match fields.get(perm.word()) {
        Some(tree) => entry_in(tree),
        None => None,
    }
}

fn entry_in(tree: &Tree) -> Option<SentEntry<'_>>
    ensures { option_map entry_sent result ≡ spec.entry_in (doc_of tree.now) }
{
    match fields_of(tree, 2) {
        Some(fields) => entry_of_lists(fields),
        None => None,
    }
}

fn entry_of_lists(fields: &Fields) -> Option<SentEntry<'_>>
    ensures { option_map entry_sent result ≡ spec.entry_of_lists (pairs_of fields.now) }
{
    Some(SentEntry {
        actors: texts_at(fields, "actors")?,
        groups: texts_at(fields, "groups")?,
    })
}

/// The list of texts at a key.
fn texts_at<'a>(fields: &'a Fields, key: &str) -> Option<&'a Trees>
    ensures { option_map (λ trees. text_trees.texts_among (docs_of trees.now)) result ≡ spec.texts_at key.now (pairs_of fields.now) }
{
    match fields.get(key) {
        Some(tree) => texts_in(tree),
        None => None,
    }
}

impl SentEntry<'_> {
    fn read(&self, alloc: Global) -> Result<Entry, NoMemory>
        ensures { IfOk result (λ entry. entry ≡ entry_sent self.now) }
    {
        Ok(Entry {
            actors: texts_among(alloc, self.actors)?,
            groups: texts_among(alloc, self.groups)?,
        })
    }

    fn read_to(&self, alloc: Global, entry: &mut Entry) -> Result<(), NoMemory>
        ensures { OnOk result (entry.new ≡ entry_sent self.now) }
    {
        *entry = self.read(alloc)?;
        Ok(())
    }
}

impl SentAcl<'_> {
    fn read(&self, alloc: Global) -> Result<Acl, NoMemory>
        ensures { IfOk result (λ acl. acl ≡ acl_sent self.now) }
    {
        let mut acl = Acl::none(alloc);
        self.read_entries(alloc, &mut acl).and(Ok(acl))
    }

    fn read_entries(&self, alloc: Global, acl: &mut Acl) -> Result<(), NoMemory>
        ensures { OnOk result (acl.new ≡ acl_sent self.now) }
    {
        self.create.read_to(alloc, &mut acl.create)?;
        self.read.read_to(alloc, &mut acl.read)?;
        self.update.read_to(alloc, &mut acl.update)?;
        self.delete.read_to(alloc, &mut acl.delete)?;
        self.grant.read_to(alloc, &mut acl.grant)
    }
}

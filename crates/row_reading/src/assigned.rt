//! The bodies of policy groups.
ghost use Rattle.compact_json.specs.Compact.{IsCompact};
ghost use Rattle.doc_tree.specs.Doc.{dict, pairs_of};
ghost use Rattle.doc_tree.specs.Part.{part_at};
ghost use Rattle.doc_tree.specs.Tree.{doc_of};
ghost use Rattle.org_rows.specs.Bodies.{assigned_body, assigned_pair, one_key};
ghost use Rattle.org_rows.specs.Reading as spec;
ghost use Rattle.std.specs.FinMap as finite;
ghost use Rattle.std.specs.Prelude.{◌≡◌, IfOk, IfSome, IsTrue, bytes_eq, codes, map, option_and_then, option_map};

use crate::bodies::{is_text_of, one_key, part_at, tree_in};
use doc_tree::{Fields, NoMemory, Tree};
use org_shelves::Assignments;
use std::alloc::Global;

/// What a policy group assigns, as a body says it.
pub(crate) fn read_assigned(alloc: Global, body: &[u8]) -> Result<Option<Assignments>, NoMemory>
    ensures { IfOk result (λ found. found ≡ spec.said assigned_body spec.assigned_in body.now) }
{
    match tree_in(alloc, body)? {
        Some(tree) => {
            let found = assigned_in(alloc, &tree);
            drop(tree);
            if_written(alloc, body, found?)
        }
        None => Ok(None),
    }
}

fn assigned_in(alloc: Global, tree: &Tree) -> Result<Option<Assignments>, NoMemory>
    ensures { IfOk result (λ found. found ≡ spec.assigned_in (doc_of tree.now)) }
{
    match policies_in(tree) {
        Some(fields) => assigned_by(alloc, fields),
        None => Ok(None),
    }
}

/// The fields of the dict at `policies`.
fn policies_in(tree: &Tree) -> Option<&Fields>
    ensures { option_map (λ fields. pairs_of fields.now) result ≡ option_and_then spec.dict_in (part_at (codes "policies") (doc_of tree.now)) }
{
    match part_at(tree, "policies") {
        Some(part) => dict_in(part),
        None => None,
    }
}

fn dict_in(tree: &Tree) -> Option<&Fields>
    ensures { option_map (λ fields. pairs_of fields.now) result ≡ spec.dict_in (doc_of tree.now) }
{
    match tree {
        Tree::Dict(fields) => Some(fields),
        Tree::Null | Tree::Bool(_) | Tree::Whole(_) | Tree::Words(_) | Tree::List(_) => None,
    }
}

/// Each key assigned the text that stands at it, if each has one.
fn assigned_by(alloc: Global, fields: &Fields) -> Result<Option<Assignments>, NoMemory>
    ensures { IfOk result (λ found. found ≡ option_map (λ texts. finite.from_entries texts) (spec.texts_by_key (pairs_of fields.now))) }
{
    let mut assigned = Assignments::none(alloc);
    for field in fields.as_slice() {
        match field.tree.text() {
            Some(revision) => assigned = assigned.with(alloc, &field.key, revision)?,
            None => return Ok(None),
        }
    }
    Ok(Some(assigned))
}

/// What was found, where the body is what is written of it.
fn if_written(
    alloc: Global,
    body: &[u8],
    found: Option<Assignments>,
) -> Result<Option<Assignments>, NoMemory>
    ensures found { IfOk result (λ kept. kept ≡ spec.written_as assigned_body body.now found) }
    ensures compact { IfOk result (λ kept. IfSome kept (λ _. IsCompact body.now)) }
{
    match found {
        Some(assigned) => {
            let same = is_written(alloc, body, &assigned);
            Ok(same?.then_some(assigned))
        }
        None => Ok(None),
    }
}

fn is_written(alloc: Global, body: &[u8], assigned: &Assignments) -> Result<bool, NoMemory>
    ensures same { IfOk result (λ same. same ≡ bytes_eq (assigned_body assigned.now) body.now) }
    ensures compact { IfOk result (λ same. IsTrue same → IsCompact body.now) }
{
    let tree = assigned_tree(alloc, assigned)?;
    let same = is_text_of(alloc, body, &tree);
    drop(tree);
    same
}

/// The document of what a policy group assigns.
fn assigned_tree(alloc: Global, assigned: &Assignments) -> Result<Tree, NoMemory>
    ensures { IfOk result (λ tree. doc_of tree ≡ one_key (codes "policies") (dict (pairs_of (map assigned_pair (finite.entries assigned.now))))) }
{
    one_key(alloc, "policies", Tree::Dict(policies_of(alloc, assigned)?))
}

fn policies_of(alloc: Global, assigned: &Assignments) -> Result<Fields, NoMemory>
    ensures { IfOk result (λ fields. fields ≡ map assigned_pair (finite.entries assigned.now)) }
{
    let mut fields = Fields::with_capacity(alloc, assigned.entries().len())?;
    for (policy, revision) in assigned.entries() {
        let policy = policy.copy(alloc)?;
        fields.put(policy, Tree::Words(revision.copy(alloc)?))?;
    }
    Ok(fields)
}

//! The metadata of a cookbook's version.
ghost use Rattle.std.specs.Prelude.{◌≡◌, ◌∷◌, ◌++◌, [], IfOk, Ok, option_map};
ghost use Rattle.doc_tree.specs.Doc.{pairs_of};
ghost use Rattle.doc_tree.specs.Part.{pair_at};
ghost use Rattle.doc_tree.specs.Tree.{doc_of};
ghost use Rattle.cookbook_meta.specs.Faults as faults;
ghost use Rattle.cookbook_meta.specs.Faults.{then_do};
ghost use Rattle.cookbook_meta.specs.Metadata as spec;
ghost use Rattle.cookbook_meta.specs.Outcomes.{Finds, Gives};

use crate::fault::{Flaw, MetaFault, in_field};
use crate::parts::{constraint_of, name_at, name_in, version_at};
use doc_tree::{Fields, Name, NoMemory, Text, Tree};
use std::alloc::Global;
use version_rules::{Need, Needs, Version};

/// What a cookbook's version tells of itself: its name, its version, and the cookbooks that it needs, in the order of
/// their names' bytes.
#[derive(Drop)]
pub struct Metadata {
    pub name: Name,
    pub version: Version,
    pub needs: Needs,
}

/// The metadata that a tree gives: `name`, a Name; `version`; and `dependencies`, a Dict from Names to constraints on
/// versions, which may be missing. Keys that aren't listed are passed over.
///
/// A fault is that of the first of these fields, in this order, that hasn't its form, exactly where one hasn't. What
/// is no Dict is `WrongKind` of `name`.
pub fn read_metadata(alloc: Global, tree: &Tree) -> Result<Metadata, MetaFault>
    ensures { Gives result (spec.metadata_from (doc_of tree.now)) }
{
    match tree {
        Tree::Dict(body) => metadata_in(alloc, body),
        Tree::Null | Tree::Bool(_) | Tree::Whole(_) | Tree::Words(_) | Tree::List(_) => {
            Err(Flaw::WrongKind.of_field(alloc, "name"))
        }
    }
}

fn metadata_in(alloc: Global, body: &Fields) -> Result<Metadata, MetaFault>
    ensures { Gives result (spec.metadata_in (pairs_of body.now)) }
{
    let name = in_field(alloc, "name", name_at(alloc, body, "name"))?;
    let version = in_field(alloc, "version", version_at(body, "version"))?;
    let needs = read_needs(alloc, "dependencies", body.get("dependencies"))?;
    Ok(Metadata {
        name,
        version,
        needs,
    })
}

/// The needs that a field tells: a Dict from Names to constraints on versions, as `dependencies` of metadata and
/// `cookbook_versions` of an environment are. There are none where there is no such field.
///
/// What hasn't this form is a fault of the field, exactly where something hasn't.
pub fn read_needs(alloc: Global, field: &str, found: Option<&Tree>) -> Result<Needs, MetaFault>
    ensures { Gives result (faults.in_field field.now (spec.needs_of (option_map (λ t. doc_of t.now) found.entry))) }
{
    in_field(alloc, field, needs_of(alloc, found))
}

fn needs_of(alloc: Global, found: Option<&Tree>) -> Result<Needs, Flaw>
    ensures { Finds result (spec.needs_of (option_map (λ t. doc_of t.now) found.entry)) }
{
    match found {
        None => Ok(Needs::new(alloc)),
        Some(tree) => needs_from(alloc, tree),
    }
}

fn needs_from(alloc: Global, tree: &Tree) -> Result<Needs, Flaw>
    ensures { Finds result (spec.needs_from (doc_of tree.now)) }
{
    match tree {
        Tree::Dict(fields) => needs_in(alloc, fields),
        Tree::Null | Tree::Bool(_) | Tree::Whole(_) | Tree::Words(_) | Tree::List(_) => {
            Err(Flaw::WrongKind)
        }
    }
}

fn needs_in(alloc: Global, fields: &Fields) -> Result<Needs, Flaw>
    ensures { Finds result (spec.needs_in (pairs_of fields.now)) }
{
    let mut needs = Needs::new(alloc);
    for field in fields.as_slice() {
        push_need(alloc, &mut needs, &field.key, &field.tree)?;
    }
    Ok(needs)
}

/// Adds the need that a key and its tree tell.
fn push_need(alloc: Global, needs: &mut Needs, key: &Text, tree: &Tree) -> Result<(), Flaw>
    ensures { Finds (then_do result (λ done. Ok needs.new)) (then_do (spec.need_of key.now (doc_of tree.now)) (λ need. Ok (needs.old ++ need ∷ []))) }
{
    let need = need_of(alloc, key, tree)?;
    needs.push(need)?;
    Ok(())
}

fn need_of(alloc: Global, key: &Text, tree: &Tree) -> Result<Need, Flaw>
    ensures { Finds result (spec.need_of key.now (doc_of tree.now)) }
{
    let name = name_in(alloc, key.as_str())?;
    let constraint = constraint_of(tree)?;
    Ok(Need { name, constraint })
}

/// Metadata as they are stored: as they were sent, with no dependencies where none were sent.
#[tactic(auto, using(doc_tree::proofs::Docs::back))]
pub(crate) fn stored_metadata(alloc: Global, sent: &Fields) -> Result<Fields, NoMemory>
    ensures { IfOk result (λ made. made ≡ spec.stored_metadata (pairs_of sent.now)) }
{
    let mut made = sent.copy(alloc)?;
    if made.get("dependencies").is_none() {
        let key = Text::from_str(alloc, "dependencies")?;
        made.put(key, Tree::Dict(Fields::new(alloc)))?;
    }
    Ok(made)
}

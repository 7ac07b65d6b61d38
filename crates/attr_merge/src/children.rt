//! What the layers have one key further down, key by key.
ghost use Rattle.attr_merge.specs.Children as spec;
ghost use Rattle.attr_merge.specs.Parts.{gathered_in, piece_of, pieces_of};
ghost use Rattle.attr_merge.specs.Pieces.{with_value};
ghost use Rattle.doc_tree.specs.Doc.{pairs_of};
ghost use Rattle.doc_tree.specs.Part.{pair_at, part_at};
ghost use Rattle.doc_tree.specs.Tree.{doc_of};
ghost use Rattle.std.specs.Prelude.{◌≡◌, ◌∷◌, ◌++◌, [], ℕ, List, IfOk, OnOk, Some, None, bytes_eq, if◌then◌else◌};

use crate::parts::{Part, is_null, is_plain};
use doc_tree::{Field, Fields, NoMemory, Text, Tree};
use std::alloc::Global;
use std::collections::BTreeMap;

/// The parts at each key, highest layer first.
pub(crate) type Children<'a> = BTreeMap<Text, Vec<Part<'a>>>;

/// The parts at each key of the dicts among these, down to the first part that is neither a dict nor null.
pub(crate) fn children_of<'a>(alloc: Global, parts: &[Part<'a>]) -> Result<Children<'a>, NoMemory>
    ensures { IfOk result (λ found. (key : List ℕ) → gathered_in found.entries key ≡ spec.children key (pieces_of parts.now)) }
{
    let mut children = BTreeMap::new(alloc);
    for part in parts {
        if is_plain(part.tree) {
            return Ok(children);
        }
        add_part(alloc, &mut children, part)?;
    }
    Ok(children)
}

// Adds what a part has at each of its keys.
fn add_part<'a>(alloc: Global, children: &mut Children<'a>, part: &Part<'a>) -> Result<(), NoMemory>
    ensures { OnOk result ((key : List ℕ) → gathered_in children.new.entries key
        ≡ gathered_in children.old.entries key ++ with_value (piece_of part.now) (part_at key (doc_of part.now.tree.now)) []) }
{
    match part.tree {
        Tree::Dict(fields) => add_fields(alloc, children, part, fields),
        _ => Ok(()),
    }
}

fn add_fields<'a>(
    alloc: Global,
    children: &mut Children<'a>,
    part: &Part<'a>,
    fields: &'a Fields,
) -> Result<(), NoMemory>
    ensures { OnOk result ((key : List ℕ) → gathered_in children.new.entries key
        ≡ gathered_in children.old.entries key ++ with_value (piece_of part.now) (pair_at key (pairs_of fields.now)) []) }
{
    for field in fields.as_slice() {
        add_field(alloc, children, part, field)?;
    }
    Ok(())
}

// Adds a field's tree at its key, unless it is null.
fn add_field<'a>(
    alloc: Global,
    children: &mut Children<'a>,
    part: &Part<'a>,
    field: &'a Field,
) -> Result<(), NoMemory>
    ensures { OnOk result ((key : List ℕ) → gathered_in children.new.entries key
        ≡ gathered_in children.old.entries key ++ with_value (piece_of part.now) (if bytes_eq field.now.key key then Some (doc_of field.now.tree) else None) []) }
{
    if is_null(&field.tree) {
        return Ok(());
    }
    let found = Part {
        position: part.position,
        level: part.level,
        tree: &field.tree,
    };
    add(alloc, children, &field.key, found)
}

// Adds a part at a key, below those that are there.
fn add<'a>(
    alloc: Global,
    children: &mut Children<'a>,
    key: &Text,
    part: Part<'a>,
) -> Result<(), NoMemory>
    ensures { OnOk result ((q : List ℕ) → gathered_in children.new.entries q
        ≡ gathered_in children.old.entries q ++ (if bytes_eq key.now q then piece_of part.entry ∷ [] else [])) }
{
    match children.get_mut(key) {
        Some(parts) => {
            parts.push(part)?;
        }
        None => {
            let mut parts = Vec::with_capacity(alloc, 1)?;
            parts.push(part)?;
            children.insert(key.copy(alloc)?, parts)?;
        }
    }
    Ok(())
}

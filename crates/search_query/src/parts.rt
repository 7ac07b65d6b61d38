//! Where the values of partial rows stand in objects.
ghost use Rattle.std.specs.Prelude.{◌≡◌, ◌∷◌, IfOk, map, option_map};
ghost use Rattle.doc_tree.specs.Part.{at};
ghost use Rattle.doc_tree.specs.Tree.{doc_of};
ghost use Rattle.search_query.specs.Parts as spec;

use compact_json::CompactJson;
use doc_tree::{Kind, NoMemory, Text, Tree};
use std::alloc::Global;

// A node's levels of attributes, in the order in which a path is looked up in them.
static LEVELS: [&str; 4] = ["automatic", "override", "normal", "default"];

// Any other object has no levels.
static NONE: [&str; 0] = [];

/// The value that an object of a kind shows at a path, and null where it has none.
pub(crate) fn value_at(
    alloc: Global,
    kind: Kind,
    path: &[Text],
    object: &CompactJson,
) -> Result<Tree, NoMemory>
    ensures { IfOk result (λ value. doc_of value ≡ spec.value_at kind path.now object.now) }
{
    match in_levels(alloc, levels(kind), path, object)? {
        Some(value) => Ok(value),
        None => Ok(object.part(alloc, path)?.unwrap_or(Tree::Null)),
    }
}

/// The parts of an object in which a path is looked up first: a node's four levels of attributes.
fn levels(kind: Kind) -> &'static [&'static str]
    ensures { map (λ level. level.now) result.now ≡ spec.levels kind }
{
    match kind {
        Kind::Node => &LEVELS,
        _ => &NONE,
    }
}

/// What these levels have at a path, the first before the others. Those behind the first that has a value aren't gone
/// over.
fn in_levels(
    alloc: Global,
    levels: &[&str],
    path: &[Text],
    object: &CompactJson,
) -> Result<Option<Tree>, NoMemory>
    ensures { IfOk result (λ found. option_map doc_of found ≡ spec.in_levels (map (λ level. level.now) levels.now) path.now object.now) }
{
    for level in levels {
        if let Some(value) = in_level(alloc, level, path, object)? {
            return Ok(Some(value));
        }
    }
    Ok(None)
}

/// What a level has at a path, if it isn't null.
fn in_level(
    alloc: Global,
    level: &str,
    path: &[Text],
    object: &CompactJson,
) -> Result<Option<Tree>, NoMemory>
    ensures { IfOk result (λ found. option_map doc_of found ≡ spec.unless_null (at (level.now ∷ path.now) object.now)) }
{
    let path = path_in(alloc, level, path)?;
    Ok(unless_null(object.part(alloc, &path)?))
}

/// A path in a level, from the object on.
fn path_in(alloc: Global, level: &str, path: &[Text]) -> Result<Vec<Text>, NoMemory>
    ensures { IfOk result (λ whole. whole.items ≡ level.now ∷ path.now) }
{
    let mut whole = Vec::with_capacity(alloc, path.len().saturating_add(1))?;
    whole.push(Text::from_str(alloc, level)?)?;
    for key in path {
        whole.push(key.copy(alloc)?)?;
    }
    Ok(whole)
}

fn unless_null(found: Option<Tree>) -> Option<Tree>
    ensures { option_map doc_of result ≡ spec.unless_null (option_map doc_of found) }
{
    match found {
        Some(Tree::Null) | None => None,
        Some(value) => Some(value),
    }
}

//! The objects of an index that a query finds.
ghost use Rattle.std.specs.Prelude.{◌≡◌, ◌+◌, IfOk, length};
ghost use Rattle.std.specs.List.{filter};
ghost use Rattle.doc_tree.specs.Valid.{InOrder};
ghost use Rattle.search_query.specs.Pair.{IsRising, Pair, lists};
ghost use Rattle.search_query.specs.Pairs.{pairs_of};
ghost use Rattle.object_finder.specs.Found as spec;
ghost use Rattle.object_finder.specs.Indexes.{names_of as names_in};
ghost use Rattle.object_finder.specs.Looks.{Looked};
ghost use Rattle.object_finder.specs.Meeting.{meets};

use crate::indexes::{Index, look_up, names_of};
use compact_json::CompactJson;
use doc_tree::{Kind, NoMemory, Steps, Texts};
use object_store::Objects;
use query_text::Query;
use search_query::{Pairs, matches, pairs};
use std::alloc::Global;
use std::sync::ledger::Ledger;

/// The names of the objects of an index that a query finds, in the order of their bytes: those whose pairs of field and
/// value it matches. Of a bag they are the ids of its items.
///
/// Each object of the index is looked at, which is one step, whether it matches or not. Want of memory is the one
/// refusal, and comes after at most as many steps.
pub fn find<L: Ledger>(
    alloc: Global,
    objects: &Objects,
    index: &Index,
    query: &Query,
    steps: &mut Steps<L>,
) -> Result<Texts, NoMemory>
    ensures found { IfOk result (λ names. names ≡ spec.found_in index.now query.now objects.now.objects) }
    ensures order { IfOk result InOrder }
    ensures looked { Looked result (length (names_in index.now objects.now.objects)) steps.old steps.new }
{
    let names = names_of(alloc, objects, index)?;
    keep_found(alloc, objects, index, query, names, steps)
}

// Those of these names whose object the query finds, in their order.
fn keep_found<L: Ledger>(
    alloc: Global,
    objects: &Objects,
    index: &Index,
    query: &Query,
    names: Texts,
    steps: &mut Steps<L>,
) -> Result<Texts, NoMemory>
    ensures found { IfOk result (λ found. found ≡ filter (spec.is_found index.now query.now objects.now.objects) names) }
    ensures looked { Looked result (length names) steps.old steps.new }
{
    let mut found = Texts::new(alloc);
    for name in names.into_vec() {
        if is_found(alloc, objects, index, query, name.as_str(), steps)? {
            found.push(name)?;
        }
    }
    Ok(found)
}

fn is_found<L: Ledger>(
    alloc: Global,
    objects: &Objects,
    index: &Index,
    query: &Query,
    name: &str,
    steps: &mut Steps<L>,
) -> Result<bool, NoMemory>
    ensures found { IfOk result (λ found. found ≡ spec.is_found index.now query.now objects.now.objects name.now) }
    ensures ticks { steps.new ≡ steps.old + 1 }
{
    match look_up(objects, index, name, steps) {
        Some(object) => finds(alloc, index.kind(), query, object),
        None => Ok(false),
    }
}

// The object's tree is read from its text, and goes before its pairs are compared.
fn finds(alloc: Global, kind: Kind, query: &Query, object: &CompactJson) -> Result<bool, NoMemory>
    ensures { IfOk result (λ found. found ≡ meets query.now (pairs_of kind object.now)) }
{
    let pairs = pairs_in(alloc, kind, object)?;
    Ok(matches(query, &pairs))
}

// The pairs of an object.
fn pairs_in(alloc: Global, kind: Kind, object: &CompactJson) -> Result<Pairs, NoMemory>
    ensures rising { IfOk result IsRising }
    ensures members { IfOk result (λ found. (p : Pair) → lists found p ≡ lists (pairs_of kind object.now) p) }
{
    let tree = object.tree(alloc)?;
    pairs(alloc, kind, &tree)
}

//! The pairs of an object, gathered down its tree.
ghost use Rattle.doc_tree.specs.Doc.{docs_of, pairs_of as doc_pairs};
ghost use Rattle.doc_tree.specs.Tree.{doc_of};
ghost use Rattle.search_query.specs.Pair.{IsRising, lists};
ghost use Rattle.search_query.specs.Pair as specs;
ghost use Rattle.search_query.specs.Pairs.{before_bracket, behind_front, found_by, in_brackets, is_level, is_node, item_pairs, items_pairs, key_pairs, node_fields, node_pairs, node_way, onto, pairs_at, pairs_below, pairs_of, pairs_of_each, run_list_pairs};
ghost use Rattle.std.specs.Prelude.{◌≡◌, ◌++◌, IfOk, OnOk, codes, option_copied};
ghost use Rattle.std.specs.Fmt.{signed_decimal};

use crate::pair::{Pair, Pairs};
use doc_tree::{Fields, Kind, Listed, NoMemory, Number, Text, Tree, Trees};
use std::alloc::Global;

/// The way to a part of an object.
#[derive(Drop)]
pub(crate) enum Way {
    /// No key.
    Top,
    /// The keys, joined by `_`, and the last of them.
    At(Text, Text),
}

/// The pairs by which an object is found: each field, which is the keys along a path joined by `_` or the last of them
/// alone, with each value there. Words count as they are, whole numbers in decimal, truth values as `true` and `false`,
/// and null not at all; an array is found by each of its elements. In a node the first key `automatic`, `normal`,
/// `default` or `override` isn't counted, and its run list gives the recipes and roles that it names.
pub fn pairs(alloc: Global, kind: Kind, tree: &Tree) -> Result<Pairs, NoMemory>
    ensures rising { IfOk result IsRising }
    ensures members { IfOk result (λ found. (p : specs.Pair) → lists found p ≡ lists (pairs_of kind (doc_of tree.now)) p) }
{
    Ok(Pairs::of(gathered(alloc, kind, tree)?.into_vec()))
}

// The pairs of an object, in the order of its tree and with repeats.
fn gathered(alloc: Global, kind: Kind, tree: &Tree) -> Result<Listed<Pair>, NoMemory>
    ensures { IfOk result (λ found. found ≡ pairs_of kind (doc_of tree.now)) }
{
    let mut found = Listed::new(alloc);
    if is_node(kind) {
        node(alloc, tree, &mut found)?;
    } else {
        part(alloc, &Way::Top, tree, &mut found)?;
    }
    Ok(found)
}

fn is_node(kind: Kind) -> bool
    ensures { result ≡ is_node kind }
{
    matches!(kind, Kind::Node)
}

fn node(alloc: Global, tree: &Tree, found: &mut Listed<Pair>) -> Result<(), NoMemory>
    ensures { OnOk result (found.new ≡ found.old ++ node_pairs (doc_of tree.now)) }
{
    match tree {
        Tree::Dict(fields) => node_fields(alloc, fields, found),
        _ => Ok(()),
    }
}

fn node_fields(alloc: Global, fields: &Fields, found: &mut Listed<Pair>) -> Result<(), NoMemory>
    ensures { OnOk result (found.new ≡ found.old ++ node_fields (doc_pairs fields.now)) }
{
    for field in fields.as_slice() {
        at_key(alloc, &field.key, &field.tree, found)?;
    }
    Ok(())
}

fn at_key(alloc: Global, key: &Text, tree: &Tree, found: &mut Listed<Pair>) -> Result<(), NoMemory>
    ensures { OnOk result (found.new ≡ found.old ++ key_pairs key.now (doc_of tree.now)) }
{
    let way = node_way(alloc, key)?;
    part(alloc, &way, tree, found)?;
    if key.as_str() == "run_list" {
        run_list(alloc, tree, found)?;
    }
    Ok(())
}

fn node_way(alloc: Global, key: &Text) -> Result<Way, NoMemory>
    ensures { IfOk result (λ way. way ≡ node_way key.now) }
{
    if is_level(key) {
        Ok(Way::Top)
    } else {
        onto(alloc, &Way::Top, key)
    }
}

fn is_level(key: &Text) -> bool
    ensures { result ≡ is_level key.now }
{
    let key = key.as_str();
    key == "automatic" || key == "normal" || key == "default" || key == "override"
}

fn onto(alloc: Global, way: &Way, key: &Text) -> Result<Way, NoMemory>
    ensures { IfOk result (λ further. further ≡ onto way.now key.now) }
{
    match way {
        Way::Top => Ok(Way::At(key.copy(alloc)?, key.copy(alloc)?)),
        Way::At(path, _) => Ok(Way::At(joined(alloc, path, key)?, key.copy(alloc)?)),
    }
}

fn joined(alloc: Global, path: &Text, key: &Text) -> Result<Text, NoMemory>
    ensures { IfOk result (λ text. text ≡ path.now ++ (codes "_" ++ key.now)) }
{
    let path = path.as_str();
    let key = key.as_str();
    let mut text = String::with_capacity(
        alloc,
        path.len().saturating_add(key.len()).saturating_add(1),
    )?;
    text.push_str(path)?;
    text.push_str("_")?;
    text.push_str(key)?;
    Ok(Text::of(text))
}

fn push(alloc: Global, way: &Way, value: &str, found: &mut Listed<Pair>) -> Result<(), NoMemory>
    ensures { OnOk result (found.new ≡ found.old ++ found_by way.now value.now) }
{
    match way {
        Way::Top => Ok(()),
        Way::At(path, last) => {
            found.push(Pair::of(alloc, path.as_str(), value)?)?;
            found.push(Pair::of(alloc, last.as_str(), value)?)?;
            Ok(())
        }
    }
}

#[cycle(flat)]
fn part(alloc: Global, way: &Way, tree: &Tree, found: &mut Listed<Pair>) -> Result<(), NoMemory>
    ensures { OnOk result (found.new ≡ found.old ++ pairs_at way.now (doc_of tree.now)) }
{
    match tree {
        Tree::Null => Ok(()),
        Tree::Bool(truth) => push(alloc, way, if *truth { "true" } else { "false" }, found),
        Tree::Whole(number) => whole(alloc, way, number, found),
        Tree::Words(text) => push(alloc, way, text.as_str(), found),
        Tree::List(trees) => each(alloc, way, trees, found),
        Tree::Dict(fields) => below(alloc, way, fields, found),
    }
}

fn whole(
    alloc: Global,
    way: &Way,
    number: &Number,
    found: &mut Listed<Pair>,
) -> Result<(), NoMemory>
    ensures { OnOk result (found.new ≡ found.old ++ found_by way.now (signed_decimal number.now)) }
{
    let value = number.value();
    let text = format!(in alloc; "{value}")?;
    push(alloc, way, text.as_str(), found)
}

#[cycle(flat)]
fn each(alloc: Global, way: &Way, trees: &Trees, found: &mut Listed<Pair>) -> Result<(), NoMemory>
    ensures { OnOk result (found.new ≡ found.old ++ pairs_of_each way.now (docs_of trees.now)) }
{
    for tree in trees.as_slice() {
        part(alloc, way, tree, found)?;
    }
    Ok(())
}

#[cycle(flat)]
fn below(
    alloc: Global,
    way: &Way,
    fields: &Fields,
    found: &mut Listed<Pair>,
) -> Result<(), NoMemory>
    ensures { OnOk result (found.new ≡ found.old ++ pairs_below way.now (doc_pairs fields.now)) }
{
    for field in fields.as_slice() {
        let further = onto(alloc, way, &field.key)?;
        part(alloc, &further, &field.tree, found)?;
    }
    Ok(())
}

fn run_list(alloc: Global, tree: &Tree, found: &mut Listed<Pair>) -> Result<(), NoMemory>
    ensures { OnOk result (found.new ≡ found.old ++ run_list_pairs (doc_of tree.now)) }
{
    match tree {
        Tree::List(trees) => items(alloc, trees, found),
        _ => Ok(()),
    }
}

fn items(alloc: Global, trees: &Trees, found: &mut Listed<Pair>) -> Result<(), NoMemory>
    ensures { OnOk result (found.new ≡ found.old ++ items_pairs (docs_of trees.now)) }
{
    for tree in trees.as_slice() {
        if let Tree::Words(text) = tree {
            item(alloc, text.as_str(), found)?;
        }
    }
    Ok(())
}

fn item(alloc: Global, text: &str, found: &mut Listed<Pair>) -> Result<(), NoMemory>
    ensures { OnOk result (found.new ≡ found.old ++ item_pairs text.now) }
{
    in_brackets(alloc, "recipe", behind_front(text, "recipe["), found)?;
    in_brackets(alloc, "role", behind_front(text, "role["), found)
}

fn in_brackets(
    alloc: Global,
    field: &str,
    rest: Option<&str>,
    found: &mut Listed<Pair>,
) -> Result<(), NoMemory>
    ensures { OnOk result (found.new ≡ found.old ++ in_brackets field.now (option_copied rest.entry)) }
{
    match rest {
        Some(rest) => match before_bracket(rest) {
            Some(name) => {
                found.push(Pair::of(alloc, field, name)?)?;
                Ok(())
            }
            None => Ok(()),
        },
        None => Ok(()),
    }
}

fn behind_front<'a>(text: &'a str, front: &str) -> Option<&'a str>
    ensures { option_copied result ≡ behind_front front.now text.now }
{
    text.strip_prefix(front)
}

fn before_bracket(text: &str) -> Option<&str>
    ensures { option_copied result ≡ before_bracket text.now }
{
    text.strip_suffix("]")
}

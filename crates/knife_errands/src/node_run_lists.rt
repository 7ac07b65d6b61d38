//! Changes of a node's run list.

ghost use Rattle.std.specs.Prelude.{◌≡◌, ◌++◌, ◌∷◌, [], IfOk, OnOk, Some, bytes_eq, codes, map, not, filter, option_and_then, option_map};
ghost use Rattle.std.specs.List.{list_any};
ghost use Rattle.doc_tree.specs.Doc.{dict, list, words, docs_of, pairs_of};
ghost use Rattle.doc_tree.specs.Tree.{doc_of};
ghost use Rattle.run_lists.specs.Reading as run_lists;
ghost use Rattle.knife_errands.specs.Bodies as bodies;
ghost use Rattle.knife_errands.specs.Outcomes.{TellsBody};
ghost use Rattle.knife_errands.specs.Printing.{lines};
ghost use Rattle.knife_errands.specs.RunLists as spec;

use crate::bodies::{document_in, part_at};
use crate::errands::{Kind, RunListChange};
use crate::faults::BodyFault;
use crate::printing::lines;
use crate::requests::{bare, sends};
use crate::targets::target_of_two;
use doc_tree::{Bytes, NoMemory, Text, Texts, Tree, Trees};
use peer_wire::{Ask, Verb, Whom};
use run_lists::{ItemFault, Items, read_item, run_list_of};
use std::alloc::Global;

/// The GET of a node.
pub fn node_request(alloc: Global, node: &Text, whom: &Whom) -> Result<Ask, NoMemory>
    ensures { IfOk result (λ ask. ask ≡ spec.node_request node.now whom.now) }
{
    Ok(bare(Verb::Get, node_target(alloc, node, whom)?))
}

fn node_target(alloc: Global, node: &Text, whom: &Whom) -> Result<Text, NoMemory>
    ensures { IfOk result (λ target. target ≡ spec.node_target whom.now node.now) }
{
    target_of_two(alloc, whom, Kind::Node.collection(), node.as_str())
}

/// The PUT of a node whose run list was changed by an item, by the body that the GET gave: the item comes last where it
/// is new, or all but it stay. An item is first written as it is stored, and any other text stays as it is. It is
/// `Malformed` only where the body isn't a document with a run list.
pub fn changed_request(
    alloc: Global,
    node: &Text,
    change: RunListChange,
    item: &Text,
    whom: &Whom,
    body: &Bytes,
) -> Result<Ask, BodyFault>
    ensures { TellsBody result (spec.changed_request node.now change item.now whom.now body.now) }
{
    match changed_by(alloc, change, item, body.as_slice())? {
        Some(tree) => Ok(sends(alloc, Verb::Put, node_target(alloc, node, whom)?, &tree)?),
        None => Err(BodyFault::Malformed),
    }
}

fn changed_by(
    alloc: Global,
    change: RunListChange,
    item: &Text,
    body: &[u8],
) -> Result<Option<Tree>, NoMemory>
    ensures { IfOk result (λ tree. option_map doc_of tree ≡ option_and_then (spec.changed_node change item.now) (bodies.document_in body.now)) }
{
    match document_in(alloc, body)? {
        Some(tree) => changed_node(alloc, change, item, tree),
        None => Ok(None),
    }
}

fn changed_node(
    alloc: Global,
    change: RunListChange,
    item: &Text,
    tree: Tree,
) -> Result<Option<Tree>, NoMemory>
    ensures { IfOk result (λ found. option_map doc_of found ≡ spec.changed_node change item.now (doc_of tree)) }
{
    match items_in(alloc, &tree)? {
        Some(items) => {
            let item = item_text(alloc, item)?;
            let items = changed(change, item, items)?;
            Ok(Some(with_items(alloc, &items, tree)?))
        }
        None => Ok(None),
    }
}

/// The items of the node that a body is, a line each. It is `Malformed` only where the body isn't a document with a run
/// list.
pub fn printed_items(alloc: Global, body: &Bytes) -> Result<Bytes, BodyFault>
    ensures { TellsBody result (spec.printed_items body.now) }
{
    match items_of_body(alloc, body.as_slice())? {
        Some(items) => Ok(lines(alloc, &items)?),
        None => Err(BodyFault::Malformed),
    }
}

fn items_of_body(alloc: Global, body: &[u8]) -> Result<Option<Texts>, NoMemory>
    ensures { IfOk result (λ items. items ≡ option_and_then spec.items_in (bodies.document_in body.now)) }
{
    match document_in(alloc, body)? {
        Some(tree) => items_in(alloc, &tree),
        None => Ok(None),
    }
}

fn items_in(alloc: Global, tree: &Tree) -> Result<Option<Texts>, NoMemory>
    ensures { IfOk result (λ items. items ≡ spec.items_in (doc_of tree.now)) }
{
    match part_at(tree, "run_list") {
        Some(part) => items_at(alloc, part),
        None => Ok(None),
    }
}

fn items_at(alloc: Global, tree: &Tree) -> Result<Option<Texts>, NoMemory>
    ensures { IfOk result (λ items. items ≡ option_map spec.texts_of (run_lists.run_list_of (doc_of tree.now))) }
{
    match run_list_of(alloc, tree)? {
        Some(items) => Ok(Some(texts_of(alloc, &items)?)),
        None => Ok(None),
    }
}

fn texts_of(alloc: Global, items: &Items) -> Result<Texts, NoMemory>
    ensures { IfOk result (λ texts. texts ≡ spec.texts_of items.now) }
{
    let mut texts = Texts::new(alloc);
    for item in items.as_slice() {
        texts.push(item.text().copy(alloc)?)?;
    }
    Ok(texts)
}

fn item_text(alloc: Global, item: &Text) -> Result<Text, NoMemory>
    ensures { IfOk result (λ text. text ≡ spec.item_text item.now) }
{
    match read_item(alloc, item) {
        Ok(item) => item.text().copy(alloc),
        Err(ItemFault::NotAnItem | ItemFault::BadVersion) => item.copy(alloc),
        Err(ItemFault::NoMemory) => Err(NoMemory),
    }
}

fn changed(change: RunListChange, item: Text, items: Texts) -> Result<Texts, NoMemory>
    ensures { IfOk result (λ changed. changed ≡ spec.changed change item items) }
{
    match change {
        RunListChange::Add => added(item, items),
        RunListChange::Remove => Ok(without(&item, items)),
    }
}

fn added(item: Text, items: Texts) -> Result<Texts, NoMemory>
    ensures { IfOk result (λ added. added ≡ spec.added item items) }
{
    let mut items = items;
    if !has(items.as_slice(), &item) {
        items.push(item)?;
    }
    Ok(items)
}

fn has(items: &[Text], item: &Text) -> bool
    ensures { result ≡ list_any (bytes_eq item.now) items.now }
{
    items.iter().any(|other| item == other)
}

fn without(item: &Text, items: Texts) -> Texts
    ensures { result ≡ spec.without item.now items }
{
    let mut items = items.into_vec();
    items.retain(|other| is_other(item, other));
    Texts::of(items)
}

fn is_other(item: &Text, other: &Text) -> bool
    ensures { result ≡ not (bytes_eq item.now other.now) }
{
    item != other
}

#[tactic(auto, using(doc_tree::proofs::Docs::back))]
fn with_items(alloc: Global, items: &Texts, tree: Tree) -> Result<Tree, NoMemory>
    ensures { IfOk result (λ changed. doc_of changed ≡ spec.with_items items.now (doc_of tree)) }
{
    match tree {
        Tree::Dict(fields) => {
            let mut fields = fields;
            let key = Text::from_str(alloc, "run_list")?;
            fields.put(key, Tree::List(trees_of(alloc, items)?))?;
            Ok(Tree::Dict(fields))
        }
        other => Ok(other),
    }
}

fn trees_of(alloc: Global, texts: &Texts) -> Result<Trees, NoMemory>
    ensures { IfOk result (λ trees. trees ≡ map words texts.now) }
{
    let mut trees = Trees::with_capacity(alloc, texts.len())?;
    for text in texts.as_slice() {
        trees.push(Tree::Words(text.copy(alloc)?))?;
    }
    Ok(trees)
}

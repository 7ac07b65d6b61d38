//! The entries of `notifies` and `subscribes`.
ghost use Rattle.std.specs.Prelude.{◌≡◌, IfOk, Some, is_some, option_map, option_copied, option_and_then, codes, unwrap_or, []};
ghost use Rattle.std.specs.List.{filter_map, list_any};
ghost use Rattle.doc_tree.specs.Text.{text_of};
ghost use Rattle.doc_tree.specs.Doc.{pairs_of};
ghost use Rattle.doc_tree.specs.Part.{pair_at};
ghost use Rattle.doc_tree.specs.Tree.{doc_of};
ghost use Rattle.resource_core.specs.Entries as spec;
ghost use Rattle.resource_core.specs.Outcomes.{each_of};

use doc_tree::{Fields, Listed, NoMemory, Text, Tree, Trees};
use std::alloc::Global;

/// When a notification is performed.
#[derive(Clone, Copy, Debug, PartialEq, Eq, Drop)]
pub enum Timer {
    /// Once, behind all own actions.
    Delayed,
    /// At once, with what it fires.
    Immediately,
}

/// An entry of `notifies` or `subscribes`, as it is stated.
#[derive(Drop)]
pub struct Entry {
    /// The word of an action.
    pub action: Text,
    /// A `type[name]`.
    pub resource: Text,
    pub timer: Timer,
}

/// Entries, in order.
pub type Entries = Listed<Entry>;

/// An entry that was read without memory.
#[derive(Clone, Copy)]
pub(crate) struct StatedEntry<'a> {
    pub(crate) action: &'a Text,
    pub(crate) resource: &'a Text,
    pub(crate) timer: Timer,
}

/// The text at a key.
pub(crate) fn text_at<'a>(fields: &'a Fields, key: &str) -> Option<&'a Text>
    ensures { option_copied result ≡ option_and_then text_of (pair_at key.now (pairs_of fields.now)) }
{
    match fields.get(key) {
        Some(tree) => tree.text(),
        None => None,
    }
}

fn timer_named(word: &str) -> Option<Timer>
    ensures { result ≡ spec.timer_named word.now }
{
    if word == "delayed" {
        Some(Timer::Delayed)
    } else if word == "immediately" {
        Some(Timer::Immediately)
    } else {
        None
    }
}

fn timer_in(fields: &Fields) -> Option<Timer>
    ensures { result ≡ spec.timer_in (pair_at (codes "timer") (pairs_of fields.now)) }
{
    match fields.get("timer") {
        None => Some(Timer::Delayed),
        Some(tree) => match tree.text() {
            Some(word) => timer_named(word.as_str()),
            None => None,
        },
    }
}

fn is_entry_key(key: &str) -> bool
    ensures { result ≡ spec.is_entry_key key.now }
{
    key == "action" || key == "resource" || key == "timer"
}

fn are_entry_keys(fields: &Fields) -> bool
    ensures { result ≡ spec.are_entry_keys (pairs_of fields.now) }
{
    for field in fields.as_slice() {
        if !is_entry_key(field.key.as_str()) {
            return false;
        }
    }
    true
}

fn entry_in(fields: &Fields) -> Option<StatedEntry<'_>>
    ensures { option_map spec.entry_by result ≡ spec.entry_in (pairs_of fields.now) }
{
    if !are_entry_keys(fields) {
        return None;
    }
    let Some(action) = text_at(fields, "action") else {
        return None;
    };
    let Some(resource) = text_at(fields, "resource") else {
        return None;
    };
    match timer_in(fields) {
        Some(timer) => Some(StatedEntry {
            action,
            resource,
            timer,
        }),
        None => None,
    }
}

/// The entry that a tree is.
pub(crate) fn entry_of(tree: &Tree) -> Option<StatedEntry<'_>>
    ensures { option_map spec.entry_by result ≡ spec.entry_of (doc_of tree.now) }
{
    match tree {
        Tree::Dict(fields) => entry_in(fields),
        Tree::Null | Tree::Bool(_) | Tree::Whole(_) | Tree::Words(_) | Tree::List(_) => None,
    }
}

/// Whether a tree is a list of entries.
#[tactic(auto, using(doc_tree::proofs::Docs::back))]
pub(crate) fn are_entries(tree: &Tree) -> bool
    ensures { result ≡ is_some (spec.entries_of (doc_of tree.now)) }
{
    match tree {
        Tree::List(trees) => each_is_entry(trees),
        Tree::Null | Tree::Bool(_) | Tree::Whole(_) | Tree::Words(_) | Tree::Dict(_) => false,
    }
}

fn each_is_entry(trees: &Trees) -> bool
    ensures { result ≡ is_some (each_of spec.entry_of trees.now) }
{
    for tree in trees.as_slice() {
        if entry_of(tree).is_none() {
            return false;
        }
    }
    true
}

fn copied(alloc: Global, stated: StatedEntry<'_>) -> Result<Entry, NoMemory>
    ensures { IfOk result (λ entry. entry ≡ spec.entry_by stated.entry) }
{
    Ok(Entry {
        action: stated.action.copy(alloc)?,
        resource: stated.resource.copy(alloc)?,
        timer: stated.timer,
    })
}

/// The entries that trees are, or `None` where one isn't an entry.
fn each_entry(alloc: Global, trees: &Trees) -> Result<Option<Entries>, NoMemory>
    ensures { IfOk result (λ found. found ≡ each_of spec.entry_of trees.now) }
{
    let mut entries = Entries::new(alloc);
    for tree in trees.as_slice() {
        match entry_of(tree) {
            None => return Ok(None),
            Some(stated) => entries.push(copied(alloc, stated)?)?,
        }
    }
    Ok(Some(entries))
}

#[tactic(auto, using(doc_tree::proofs::Docs::back))]
fn entries_of(alloc: Global, tree: &Tree) -> Result<Option<Entries>, NoMemory>
    ensures { IfOk result (λ found. found ≡ spec.entries_of (doc_of tree.now)) }
{
    match tree {
        Tree::List(trees) => each_entry(alloc, trees),
        Tree::Null | Tree::Bool(_) | Tree::Whole(_) | Tree::Words(_) | Tree::Dict(_) => Ok(None),
    }
}

/// The entries at a key: none where there is no list of entries.
pub(crate) fn entries_at(alloc: Global, fields: &Fields, key: &str) -> Result<Entries, NoMemory>
    ensures { IfOk result (λ entries. entries ≡ unwrap_or (option_and_then spec.entries_of (pair_at key.now (pairs_of fields.now))) []) }
{
    let Some(tree) = fields.get(key) else {
        return Ok(Entries::new(alloc));
    };
    match entries_of(alloc, tree)? {
        Some(entries) => Ok(entries),
        None => Ok(Entries::new(alloc)),
    }
}

/// Whether an entry of `subscribes` states `create`.
#[tactic(auto, using(doc_tree::proofs::Docs::back))]
pub(crate) fn subscribes_to_create(fields: &Fields) -> bool
    ensures { result ≡ list_any spec.is_to_create (spec.stated_in (pair_at (codes "subscribes") (pairs_of fields.now))) }
{
    match fields.get("subscribes") {
        Some(Tree::List(trees)) => states_create(trees),
        _ => false,
    }
}

fn states_create(trees: &Trees) -> bool
    ensures { result ≡ list_any spec.is_to_create (filter_map spec.entry_of trees.now) }
{
    for tree in trees.as_slice() {
        if let Some(stated) = entry_of(tree)
            && stated.action.as_str() == "create"
        {
            return true;
        }
    }
    false
}

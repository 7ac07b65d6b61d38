//! Resources, and how one is made of what its fields state.
ghost use Rattle.std.specs.Prelude.{◌≡◌, ◌∷◌, IfOk, Some, codes, option_map, option_and_then, take, []};
ghost use Rattle.doc_tree.specs.Doc.{pairs_of};
ghost use Rattle.doc_tree.specs.Part.{pair_at};
ghost use Rattle.doc_tree.specs.Tree.{doc_of};
ghost use Rattle.resource_core.specs.Outcomes.{each_of};
ghost use Rattle.resource_core.specs.Modes as modes;
ghost use Rattle.resource_core.specs.Resources as spec;
ghost use Rattle.resource_core.specs.Types as types;

use crate::entries::{Entries, entries_at, text_at};
use crate::modes::mode_of;
use crate::templates::{Stated, stated_at};
use crate::types::{Action, ResourceType, is_known, row_of, type_named};
use crate::values::truth_at;
use attr_merge::Merged;
use doc_tree::{Fields, Listed, NoMemory, Text, Tree, Trees};
use host_tree::{Mode, Path};
use std::alloc::Global;

/// Actions, in order.
pub type Actions = Listed<Action>;

/// A resource of a plan. A property that its type lacks is `None` or false.
#[derive(Drop)]
pub struct Resource {
    pub kind: ResourceType,
    pub name: Text,
    /// Where it lies: its name where no path is stated.
    pub path: Path,
    /// Its own actions, in order.
    pub actions: Actions,
    /// The content of a file.
    pub content: Option<Text>,
    /// The mode of a file or directory.
    pub mode: Option<Mode>,
    /// Where a link leads. It is there where `create` is an own or notified action of the link.
    pub to: Option<Text>,
    /// Whether what stands in the way of a file is replaced.
    pub force_unlink: bool,
    /// Whether missing prefixes of a directory are made, and what is in it is removed with it.
    pub recursive: bool,
    /// What it notifies, as it is stated.
    pub notifies: Entries,
    /// What it subscribes to, as it is stated.
    pub subscribes: Entries,
}

impl Resource {
    /// Its `type[name]`.
    pub fn title(&self, alloc: Global) -> Result<Text, NoMemory>
        ensures { IfOk result (λ title. title ≡ spec.title_of self.now) }
    {
        title(alloc, self.kind, self.name.as_str())
    }
}

/// `type[name]`.
pub(crate) fn title(alloc: Global, kind: ResourceType, name: &str) -> Result<Text, NoMemory>
    ensures { IfOk result (λ title. title ≡ spec.title kind name.now) }
{
    let mut text = String::from_str(alloc, kind.word())?;
    text.push_str("[")?;
    text.push_str(name)?;
    text.push_str("]")?;
    Ok(Text::of(text))
}

/// The type that fields state.
pub(crate) fn type_in(fields: &Fields) -> Option<ResourceType>
    ensures { result ≡ spec.type_in (pairs_of fields.now) }
{
    match text_at(fields, "type") {
        Some(word) => type_named(word.as_str()),
        None => None,
    }
}

/// The own actions that fields state, or `None` where one isn't an action of the type.
pub(crate) fn actions_in(
    alloc: Global,
    fields: &Fields,
    kind: ResourceType,
) -> Result<Option<Actions>, NoMemory>
    ensures { IfOk result (λ found. found ≡ spec.actions_in kind (pair_at (codes "action") (pairs_of fields.now))) }
{
    match fields.get("action") {
        Some(tree) => actions_of(alloc, tree, kind),
        None => default_action(alloc, kind),
    }
}

fn default_action(alloc: Global, kind: ResourceType) -> Result<Option<Actions>, NoMemory>
    ensures { IfOk result (λ found. found ≡ Some (take 1 (types.row kind).actions)) }
{
    let mut actions = Actions::new(alloc);
    if let Some(first) = kind.actions().first() {
        actions.push(*first)?;
    }
    Ok(Some(actions))
}

#[tactic(auto, using(doc_tree::proofs::Docs::back))]
fn actions_of(alloc: Global, tree: &Tree, kind: ResourceType) -> Result<Option<Actions>, NoMemory>
    ensures { IfOk result (λ found. found ≡ spec.actions_of kind (doc_of tree.now)) }
{
    match tree {
        Tree::Words(word) => one_action(alloc, word, kind),
        Tree::List(trees) => each_action(alloc, trees, kind),
        Tree::Null | Tree::Bool(_) | Tree::Whole(_) | Tree::Dict(_) => Ok(None),
    }
}

fn one_action(alloc: Global, word: &Text, kind: ResourceType) -> Result<Option<Actions>, NoMemory>
    ensures { IfOk result (λ found. found ≡ option_map (λ action. action ∷ []) (types.action_in kind word.now)) }
{
    let Some(action) = kind.action_named(word.as_str()) else {
        return Ok(None);
    };
    let mut actions = Actions::new(alloc);
    actions.push(action)?;
    Ok(Some(actions))
}

fn each_action(
    alloc: Global,
    trees: &Trees,
    kind: ResourceType,
) -> Result<Option<Actions>, NoMemory>
    ensures { IfOk result (λ found. found ≡ each_of (spec.action_of kind) trees.now) }
{
    let mut actions = Actions::new(alloc);
    for tree in trees.as_slice() {
        match action_of(tree, kind) {
            None => return Ok(None),
            Some(action) => actions.push(action)?,
        }
    }
    Ok(Some(actions))
}

fn action_of(tree: &Tree, kind: ResourceType) -> Option<Action>
    ensures { result ≡ spec.action_of kind (doc_of tree.now) }
{
    match tree.text() {
        Some(word) => kind.action_named(word.as_str()),
        None => None,
    }
}

/// Whether each key is one that a resource of this type may have.
pub(crate) fn are_known(fields: &Fields, kind: ResourceType) -> bool
    ensures { result ≡ spec.are_known kind (pairs_of fields.now) }
{
    for field in fields.as_slice() {
        if !is_known(kind, field.key.as_str()) {
            return false;
        }
    }
    true
}

/// The text at a key, with its attributes, where there is one and they are there.
pub(crate) fn words_at(
    alloc: Global,
    fields: &Fields,
    key: &str,
    merged: &Merged,
) -> Result<Option<Text>, NoMemory>
    ensures { IfOk result (λ found. found ≡ spec.words_at merged.now.document key.now (pairs_of fields.now)) }
{
    match stated_at(alloc, fields, key, merged)? {
        Stated::Words(text) => Ok(Some(text)),
        Stated::NotThere | Stated::Malformed | Stated::Missing(_) => Ok(None),
    }
}

fn name_at(alloc: Global, fields: &Fields, merged: &Merged) -> Result<Text, NoMemory>
    ensures { IfOk result (λ name. name ≡ spec.name_at merged.now.document (pairs_of fields.now)) }
{
    match words_at(alloc, fields, "name", merged)? {
        Some(name) => Ok(name),
        None => Text::from_str(alloc, ""),
    }
}

/// Where a resource lies: at its path, which is its name where none is stated.
pub(crate) fn path_of(
    alloc: Global,
    fields: &Fields,
    kind: ResourceType,
    merged: &Merged,
) -> Result<Text, NoMemory>
    ensures { IfOk result (λ path. path ≡ spec.path_of merged.now.document kind (pairs_of fields.now)) }
{
    match words_at(alloc, fields, row_of(kind).path, merged)? {
        Some(path) => Ok(path),
        None => name_at(alloc, fields, merged),
    }
}

fn mode_at(fields: &Fields, key: &str) -> Option<Mode>
    ensures { result ≡ option_and_then modes.mode_of (pair_at key.now (pairs_of fields.now)) }
{
    match fields.get(key) {
        Some(tree) => mode_of(tree),
        None => None,
    }
}

/// The resource of this type, these own actions and this path.
pub(crate) fn stated_resource(
    alloc: Global,
    fields: &Fields,
    kind: ResourceType,
    actions: Actions,
    path: Path,
    merged: &Merged,
) -> Result<Resource, NoMemory>
    ensures { IfOk result (λ made. path ≡ spec.path_of merged.now.document kind (pairs_of fields.now) → made ≡ spec.resource merged.now.document kind actions (pairs_of fields.now)) }
{
    let words = words_in(alloc, fields, merged)?;
    let lists = lists_in(alloc, fields)?;
    Ok(Resource {
        kind,
        name: words.name,
        path,
        actions,
        content: words.content,
        mode: mode_at(fields, "mode"),
        to: words.to,
        force_unlink: truth_at(fields, "force_unlink"),
        recursive: truth_at(fields, "recursive"),
        notifies: lists.notifies,
        subscribes: lists.subscribes,
    })
}

/// The texts of a resource but its path.
#[derive(Drop)]
struct Words {
    name: Text,
    content: Option<Text>,
    to: Option<Text>,
}

fn words_in(alloc: Global, fields: &Fields, merged: &Merged) -> Result<Words, NoMemory>
    ensures name { IfOk result (λ words. words.name ≡ spec.name_at merged.now.document (pairs_of fields.now)) }
    ensures content { IfOk result (λ words. words.content ≡ spec.words_at merged.now.document (codes "content") (pairs_of fields.now)) }
    ensures to { IfOk result (λ words. words.to ≡ spec.words_at merged.now.document (codes "to") (pairs_of fields.now)) }
{
    Ok(Words {
        name: name_at(alloc, fields, merged)?,
        content: words_at(alloc, fields, "content", merged)?,
        to: words_at(alloc, fields, "to", merged)?,
    })
}

/// What a resource notifies and what it subscribes to.
#[derive(Drop)]
struct EntryLists {
    notifies: Entries,
    subscribes: Entries,
}

fn lists_in(alloc: Global, fields: &Fields) -> Result<EntryLists, NoMemory>
    ensures notifies { IfOk result (λ lists. lists.notifies ≡ spec.entries_at (codes "notifies") (pairs_of fields.now)) }
    ensures subscribes { IfOk result (λ lists. lists.subscribes ≡ spec.entries_at (codes "subscribes") (pairs_of fields.now)) }
{
    Ok(EntryLists {
        notifies: entries_at(alloc, fields, "notifies")?,
        subscribes: entries_at(alloc, fields, "subscribes")?,
    })
}

//! The resources of recipes one by one, or the first fault among them.
ghost use Rattle.std.specs.Prelude.{◌≡◌, ◌++◌, ◌∷◌, [], IfOk, OnOk, Some, map, option_copied};
ghost use Rattle.doc_tree.specs.Doc.{pairs_of};
ghost use Rattle.resource_core.specs.Drafts as spec;
ghost use Rattle.resource_core.specs.Drafting.{KnowsTitles, given_by, given_with, made_by};
ghost use Rattle.resource_core.specs.Outcomes.{Gives};
ghost use Rattle.resource_core.specs.Titles.{HasFirsts, Notes, pairs_by};
ghost use Rattle.resource_core.specs.Types as types;
ghost use Rattle.resource_core.specs.Values as values;
ghost use Rattle.std.specs.List.{list_any};

use crate::entries::subscribes_to_create;
use crate::fault::{CompileFault, bad_value};
use crate::resources::{
    Actions, Resource, actions_in, are_known, path_of, stated_resource, title, type_in, words_at,
};
use crate::types::{Action, ResourceType, common, row_of};
use crate::values::{first_bad, first_missing};
use attr_merge::Merged;
use doc_tree::{Fields, NoMemory, Text, Texts};
use host_tree::Path;
use std::alloc::Global;
use std::collections::{BTreeMap, BTreeSet};

/// Resources, with the first place of each title among them.
#[derive(Drop)]
pub(crate) struct Drafts {
    pub(crate) resources: Vec<Resource>,
    pub(crate) firsts: BTreeMap<Text, usize>,
}

/// What a resource is read by: the merged attributes, the titles that notifications are to create, and the resources
/// before it.
#[derive(Clone, Copy)]
pub(crate) struct Given<'a> {
    pub(crate) merged: &'a Merged,
    pub(crate) created: &'a BTreeSet<Text>,
    pub(crate) made: &'a Drafts,
}

/// The resources that fields state, with their attributes, or the first fault among them.
pub(crate) fn drafts_of(
    alloc: Global,
    all: &[&Fields],
    merged: &Merged,
    created: &BTreeSet<Text>,
) -> Result<Drafts, CompileFault>
    ensures drafts { Gives (λ drafts. drafts.resources.items) result (spec.drafts (given_with merged.now.document created.now) (map pairs_by all.now) []) }
    ensures firsts { IfOk result (λ drafts. HasFirsts (spec.titles drafts.resources.items) drafts.firsts) }
{
    let mut drafts = Drafts {
        resources: Vec::new(alloc),
        firsts: BTreeMap::new(alloc),
    };
    for fields in all {
        let made = draft_behind(alloc, &drafts, fields, merged, created)?;
        add(alloc, &mut drafts, made)?;
    }
    Ok(drafts)
}

/// A resource behind those that are made.
fn draft_behind(
    alloc: Global,
    made: &Drafts,
    fields: &Fields,
    merged: &Merged,
    created: &BTreeSet<Text>,
) -> Result<Resource, CompileFault>
    requires { HasFirsts (spec.titles made.now.resources.items) made.now.firsts }
    ensures { Gives (λ r. r) result (spec.draft (given_with merged.now.document created.now) made.now.resources.items (pairs_of fields.now)) }
{
    draft(
        alloc,
        Given {
            merged,
            created,
            made,
        },
        fields,
    )
}

fn add(alloc: Global, drafts: &mut Drafts, made: Resource) -> Result<(), NoMemory>
    requires { HasFirsts (spec.titles drafts.old.resources.items) drafts.old.firsts }
    ensures resources { OnOk result (drafts.new.resources.items ≡ drafts.old.resources.items ++ made ∷ []) }
    ensures firsts { OnOk result (HasFirsts (spec.titles drafts.new.resources.items) drafts.new.firsts) }
{
    let title = made.title(alloc)?;
    let place = drafts.resources.as_slice().len();
    note(&mut drafts.firsts, title, place)?;
    drafts.resources.push(made)?;
    Ok(())
}

/// Notes the place of a title, unless it has one.
fn note(firsts: &mut BTreeMap<Text, usize>, title: Text, place: usize) -> Result<(), NoMemory>
    ensures { OnOk result (Notes title place firsts.old firsts.new) }
{
    if firsts.get(&title).is_some() {
        return Ok(());
    }
    firsts.insert(title, place)?;
    Ok(())
}

// The looks at a resource, in their order: at the type, the actions, the properties, the values, the attributes and the
// path.

fn draft(alloc: Global, given: Given<'_>, fields: &Fields) -> Result<Resource, CompileFault>
    requires { KnowsTitles given }
    ensures { Gives (λ r. r) result (spec.draft (given_by given.entry) (made_by given.entry) (pairs_of fields.now)) }
{
    match type_in(fields) {
        Some(kind) => typed(alloc, given, fields, kind),
        None => Err(CompileFault::UnknownType(given.made.resources.len())),
    }
}

fn typed(
    alloc: Global,
    given: Given<'_>,
    fields: &Fields,
    kind: ResourceType,
) -> Result<Resource, CompileFault>
    requires { KnowsTitles given }
    ensures { Gives (λ r. r) result (spec.typed (given_by given.entry) (made_by given.entry) (pairs_of fields.now) kind) }
{
    match actions_in(alloc, fields, kind)? {
        Some(actions) => acting(alloc, given, fields, kind, actions),
        None => Err(CompileFault::UnknownAction(given.made.resources.len())),
    }
}

fn acting(
    alloc: Global,
    given: Given<'_>,
    fields: &Fields,
    kind: ResourceType,
    actions: Actions,
) -> Result<Resource, CompileFault>
    requires { KnowsTitles given }
    ensures { Gives (λ r. r) result (spec.acting (given_by given.entry) (made_by given.entry) kind (pairs_of fields.now) actions) }
{
    if are_known(fields, kind) {
        valued(alloc, given, fields, kind, actions)
    } else {
        Err(CompileFault::UnknownProperty(given.made.resources.len()))
    }
}

fn valued(
    alloc: Global,
    given: Given<'_>,
    fields: &Fields,
    kind: ResourceType,
    actions: Actions,
) -> Result<Resource, CompileFault>
    requires { KnowsTitles given }
    ensures { Gives (λ r. r) result (spec.valued (given_by given.entry) (made_by given.entry) kind actions (pairs_of fields.now)) }
{
    let creates = creates(alloc, given, fields, kind, &actions)?;
    match bad_among(alloc, fields, kind, creates, given.merged)? {
        Some(property) => Err(bad_value(alloc, given.made.resources.len(), property)),
        None => attributed(alloc, given, fields, kind, actions),
    }
}

fn attributed(
    alloc: Global,
    given: Given<'_>,
    fields: &Fields,
    kind: ResourceType,
    actions: Actions,
) -> Result<Resource, CompileFault>
    ensures { Gives (λ r. r) result (spec.attributed (given_by given.entry) (made_by given.entry) kind actions (pairs_of fields.now)) }
{
    match missing_among(alloc, fields, kind, given.merged)? {
        Some(path) => Err(CompileFault::MissingAttribute(given.made.resources.len(), path)),
        None => placed(alloc, given, fields, kind, actions),
    }
}

fn placed(
    alloc: Global,
    given: Given<'_>,
    fields: &Fields,
    kind: ResourceType,
    actions: Actions,
) -> Result<Resource, CompileFault>
    ensures { Gives (λ r. r) result (spec.placed (given_by given.entry) (made_by given.entry) kind actions (pairs_of fields.now)) }
{
    match Path::of(path_of(alloc, fields, kind, given.merged)?) {
        Some(path) => Ok(stated_resource(alloc, fields, kind, actions, path, given.merged)?),
        None => Err(CompileFault::PathNotNormal(given.made.resources.len())),
    }
}

/// The first property whose value doesn't fit.
fn bad_among(
    alloc: Global,
    fields: &Fields,
    kind: ResourceType,
    creates: bool,
    merged: &Merged,
) -> Result<Option<&'static str>, NoMemory>
    ensures { IfOk result (λ found. option_copied found ≡ values.first_bad merged.now.document creates (pairs_of fields.now) (types.properties kind)) }
{
    match first_bad(alloc, common(), fields, creates, merged)? {
        Some(property) => Ok(Some(property)),
        None => first_bad(alloc, row_of(kind).properties, fields, creates, merged),
    }
}

/// The first path that has no text, whole number or truth value.
fn missing_among(
    alloc: Global,
    fields: &Fields,
    kind: ResourceType,
    merged: &Merged,
) -> Result<Option<Texts>, NoMemory>
    ensures { IfOk result (λ found. found ≡ values.first_missing merged.now.document (pairs_of fields.now) (types.properties kind)) }
{
    match first_missing(alloc, common(), fields, merged)? {
        Some(path) => Ok(Some(path)),
        None => first_missing(alloc, row_of(kind).properties, fields, merged),
    }
}

/// Whether `create` is an own or notified action.
fn creates(
    alloc: Global,
    given: Given<'_>,
    fields: &Fields,
    kind: ResourceType,
    actions: &Actions,
) -> Result<bool, NoMemory>
    requires { KnowsTitles given }
    ensures { IfOk result (λ creates. creates ≡ spec.creates (given_by given.entry) (made_by given.entry) kind actions.now (pairs_of fields.now)) }
{
    if has_create(actions.as_slice()) || subscribes_to_create(fields) {
        return Ok(true);
    }
    is_notified(alloc, given, fields, kind)
}

fn has_create(actions: &[Action]) -> bool
    ensures { result ≡ list_any types.is_create actions.now }
{
    for action in actions {
        if matches!(action, Action::Create) {
            return true;
        }
    }
    false
}

/// Whether a notification of any resource is to create this one, which is so where no earlier one has its title.
fn is_notified(
    alloc: Global,
    given: Given<'_>,
    fields: &Fields,
    kind: ResourceType,
) -> Result<bool, NoMemory>
    requires { KnowsTitles given }
    ensures { IfOk result (λ is. is ≡ spec.is_notified (given_by given.entry).is_created (spec.titles (made_by given.entry)) (spec.title_in given.entry.merged.now.document kind (pairs_of fields.now))) }
{
    let Some(name) = words_at(alloc, fields, "name", given.merged)? else {
        return Ok(false);
    };
    let own = title(alloc, kind, name.as_str())?;
    Ok(is_first_created(given, &own))
}

fn is_first_created(given: Given<'_>, own: &Text) -> bool
    requires { KnowsTitles given }
    ensures { result ≡ spec.is_notified (given_by given.entry).is_created (spec.titles (made_by given.entry)) (Some own.now) }
{
    if !given.created.contains(own) {
        return false;
    }
    given.made.firsts.get(own).is_none()
}

//! The values of a resource's properties.
ghost use Rattle.std.specs.Prelude.{◌≡◌, IfOk, map, unwrap_or, option_copied, false};
ghost use Rattle.doc_tree.specs.Doc.{pairs_of};
ghost use Rattle.doc_tree.specs.Part.{pair_at};
ghost use Rattle.doc_tree.specs.Tree.{doc_of};
ghost use Rattle.resource_core.specs.Resources.{truth_at};
ghost use Rattle.resource_core.specs.Templates as templates;
ghost use Rattle.resource_core.specs.Types.{property_of};
ghost use Rattle.resource_core.specs.Values as spec;

use crate::entries::are_entries;
use crate::modes::mode_of;
use crate::templates::{Stated, stated_at, stated_of};
use crate::types::{Form, Presence, Property};
use attr_merge::Merged;
use doc_tree::{Fields, NoMemory, Texts, Tree};
use std::alloc::Global;

/// The name of the first of these properties whose value doesn't fit. `creates` says whether `create` is an own or
/// notified action.
pub(crate) fn first_bad(
    alloc: Global,
    properties: &[Property],
    fields: &Fields,
    creates: bool,
    merged: &Merged,
) -> Result<Option<&'static str>, NoMemory>
    ensures { IfOk result (λ found. option_copied found ≡ spec.first_bad merged.now.document creates (pairs_of fields.now) (map property_of properties.now)) }
{
    for property in properties {
        if !fits(alloc, property, fields, creates, merged)? {
            return Ok(Some(property.name));
        }
    }
    Ok(None)
}

fn fits(
    alloc: Global,
    property: &Property,
    fields: &Fields,
    creates: bool,
    merged: &Merged,
) -> Result<bool, NoMemory>
    ensures { IfOk result (λ fits. fits ≡ spec.fits merged.now.document creates (property_of property.now) (pair_at property.now.name.now (pairs_of fields.now))) }
{
    match fields.get(property.name) {
        Some(tree) => has_form(alloc, property.form, tree, merged),
        None => Ok(!is_needed(property.presence, creates)),
    }
}

fn is_needed(presence: Presence, creates: bool) -> bool
    ensures { result ≡ spec.is_needed creates presence }
{
    match presence {
        Presence::Optional => false,
        Presence::Needed => true,
        Presence::NeededToCreate => creates,
    }
}

fn has_form(alloc: Global, form: Form, tree: &Tree, merged: &Merged) -> Result<bool, NoMemory>
    ensures { IfOk result (λ has. has ≡ spec.has_form merged.now.document form (doc_of tree.now)) }
{
    match form {
        Form::Words => is_text(alloc, tree, merged),
        Form::Mode => Ok(mode_of(tree).is_some()),
        Form::Truth => Ok(truth_of(tree).is_some()),
        Form::Symbolic => Ok(is_symbolic(tree)),
        Form::Entries => Ok(are_entries(tree)),
    }
}

fn is_text(alloc: Global, tree: &Tree, merged: &Merged) -> Result<bool, NoMemory>
    ensures { IfOk result (λ is. is ≡ templates.is_formed (templates.stated_of merged.now.document (doc_of tree.now))) }
{
    match stated_of(alloc, tree, merged)? {
        Stated::Malformed => Ok(false),
        Stated::NotThere | Stated::Missing(_) | Stated::Words(_) => Ok(true),
    }
}

fn truth_named(word: &str) -> Option<bool>
    ensures { result ≡ spec.truth_named word.now }
{
    if word == "yes" {
        Some(true)
    } else if word == "no" {
        Some(false)
    } else {
        None
    }
}

fn truth_of(tree: &Tree) -> Option<bool>
    ensures { result ≡ spec.truth_of (doc_of tree.now) }
{
    match tree {
        Tree::Bool(truth) => Some(*truth),
        Tree::Words(word) => truth_named(word.as_str()),
        Tree::Null | Tree::Whole(_) | Tree::List(_) | Tree::Dict(_) => None,
    }
}

fn is_symbolic(tree: &Tree) -> bool
    ensures { result ≡ spec.is_symbolic (doc_of tree.now) }
{
    match tree {
        Tree::Words(word) => word.as_str() == "symbolic",
        Tree::Null | Tree::Bool(_) | Tree::Whole(_) | Tree::List(_) | Tree::Dict(_) => false,
    }
}

/// The truth value at a key, and false where there is none.
pub(crate) fn truth_at(fields: &Fields, key: &str) -> bool
    ensures { result ≡ truth_at key.now (pairs_of fields.now) }
{
    match fields.get(key) {
        Some(tree) => truth_of(tree).unwrap_or(false),
        None => false,
    }
}

/// The first path among the texts of these properties that has no text, whole number or truth value.
pub(crate) fn first_missing(
    alloc: Global,
    properties: &[Property],
    fields: &Fields,
    merged: &Merged,
) -> Result<Option<Texts>, NoMemory>
    ensures { IfOk result (λ found. found ≡ spec.first_missing merged.now.document (pairs_of fields.now) (map property_of properties.now)) }
{
    for property in properties {
        if let Some(path) = missing_in(alloc, property, fields, merged)? {
            return Ok(Some(path));
        }
    }
    Ok(None)
}

fn missing_in(
    alloc: Global,
    property: &Property,
    fields: &Fields,
    merged: &Merged,
) -> Result<Option<Texts>, NoMemory>
    ensures { IfOk result (λ found. found ≡ spec.missing_in merged.now.document property.now.form (pair_at property.now.name.now (pairs_of fields.now))) }
{
    match property.form {
        Form::Words => missing_at(alloc, property.name, fields, merged),
        Form::Mode | Form::Truth | Form::Symbolic | Form::Entries => Ok(None),
    }
}

fn missing_at(
    alloc: Global,
    key: &str,
    fields: &Fields,
    merged: &Merged,
) -> Result<Option<Texts>, NoMemory>
    ensures { IfOk result (λ found. found ≡ templates.missing_of (templates.stated merged.now.document (pair_at key.now (pairs_of fields.now)))) }
{
    match stated_at(alloc, fields, key, merged)? {
        Stated::Missing(path) => Ok(Some(path)),
        Stated::NotThere | Stated::Malformed | Stated::Words(_) => Ok(None),
    }
}

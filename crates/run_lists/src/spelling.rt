//! What the text of an item spells, read without memory.
ghost use Rattle.std.specs.Prelude.{◌≡◌, IfOk, codes, option_copied};
ghost use Rattle.std.specs.List.{before_first};
ghost use Rattle.run_lists.specs.Items.{behind_front, before_bracket, is_at, read_by, reads_item, recipe_in, role_in, version_text};
ghost use Rattle.run_lists.specs.Names.{recipe_of};
ghost use Rattle.run_lists.specs.Spelling.{HasItemNames, names_of, outcome_of};

use crate::item_fault::ItemFault;
use crate::names::is_item_name;
use version_rules::{Version, parse_version};

/// An item as its text spells it.
#[derive(Clone, Copy)]
pub(crate) enum Spelled<'a> {
    Recipe(SpelledRecipe<'a>, Option<Version>),
    Role(&'a str),
}

#[derive(Clone, Copy)]
pub(crate) struct SpelledRecipe<'a> {
    pub(crate) cookbook: &'a str,
    pub(crate) recipe: &'a str,
}

pub(crate) fn spelled_item(text: &str) -> Result<Spelled<'_>, ItemFault>
    ensures reads { outcome_of result ≡ reads_item text.now }
    ensures names { IfOk result HasItemNames }
{
    if let Some(rest) = behind_front(text, "recipe[") {
        recipe_before_bracket(rest)
    } else if let Some(rest) = behind_front(text, "role[") {
        role_before_bracket(rest)
    } else {
        spelled_recipe(text)
    }
}

fn recipe_before_bracket(text: &str) -> Result<Spelled<'_>, ItemFault>
    ensures reads { outcome_of result ≡ read_by recipe_in (before_bracket text.now) }
    ensures names { IfOk result HasItemNames }
{
    match before_bracket(text) {
        Some(inner) => spelled_recipe(inner),
        None => Err(ItemFault::NotAnItem),
    }
}

fn role_before_bracket(text: &str) -> Result<Spelled<'_>, ItemFault>
    ensures reads { outcome_of result ≡ read_by role_in (before_bracket text.now) }
    ensures names { IfOk result HasItemNames }
{
    match before_bracket(text) {
        Some(inner) => spelled_role(inner),
        None => Err(ItemFault::NotAnItem),
    }
}

fn spelled_role(text: &str) -> Result<Spelled<'_>, ItemFault>
    ensures reads { outcome_of result ≡ role_in text.now }
    ensures names { IfOk result HasItemNames }
{
    if is_item_name(text) {
        Ok(Spelled::Role(text))
    } else {
        Err(ItemFault::NotAnItem)
    }
}

fn spelled_recipe(text: &str) -> Result<Spelled<'_>, ItemFault>
    ensures reads { outcome_of result ≡ recipe_in text.now }
    ensures names { IfOk result HasItemNames }
{
    let (name, version) = cut_at_sign(text);
    let name = recipe_of(name);
    if !is_item_name(name.cookbook) || !is_item_name(name.recipe) {
        return Err(ItemFault::NotAnItem);
    }
    match version {
        None => Ok(Spelled::Recipe(name, None)),
        Some(version) => match parse_version(version) {
            Ok(version) => Ok(Spelled::Recipe(name, Some(version))),
            Err(_) => Err(ItemFault::BadVersion),
        },
    }
}

// What stands before the first `@`, and what stands behind it, where there is one.
fn cut_at_sign(text: &str) -> (&str, Option<&str>)
    ensures before { result.0.now ≡ before_first is_at text.now }
    ensures behind { option_copied result.1 ≡ version_text text.now }
{
    match text.split_once('@') {
        Some((before, behind)) => (before, Some(behind)),
        None => (text, None),
    }
}

fn recipe_of(name: &str) -> SpelledRecipe<'_>
    ensures { names_of result ≡ recipe_of name.now }
{
    match name.split_once("::") {
        Some((cookbook, recipe)) => SpelledRecipe { cookbook, recipe },
        None => SpelledRecipe {
            cookbook: name,
            recipe: "default",
        },
    }
}

fn behind_front<'a>(text: &'a str, front: &str) -> Option<&'a str>
    ensures { option_copied result ≡ behind_front front.now text.now }
{
    text.strip_prefix(front)
}

fn before_bracket(text: &str) -> Option<&str>
    ensures { option_copied result ≡ before_bracket text.now }
{
    text.strip_suffix("]")
}

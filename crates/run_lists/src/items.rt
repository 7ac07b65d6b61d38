//! Items of run lists: their text as it is stored, and what they name.
ghost use Rattle.std.specs.Prelude.{◌≡◌, ◌↔◌, IfOk, Ok, Err, option_copied};

use crate::item_fault::ItemFault;
use crate::names::{Named, RecipeName, name_from};
use crate::spelling::{Spelled, spelled_item};
use doc_tree::{Listed, Name, NoMemory, Text};
use std::alloc::Global;
use std::marker::Model;
use version_rules::Version;

/// An item of a run list. A bare item keeps its text in `recipe[..]`, and any other the text that was sent.
#[derive(Debug, Drop)]
pub struct Item {
    text: Text,
    named: Named,
}

/// Items, in the order of the run list: contracts see the list of them.
pub type Items = Listed<Item>;

impl Model for Item {
    ghost use Rattle.std.specs.Prelude.{◌≡◌, Ok};
    ghost use Rattle.run_lists.specs.Stored.{Stored};

    ghost Value = { Stored };

    ghost use Rattle.run_lists.specs.Items.{reads_item};

    ghost view = { λ item. record { text = item.text; named = item.named } };

    ghost invariant = { λ item. reads_item item.text ≡ Ok item.named };
}

ghost use Rattle.run_lists.specs.Items.{reads_item, stored_text};
ghost use Rattle.run_lists.specs.Spelling.{HasItemNames, named_of};

impl Item {
    ghost use Rattle.run_lists.specs.Stored.{recipe_named, role_named, version_named};

    /// The text as it is stored.
    pub fn text(&self) -> &Text
        ensures value { result.now ≡ self.now.text }
        ensures reads { reads_item self.now.text ≡ Ok self.now.named }
    {
        &self.text
    }

    /// What the item names.
    pub fn named(&self) -> &Named
        ensures value { result.now ≡ self.now.named }
        ensures reads { reads_item self.now.text ≡ Ok self.now.named }
    {
        &self.named
    }

    /// The recipe, where the item names one.
    pub fn recipe(&self) -> Option<&RecipeName>
        ensures { option_copied result ≡ recipe_named self.now.named }
    {
        match &self.named {
            Named::Recipe(name, _) => Some(name),
            Named::Role(_) => None,
        }
    }

    /// The version of the recipe's cookbook, where the item has one.
    pub fn version(&self) -> Option<Version>
        ensures { result ≡ version_named self.now.named }
    {
        match &self.named {
            Named::Recipe(_, version) => *version,
            Named::Role(_) => None,
        }
    }

    /// The role, where the item names one.
    pub fn role(&self) -> Option<&Name>
        ensures { option_copied result ≡ role_named self.now.named }
    {
        match &self.named {
            Named::Recipe(_, _) => None,
            Named::Role(name) => Some(name),
        }
    }

    /// An equal item of its own.
    pub fn copy(&self, alloc: Global) -> Result<Item, NoMemory>
        ensures { IfOk result (λ item. item ≡ self.now) }
    {
        Ok(Item {
            text: self.text.copy(alloc)?,
            named: self.named.copy(alloc)?,
        })
    }
}

/// Reads an item: `recipe[cb]`, `recipe[cb::r]`, either with `@` and a version before the bracket, `role[r]`, or what
/// may stand in the brackets of a recipe alone. `cb` alone means `cb::default`.
///
/// It is `BadVersion` exactly where the text would be an item but for what follows its first `@`, and `NotAnItem`
/// exactly where it is no item otherwise. Only an item takes memory.
pub fn read_item(alloc: Global, text: &Text) -> Result<Item, ItemFault>
    ensures text { IfOk result (λ item. item.text ≡ stored_text text.now) }
    ensures named { IfOk result (λ item. reads_item text.now ≡ Ok item.named) }
    ensures not_an_item { (result ≡ Err ItemFault.NotAnItem) ↔ (reads_item text.now ≡ Err ItemFault.NotAnItem) }
    ensures bad_version { (result ≡ Err ItemFault.BadVersion) ↔ (reads_item text.now ≡ Err ItemFault.BadVersion) }
{
    let spelled = spelled_item(text.as_str())?;
    let named = named_from(alloc, &spelled)?;
    let text = stored(alloc, text)?;
    Ok(Item { text, named })
}

fn named_from(alloc: Global, spelled: &Spelled<'_>) -> Result<Named, NoMemory>
    requires { HasItemNames spelled.now }
    ensures { IfOk result (λ named. named ≡ named_of spelled.now) }
{
    match spelled {
        Spelled::Recipe(name, version) => {
            let cookbook = name_from(alloc, name.cookbook)?;
            let recipe = name_from(alloc, name.recipe)?;
            Ok(Named::Recipe(RecipeName { cookbook, recipe }, *version))
        }
        Spelled::Role(name) => Ok(Named::Role(name_from(alloc, name)?)),
    }
}

fn stored(alloc: Global, text: &Text) -> Result<Text, NoMemory>
    ensures { IfOk result (λ t. t ≡ stored_text text.now) }
{
    let sent = text.as_str();
    if sent.starts_with("recipe[") || sent.starts_with("role[") {
        text.copy(alloc)
    } else {
        Ok(Text::of(format!(in alloc; "recipe[{sent}]")?))
    }
}

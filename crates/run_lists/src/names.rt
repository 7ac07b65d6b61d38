//! Names of cookbooks, recipes and roles in items.
ghost use Rattle.std.specs.Prelude.{◌≡◌, IfOk, IsTrue};
ghost use Rattle.std.specs.List.{list_all};
ghost use Rattle.run_lists.specs.Names.{is_item_name, is_item_name_byte};

use doc_tree::{Name, NoMemory, Text};
use std::alloc::Global;
use version_rules::Version;

/// A recipe of a cookbook.
#[derive(Debug, PartialEq, Eq, Drop)]
pub struct RecipeName {
    pub cookbook: Name,
    pub recipe: Name,
}

impl RecipeName {
    /// An equal name of its own.
    pub fn copy(&self, alloc: Global) -> Result<RecipeName, NoMemory>
        ensures { IfOk result (λ name. name ≡ self.now) }
    {
        Ok(RecipeName {
            cookbook: self.cookbook.copy(alloc)?,
            recipe: self.recipe.copy(alloc)?,
        })
    }
}

/// What an item names.
#[derive(Debug, PartialEq, Eq, Drop)]
pub enum Named {
    /// A recipe, and the version of its cookbook where the item has one.
    Recipe(RecipeName, Option<Version>),
    Role(Name),
}

impl Named {
    /// An equal value of its own.
    pub fn copy(&self, alloc: Global) -> Result<Named, NoMemory>
        ensures { IfOk result (λ named. named ≡ self.now) }
    {
        match self {
            Named::Recipe(name, version) => Ok(Named::Recipe(name.copy(alloc)?, *version)),
            Named::Role(name) => Ok(Named::Role(name.copy(alloc)?)),
        }
    }
}

/// Whether a text is 1 to 255 ASCII letters, digits, `_`, `-` and `.`.
pub(crate) fn is_item_name(text: &str) -> bool
    ensures { result ≡ is_item_name text.now }
{
    0 < text.len() && text.len() <= 255 && are_item_name_bytes(text.as_bytes())
}

fn are_item_name_bytes(bytes: &[u8]) -> bool
    ensures { result ≡ list_all is_item_name_byte bytes.now }
{
    bytes.iter().all(|byte| is_item_name_byte(*byte))
}

fn is_item_name_byte(byte: u8) -> bool
    ensures { result ≡ is_item_name_byte byte }
{
    byte.is_ascii_alphanumeric() || matches!(byte, b'_' | b'-' | b'.')
}

/// The name that a text is.
pub(crate) fn name_from(alloc: Global, text: &str) -> Result<Name, NoMemory>
    requires { IsTrue (is_item_name text.now) }
    ensures { IfOk result (λ name. name ≡ text.now) }
{
    match Name::of(Text::from_str(alloc, text)?) {
        Ok(name) => Ok(name),
        Err(_) => unreachable!(),
    }
}

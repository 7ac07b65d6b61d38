//! What a recipe that is to be run is told apart by.
ghost use Rattle.std.specs.Prelude.{◌≡◌, IfOk};

use crate::names::RecipeName;
use doc_tree::{Name, NoMemory};
use std::alloc::Global;
use version_rules::Version;

/// A cookbook, a recipe of it, and maybe the cookbook's version.
#[derive(PartialEq, Eq, Hash, Drop)]
pub(crate) struct RunKey {
    pub(crate) cookbook: Name,
    pub(crate) recipe: Name,
    pub(crate) version: Option<Version>,
}

impl RunKey {
    pub(crate) fn of(
        alloc: Global,
        name: &RecipeName,
        version: Option<Version>,
    ) -> Result<RunKey, NoMemory>
        ensures { IfOk result (λ key. key ≡ record { cookbook = name.now.cookbook; recipe = name.now.recipe; version = version }) }
    {
        Ok(RunKey {
            cookbook: name.cookbook.copy(alloc)?,
            recipe: name.recipe.copy(alloc)?,
            version,
        })
    }
}

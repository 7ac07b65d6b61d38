//! The expansion of a run list.
ghost use Rattle.std.specs.Prelude.{◌≡◌, List, ℕ, IfOk, Err};
ghost use Rattle.run_lists.specs.Expansions.{IsExpansion, AreMissing};
ghost use Rattle.run_lists.specs.declared.expand_fault.ExpandFault.TheVariants.{MissingRoles};

use crate::expand_fault::ExpandFault;
use crate::items::Items;
use crate::listing::{first_items, first_recipes, missing_in, roles_in, runs_in};
use crate::names::RecipeName;
use crate::roles::Roles;
use crate::walk::told_of;
use doc_tree::{Listed, Name, Names};
use std::alloc::Global;

/// Names of recipes, in order: contracts see the list of them.
pub type RecipeNames = Listed<RecipeName>;

/// What a run list comes to.
#[derive(Drop)]
pub struct Expansion {
    /// The items of recipes, one for each recipe and version, at their first occurrences.
    pub items: Items,
    /// The recipes, each at its first occurrence, whatever the version.
    pub recipes: RecipeNames,
    /// The roles, each behind the roles that are first met below it.
    pub roles: Names,
}

/// Expands a run list in an environment, depth first. A role stands for its run list for the environment where it has
/// one, else for its run list; a role that was met is passed over.
///
/// It is `MissingRoles` exactly where a role is met that isn't there. Look-ups are by hash, and nothing is recursive, so
/// it takes a time that grows with the items and roles that it meets.
pub fn expand(
    alloc: Global,
    items: &Items,
    roles: &Roles,
    env: &Name,
) -> Result<Expansion, ExpandFault>
    ensures expansion { IfOk result (IsExpansion roles.now.entries env.now items.now) }
    ensures missing { (names : List (List ℕ)) → result ≡ Err (MissingRoles names) → AreMissing roles.now.entries env.now items.now names }
{
    let told = told_of(alloc, items, roles, env)?;
    let missing = missing_in(alloc, &told)?;
    if !missing.is_empty() {
        return Err(ExpandFault::MissingRoles(missing));
    }
    let runs = runs_in(alloc, &told)?;
    Ok(Expansion {
        items: first_items(alloc, &runs)?,
        recipes: first_recipes(alloc, &runs)?,
        roles: roles_in(alloc, &told)?,
    })
}

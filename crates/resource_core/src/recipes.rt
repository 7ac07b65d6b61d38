//! The resources of recipes.
ghost use Rattle.std.specs.Prelude.{◌≡◌, ◌↔◌, ◌++◌, IfOk, IsTrue, OnOk, map, is_some};
ghost use Rattle.std.specs.List.{filter_map, list_all};
ghost use Rattle.doc_tree.specs.Doc.{dict, pairs_of};
ghost use Rattle.doc_tree.specs.Tree.{doc_of};
ghost use Rattle.resource_core.specs.Plans as spec;
ghost use Rattle.resource_core.specs.Titles.{pairs_by};

use doc_tree::{Fields, Listed, NoMemory, Tree, Trees};
use std::alloc::Global;

/// Recipes in the order in which they are run, each the tree of a recipe file.
pub type Recipes = Listed<Tree>;

/// Whether each recipe is a dict with a list `resources` of dicts. It takes no memory.
pub fn are_recipes(recipes: &Recipes) -> bool
    ensures { IsTrue result ↔ spec.AreRecipes recipes.now }
{
    each_is_recipe(recipes.as_slice())
}

fn each_is_recipe(recipes: &[Tree]) -> bool
    ensures { result ≡ list_all (λ recipe. spec.is_recipe (doc_of recipe)) recipes.now }
{
    for recipe in recipes {
        if !is_recipe(recipe) {
            return false;
        }
    }
    true
}

fn is_recipe(recipe: &Tree) -> bool
    ensures { result ≡ spec.is_recipe (doc_of recipe.now) }
{
    match recipe {
        Tree::Dict(fields) => has_dicts(fields),
        Tree::Null | Tree::Bool(_) | Tree::Whole(_) | Tree::Words(_) | Tree::List(_) => false,
    }
}

#[tactic(auto, using(doc_tree::proofs::Docs::back))]
fn has_dicts(fields: &Fields) -> bool
    ensures { result ≡ spec.is_recipe (dict (pairs_of fields.now)) }
{
    match fields.get("resources") {
        Some(Tree::List(trees)) => are_dicts(trees),
        Some(Tree::Null | Tree::Bool(_) | Tree::Whole(_) | Tree::Words(_) | Tree::Dict(_)) | None =>
            { false }
    }
}

fn are_dicts(trees: &Trees) -> bool
    ensures { result ≡ list_all (λ d. is_some (spec.pairs_in d)) trees.now }
{
    for tree in trees.as_slice() {
        if !matches!(tree, Tree::Dict(_)) {
            return false;
        }
    }
    true
}

/// The fields of all resources, in order.
pub(crate) fn all_resources<'a>(
    alloc: Global,
    recipes: &'a Recipes,
) -> Result<Vec<&'a Fields>, NoMemory>
    ensures { IfOk result (λ all. map pairs_by all.items ≡ spec.all_resources recipes.now) }
{
    let mut all = Vec::new(alloc);
    for recipe in recipes.as_slice() {
        add_resources(recipe, &mut all)?;
    }
    Ok(all)
}

#[tactic(auto, using(doc_tree::proofs::Docs::back))]
fn add_resources<'a>(recipe: &'a Tree, all: &mut Vec<&'a Fields>) -> Result<(), NoMemory>
    ensures { OnOk result (map pairs_by all.new.items ≡ map pairs_by all.old.items ++ spec.resources_in (doc_of recipe.now)) }
{
    let Tree::Dict(fields) = recipe else {
        return Ok(());
    };
    match fields.get("resources") {
        Some(Tree::List(trees)) => add_dicts(trees, all),
        _ => Ok(()),
    }
}

fn add_dicts<'a>(trees: &'a Trees, all: &mut Vec<&'a Fields>) -> Result<(), NoMemory>
    ensures { OnOk result (map pairs_by all.new.items ≡ map pairs_by all.old.items ++ filter_map spec.pairs_in trees.now) }
{
    for tree in trees.as_slice() {
        if let Tree::Dict(fields) = tree {
            all.push(fields)?;
        }
    }
    Ok(())
}

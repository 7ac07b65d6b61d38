//! The roots of run lists: which cookbooks their items ask for, and at which versions.
ghost use Rattle.std.specs.Prelude.{◌≡◌, IfOk, OnOk};
ghost use Rattle.std.specs.List.{IsDistinct};
ghost use Rattle.std.specs.Set.{is_member};
ghost use Rattle.dep_solver.specs.Names.{same_name};
ghost use Rattle.dep_solver.specs.Walks.{with_name};
ghost use Rattle.run_lists.specs.Asking.{has_role, names_in, pin_of, pins_in};
ghost use Rattle.run_lists.specs.Roots.{roots_in};

use crate::items::Item;
use crate::names::Named;
use dep_solver::{Pin, Pins, Roots};
use doc_tree::{Name, Names, NoMemory};
use std::alloc::Global;

/// What the items ask of the solver. The names are the cookbooks of the recipe items, each once, in the order in which
/// they were first named. The pins are the cookbooks and versions of the recipe items that state a version, in order: two
/// of one cookbook may stand there, and then nothing solves. A role asks nothing.
pub fn roots_of(alloc: Global, items: &[Item]) -> Result<Roots, NoMemory>
    ensures names { IfOk result (λ roots. roots.names ≡ names_in items.now) }
    ensures pins { IfOk result (λ roots. roots.pins ≡ pins_in items.now) }
    ensures roots { IfOk result (λ roots. roots ≡ roots_in items.now) }
{
    let names = names_in(alloc, items)?;
    let pins = pins_in(alloc, items)?;
    Ok(Roots { names, pins })
}

/// Whether one of the items is a role.
pub fn names_a_role(items: &[Item]) -> bool
    ensures { result ≡ has_role items.now }
{
    items.iter().any(|item| item.role().is_some())
}

fn names_in(alloc: Global, items: &[Item]) -> Result<Names, NoMemory>
    ensures names { IfOk result (λ names. names ≡ names_in items.now) }
    ensures distinct { IfOk result (IsDistinct same_name) }
{
    let mut names = Names::new(alloc);
    for item in items {
        if let Some(recipe) = item.recipe() {
            add_name(alloc, &mut names, &recipe.cookbook)?;
        }
    }
    Ok(names)
}

// Puts a name behind the names where it is new.
fn add_name(alloc: Global, names: &mut Names, name: &Name) -> Result<(), NoMemory>
    ensures { OnOk result (names.new ≡ with_name names.old name.now) }
{
    if !is_among(names.as_slice(), name) {
        names.push(name.copy(alloc)?)?;
    }
    Ok(())
}

fn is_among(names: &[Name], name: &Name) -> bool
    ensures { result ≡ is_member same_name names.now name.now }
{
    names.iter().any(|other| *name == *other)
}

fn pins_in(alloc: Global, items: &[Item]) -> Result<Pins, NoMemory>
    ensures { IfOk result (λ pins. pins ≡ pins_in items.now) }
{
    let mut pins = Pins::new(alloc);
    for item in items {
        if let Some(pin) = pin_of(alloc, item)? {
            pins.push(pin)?;
        }
    }
    Ok(pins)
}

fn pin_of(alloc: Global, item: &Item) -> Result<Option<Pin>, NoMemory>
    ensures { IfOk result (λ pin. pin ≡ pin_of item.now.named) }
{
    match item.named() {
        Named::Recipe(recipe, Some(version)) => Ok(Some(Pin {
            name: recipe.cookbook.copy(alloc)?,
            version: *version,
        })),
        Named::Recipe(_, None) | Named::Role(_) => Ok(None),
    }
}

//! The best solution, and what finds it.
ghost use Rattle.std.specs.Prelude.{map};
ghost use Rattle.std.specs.List.Sorted.{IsStrictlySortedBy};
ghost use Rattle.std.proofs.Props.{props};
ghost use Rattle.dep_solver.specs.Best.{IsBest};
ghost use Rattle.dep_solver.specs.Solutions.{choice_of};

use crate::no_solution::NoSolution;
use crate::refusing::unsolvable;
use crate::roots::{Pin, Pins, Roots};
use crate::rules::EnvRules;
use crate::search::{Place, best_places};
use crate::universe::Universe;
use doc_tree::NoMemory;
use std::alloc::Global;

/// A universe, rules and roots with their best solution, in the byte order of the chosen names.
#[derive(Drop)]
pub struct Solved {
    pub universe: Universe,
    pub rules: EnvRules,
    pub roots: Roots,
    pub chosen: Pins,
    pub ghost best: { ∥ IsBest universe rules roots (choice_of chosen) ∥₁ },
    pub ghost in_order: { IsStrictlySortedBy text_cmp (map (λ pin. pin.name) chosen) } by { Prim.hlevel props },
}

impl Solved {
    ghost use Rattle.std.specs.Prelude.{◌≡◌, Some};
    ghost use Rattle.dep_solver.specs.Chosen.{best_of};

    /// What was chosen is what `best_of` gives of the universe, the rules and the roots. It does nothing.
    pub fn is_best(&self)
        ensures { best_of self.now.universe self.now.rules self.now.roots ≡ Some self.now.chosen }
    {}
}

ghost use Rattle.std.specs.Prelude.{◌≡◌, IfErr, IfOk, Some};
ghost use Rattle.dep_solver.specs.Chosen.{best_of};
ghost use Rattle.dep_solver.specs.Refusals.{Refuses, Tells};

/// The best solution, with its own copies of what it was given: what [`best_pins`] gives, and its refusals.
pub fn solve(
    alloc: Global,
    universe: &Universe,
    rules: &EnvRules,
    roots: &Roots,
) -> Result<Solved, NoSolution>
    ensures universe { IfOk result (λ solved. solved.universe ≡ universe.now) }
    ensures rules { IfOk result (λ solved. solved.rules ≡ rules.now) }
    ensures roots { IfOk result (λ solved. solved.roots ≡ roots.now) }
    ensures chosen { IfOk result (λ solved. best_of universe.now rules.now roots.now ≡ Some solved.chosen) }
    ensures refusal { IfErr result (Tells universe.now rules.now roots.now) }
    ensures refuses { IfErr result (Refuses universe.now rules.now roots.now) }
{
    let chosen = best_pins(alloc, universe, rules, roots)?;
    Ok(with_copies(alloc, universe, rules, roots, chosen)?)
}

/// The best solution: a version for each root and for all that is needed, such that each version meets the pins, the
/// rules and every need, and at the first place where another solution differs, in the order of the walk, this one has the
/// greater version. It is in the byte order of the chosen names. Nothing of what is asked is copied but the names that are
/// told.
///
/// It is `Unsolvable` exactly where there is no solution. It isn't recursive; it may take long where many choices lead
/// nowhere.
pub fn best_pins(
    alloc: Global,
    universe: &Universe,
    rules: &EnvRules,
    roots: &Roots,
) -> Result<Pins, NoSolution>
    ensures chosen { IfOk result (λ pins. best_of universe.now rules.now roots.now ≡ Some pins) }
    ensures refusal { IfErr result (Tells universe.now rules.now roots.now) }
    ensures refuses { IfErr result (Refuses universe.now rules.now roots.now) }
{
    match best_places(alloc, universe, rules, roots)? {
        Some(places) => Ok(best_in_order(alloc, universe, rules, roots, &places)?),
        None => Err(unsolvable(alloc, universe, rules, roots)?),
    }
}

// The solution of these pins, with its own copies of what it solves.
fn with_copies(
    alloc: Global,
    universe: &Universe,
    rules: &EnvRules,
    roots: &Roots,
    chosen: Pins,
) -> Result<Solved, NoMemory>
    requires { best_of universe.now rules.now roots.now ≡ Some chosen }
    ensures universe { IfOk result (λ solved. solved.universe ≡ universe.now) }
    ensures rules { IfOk result (λ solved. solved.rules ≡ rules.now) }
    ensures roots { IfOk result (λ solved. solved.roots ≡ roots.now) }
    ensures chosen { IfOk result (λ solved. solved.chosen ≡ chosen) }
{
    let universe = universe.copy(alloc)?;
    let rules = rules.copy(alloc)?;
    let roots = roots.copy(alloc)?;
    Ok(Solved {
        universe,
        rules,
        roots,
        chosen,
    })
}

ghost use Rattle.dep_solver.specs.Search.{FindsBest, pin_cmp, pin_of};
ghost use Rattle.std.specs.List.Sorted.{IsPermutation, IsSorted};
ghost use Rattle.doc_tree.specs.Text.{text_cmp};

// The solution of these places.
fn best_in_order(
    alloc: Global,
    _universe: &Universe,
    _rules: &EnvRules,
    _roots: &Roots,
    places: &[Place<'_>],
) -> Result<Pins, NoMemory>
    requires { FindsBest _universe.now _rules.now _roots.now (map pin_of places.now) }
    ensures { IfOk result (λ pins. best_of _universe.now _rules.now _roots.now ≡ Some pins) }
{
    let chosen = in_byte_order(alloc, places)?;
    Ok(chosen)
}

// What was chosen at the places, in the byte order of the names.
fn in_byte_order(alloc: Global, places: &[Place<'_>]) -> Result<Pins, NoMemory>
    ensures chosen { IfOk result (IsPermutation (map pin_of places.now)) }
    ensures in_order { IfOk result (λ pins. IsSorted pin_cmp pins) }
{
    let mut pins = Vec::with_capacity(alloc, places.len())?;
    for place in places {
        pins.push(Pin {
            name: place.name.copy(alloc)?,
            version: place.release.version,
        })?;
    }
    pins.sort_unstable();
    Ok(Pins::of(pins))
}

//! The route of the versions for a run list.

ghost use Rattle.std.specs.Prelude.{◌≡◌, ◌↔◌, [], IfOk, OnOk, IsTrue, Ok, Some, codes, length, option_and_then, option_copied, option_map};
ghost use Rattle.doc_tree.specs.Name.{is_name as spec_is_name};
ghost use Rattle.doc_tree.specs.Part.{part_at, with_pair};
ghost use Rattle.doc_tree.specs.Tree.{doc_of};
ghost use Rattle.org_requests.specs.Documents as bodies;
ghost use Rattle.org_core.specs.Contexts.{seen};
ghost use Rattle.org_core.specs.Outcomes.{IsAsDecided, Looked};
ghost use Rattle.org_requests.specs.Refusals.{Tells};
ghost use Rattle.org_core.specs.States.{cookbooks_of};
ghost use Rattle.org_shelves.specs.Editions.{read_or};
ghost use Rattle.org_shelves.specs.Universes.{universe_of as spec_universe_of};
ghost use Rattle.cookbook_meta.specs.Metadata.{needs_of};
ghost use Rattle.run_lists.specs.Reading.{recipes_of as spec_recipes_of};
ghost use Rattle.cookbook_routes.specs.CookbookRules as rules;
ghost use Rattle.cookbook_routes.specs.Solving as spec;

use crate::operations::CookbookOperation;
use crate::universe_routes::look_at_each;
use crate::version_routes::stored_at;
use access_lists::Perm;
use compact_json::CompactJson;
use cookbook_meta::{MetaFault, read_needs};
use dep_solver::{EnvRules, NoSolution, Pin, Pins, Roots, Solved, Universe, best_pins};
use doc_tree::{Fields, Kind, NoMemory, Steps, Text, Tree, is_name};
use org_core::{Context, Moves, Need, Prepared, listed_need, reply_showing, shown_found};
use org_requests::{Body, Refusal, Stop, Verb, absent, document_in};
use org_shelves::universe_of;
use run_lists::{Items, recipes_of, roots_of};
use std::alloc::Global;
use std::sync::ledger::Ledger;
use version_rules::Needs as Constraints;

/// What is asked of the versions for a run list, in the environment of this name.
pub(crate) fn solving_asked(
    alloc: Global,
    environment: &Text,
    verb: Verb,
    body: &Body,
) -> Result<CookbookOperation, Stop>
    ensures { Tells result (rules.solving_asked environment.now verb body.now) }
{
    match verb {
        Verb::Post => posted(alloc, environment, body),
        Verb::Get | Verb::Put | Verb::Delete | Verb::Other => {
            Err(Stop::Refused(Refusal::NotAllowed))
        }
    }
}

// A body that is for an environment of no Name's form has only to be readable.
fn posted(alloc: Global, environment: &Text, body: &Body) -> Result<CookbookOperation, Stop>
    ensures { Tells result (rules.solving_for (spec_is_name environment.now) environment.now (bodies.document_in body.now)) }
{
    if !is_name(environment.as_str()) {
        return Err(Stop::Refused(absent(body)));
    }
    let roots = roots_asked(alloc, body)?;
    Ok(CookbookOperation::SolveVersions(environment.copy(alloc)?, roots))
}

// What a body asks for by its list `run_list`.
fn roots_asked(alloc: Global, body: &Body) -> Result<Roots, Stop>
    ensures { Tells result (spec.roots_asked (bodies.document_in body.now)) }
{
    match document_in(body) {
        Ok(tree) => roots_in(alloc, tree),
        Err(refusal) => Err(Stop::Refused(refusal)),
    }
}

fn roots_in(alloc: Global, tree: &Tree) -> Result<Roots, Stop>
    ensures { Tells result (spec.roots_asked (Ok (doc_of tree.now))) }
{
    match recipes_at(alloc, tree)? {
        Some(items) => Ok(roots_of(alloc, items.as_slice())?),
        None => Err(Stop::Refused(Refusal::BadField(Text::from_str(alloc, "run_list")?))),
    }
}

// The recipes of the list at the key `run_list`.
fn recipes_at(alloc: Global, tree: &Tree) -> Result<Option<Items>, NoMemory>
    ensures { IfOk result (λ o. o ≡ option_and_then spec_recipes_of (part_at (codes "run_list") (doc_of tree.now))) }
{
    match tree {
        Tree::Dict(fields) => recipes_found(alloc, fields.get("run_list")),
        Tree::Null | Tree::Bool(_) | Tree::Whole(_) | Tree::Words(_) | Tree::List(_) => Ok(None),
    }
}

fn recipes_found(alloc: Global, found: Option<&Tree>) -> Result<Option<Items>, NoMemory>
    ensures { IfOk result (λ o. o ≡ option_and_then spec_recipes_of (option_map (λ t. doc_of t.now) found.entry)) }
{
    match found {
        Some(list) => recipes_of(alloc, list),
        None => Ok(None),
    }
}

/// Whether the organisation has no environment of this name.
pub(crate) fn lacks_environment(context: Context<'_>, name: &Text) -> bool
    ensures { result ≡ rules.lacks_environment (seen context.entry) name.now }
{
    !context.state.has(Kind::Environment, name.as_str())
}

/// What the best set of versions needs beside the permission to read the cookbooks.
pub(crate) fn environment_need(alloc: Global, name: &Text) -> Result<Need, NoMemory>
    ensures { IfOk result (λ need. need ≡ rules.environment_need name.now) }
{
    listed_need(alloc, Perm::Read, Kind::Environment, name.as_str())
}

/// The best set of versions is chosen and shown, or there is none. A hint that solves the very same is taken
/// for the search.
pub(crate) fn solve_versions<L: Ledger>(
    alloc: Global,
    context: Context<'_>,
    hint: Option<&Solved>,
    environment: &Text,
    roots: &Roots,
    steps: &mut Steps<L>,
) -> Result<Prepared, Stop>
    ensures done { IsAsDecided result (spec.versions_solved (seen context.entry) environment.now roots.now).answer }
    ensures looked { Looked result (spec.versions_solved (seen context.entry) environment.now roots.now).looks steps.old steps.new }
{
    let environment = context
        .state
        .look_up(Kind::Environment, environment.as_str(), steps);
    match versions_for(alloc, context, hint, environment, roots) {
        Ok(pins) => show_chosen(alloc, context, pins.as_slice(), steps),
        Err(stop) => Err(stop),
    }
}

// The best set of all versions of the organisation under the rules of an environment, or the refusal.
fn versions_for(
    alloc: Global,
    context: Context<'_>,
    hint: Option<&Solved>,
    environment: Option<&CompactJson>,
    roots: &Roots,
) -> Result<Pins, Stop>
    ensures { Tells result (spec.chosen (spec_universe_of (cookbooks_of (seen context.entry).state)) (spec.rules_of (option_copied environment.entry)) roots.now) }
{
    let rules = rules_of(alloc, environment)?;
    let universe = universe_of(alloc, context.state.cookbooks())?;
    chosen(alloc, hint, &universe, &rules, roots)
}

// What was chosen is shown, each version with its manifest.
fn show_chosen<L: Ledger>(
    alloc: Global,
    context: Context<'_>,
    pins: &[Pin],
    steps: &mut Steps<L>,
) -> Result<Prepared, Stop>
    ensures done { IsAsDecided result (spec.solved_as (seen context.entry) (Ok pins.now)).answer }
    ensures looked { Looked result (length pins.now) steps.old steps.new }
{
    look_at_each(pins, steps);
    let tree = chosen_tree(alloc, context, pins)?;
    Ok(Prepared {
        reply: reply_showing(alloc, tree)?,
        moves: Moves::new(alloc),
    })
}

// The rules of an environment, of which one that isn't there has none.
fn rules_of(alloc: Global, environment: Option<&CompactJson>) -> Result<EnvRules, NoMemory>
    ensures { IfOk result (λ rules. rules ≡ spec.rules_of (option_copied environment.entry)) }
{
    match environment {
        Some(object) => rules_in(alloc, &object.tree(alloc)?),
        None => Ok(EnvRules {
            rules: Constraints::new(alloc),
        }),
    }
}

// The rules of an environment that is there.
fn rules_in(alloc: Global, environment: &Tree) -> Result<EnvRules, NoMemory>
    ensures { IfOk result (λ rules. rules ≡ spec.rules_of (Some (doc_of environment.now))) }
{
    let rules = match environment {
        Tree::Dict(fields) => constraints_in(alloc, fields.get("cookbook_versions"))?,
        _ => Constraints::new(alloc),
    };
    Ok(EnvRules { rules })
}

// The constraints that a Dict tells, and none where it tells none.
fn constraints_in(alloc: Global, found: Option<&Tree>) -> Result<Constraints, NoMemory>
    ensures { IfOk result (λ needs. needs ≡ read_or [] (needs_of (option_map (λ t. doc_of t.now) found.entry))) }
{
    match read_needs(alloc, "cookbook_versions", found) {
        Ok(needs) => Ok(needs),
        Err(MetaFault::NoMemory) => Err(NoMemory),
        Err(_) => Ok(Constraints::new(alloc)),
    }
}

// The best set of versions, as the hint has it or else as it is found, or the refusal.
fn chosen(
    alloc: Global,
    hint: Option<&Solved>,
    universe: &Universe,
    rules: &EnvRules,
    roots: &Roots,
) -> Result<Pins, Stop>
    ensures { Tells result (spec.chosen universe.now rules.now roots.now) }
{
    match hint {
        Some(solved) if solves(solved, universe, rules, roots) => {
            solved.is_best();
            Ok(copy_pins(alloc, solved.chosen.as_slice())?)
        }
        _ => found(alloc, universe, rules, roots),
    }
}

// Whether a solution is that of this universe, these rules and these roots.
fn solves(solved: &Solved, universe: &Universe, rules: &EnvRules, roots: &Roots) -> bool
    ensures { IsTrue result ↔ spec.Solves solved.now universe.now rules.now roots.now }
{
    solved.roots.same(roots) && solved.rules.same(rules) && solved.universe.same(universe)
}

// The best set of versions, found.
fn found(alloc: Global, universe: &Universe, rules: &EnvRules, roots: &Roots) -> Result<Pins, Stop>
    ensures { Tells result (spec.chosen universe.now rules.now roots.now) }
{
    match best_pins(alloc, universe, rules, roots) {
        Ok(pins) => Ok(pins),
        Err(
            NoSolution::Unsolvable {
                no_cookbook,
                no_version,
            },
        ) => Err(Stop::Refused(Refusal::Unsolvable {
            no_cookbook,
            no_version,
        })),
        Err(NoSolution::NoMemory) => Err(Stop::NoMemory),
    }
}

fn copy_pins(alloc: Global, pins: &[Pin]) -> Result<Pins, NoMemory>
    ensures { IfOk result (λ copies. copies ≡ pins.now) }
{
    let mut copies = Pins::new(alloc);
    for pin in pins {
        copies.push(pin.copy(alloc)?)?;
    }
    Ok(copies)
}

fn chosen_tree(alloc: Global, context: Context<'_>, pins: &[Pin]) -> Result<Tree, NoMemory>
    ensures { IfOk result (λ tree. doc_of tree ≡ spec.chosen_doc (seen context.entry) pins.now) }
{
    let mut fields = Fields::new(alloc);
    for pin in pins {
        put_chosen(alloc, &mut fields, context, pin)?;
    }
    Ok(Tree::Dict(fields))
}

fn put_chosen(
    alloc: Global,
    fields: &mut Fields,
    context: Context<'_>,
    pin: &Pin,
) -> Result<(), NoMemory>
    ensures { OnOk result (fields.new ≡ with_pair (spec.chosen_pair (seen context.entry) pin.now).0 (spec.chosen_pair (seen context.entry) pin.now).1 fields.old) }
{
    let name = Text::from_str(alloc, pin.name.as_str())?;
    let edition = stored_at(context, &name, pin.version);
    let tree = shown_found(alloc, context.org, edition)?;
    fields.put(name, tree)
}

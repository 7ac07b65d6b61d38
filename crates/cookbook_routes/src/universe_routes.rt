//! The route of the universe.

ghost use Rattle.std.specs.Prelude.{◌≡◌, ◌+◌, [], IfOk, OnOk, length};
ghost use Rattle.doc_tree.specs.Doc.{dict, pairs_of};
ghost use Rattle.doc_tree.specs.Part.{with_pair};
ghost use Rattle.doc_tree.specs.Tree.{doc_of};
ghost use Rattle.shelves.specs.SortedMap.{map_of};
ghost use Rattle.std.specs.FinMap as finite;
ghost use Rattle.version_rules.specs.Order.{version_cmp};
ghost use Rattle.org_core.specs.Contexts.{seen};
ghost use Rattle.org_core.specs.Outcomes.{IsAsDecided, Looked};
ghost use Rattle.org_requests.specs.Refusals.{Tells};
ghost use Rattle.shelves.specs.Shelves.{shelves_of};
ghost use Rattle.version_rules.specs.Order.{version_cmp};
ghost use Rattle.cookbook_routes.specs.CookbookRules as rules;
ghost use Rattle.cookbook_routes.specs.Universes as spec;

use crate::operations::CookbookOperation;
use crate::trees::put;
use doc_tree::{Fields, NoMemory, Steps, Text, Tree};
use org_core::{Context, Moves, Prepared, reply_showing};
use org_requests::{Refusal, Stop, Verb, org_uri};
use org_shelves::{Cookbooks, Edition};
use shelves::SortedMap;
use std::alloc::Global;
use std::sync::ledger::Ledger;
use version_rules::Version;

/// What is asked of the universe.
pub(crate) fn universe_asked(verb: Verb) -> Result<CookbookOperation, Stop>
    ensures { Tells result (rules.universe_asked verb) }
{
    match verb {
        Verb::Get => Ok(CookbookOperation::ShowUniverse),
        Verb::Post | Verb::Put | Verb::Delete | Verb::Other => {
            Err(Stop::Refused(Refusal::NotAllowed))
        }
    }
}

/// The universe is shown.
pub(crate) fn show_universe<L: Ledger>(
    alloc: Global,
    context: Context<'_>,
    steps: &mut Steps<L>,
) -> Result<Prepared, Stop>
    ensures done { IsAsDecided result (spec.universe_shown (seen context.entry)).answer }
    ensures looked { Looked result (spec.universe_shown (seen context.entry)).looks steps.old steps.new }
{
    let cookbooks = context.state.cookbooks();
    look_at_all(cookbooks, steps);
    let tree = universe_tree(alloc, context.org, cookbooks)?;
    Ok(Prepared {
        reply: reply_showing(alloc, tree)?,
        moves: Moves::new(alloc),
    })
}

// Each version is looked at.
fn look_at_all<L: Ledger>(cookbooks: &Cookbooks, steps: &mut Steps<L>)
    ensures { steps.new ≡ steps.old + spec.count_versions (finite.entries (shelves_of version_cmp cookbooks.now)) }
{
    for (_, shelf) in cookbooks.shelves() {
        look_at_each(shelf.entries(), steps);
    }
}

/// Each of these is looked at.
pub(crate) fn look_at_each<T, L: Ledger>(items: &[T], steps: &mut Steps<L>)
    ensures { steps.new ≡ steps.old + length items.now }
{
    for _item in items {
        steps.tick();
    }
}

fn universe_tree(alloc: Global, org: &Text, cookbooks: &Cookbooks) -> Result<Tree, NoMemory>
    ensures { IfOk result (λ tree. doc_of tree ≡ spec.universe_doc org.now (shelves_of version_cmp cookbooks.now)) }
{
    let mut fields = Fields::new(alloc);
    for (name, shelf) in cookbooks.shelves() {
        let releases = releases_tree(alloc, org, shelf)?;
        fields.put(name.copy(alloc)?, releases)?;
    }
    Ok(Tree::Dict(fields))
}

fn releases_tree(
    alloc: Global,
    org: &Text,
    shelf: &SortedMap<Version, Edition>,
) -> Result<Tree, NoMemory>
    ensures { IfOk result (λ tree. doc_of tree ≡ spec.releases_doc org.now (map_of version_cmp shelf.now)) }
{
    let mut fields = Fields::new(alloc);
    for (version, edition) in shelf.entries() {
        put_release(alloc, &mut fields, org, *version, edition)?;
    }
    Ok(Tree::Dict(fields))
}

fn put_release(
    alloc: Global,
    fields: &mut Fields,
    org: &Text,
    version: Version,
    edition: &Edition,
) -> Result<(), NoMemory>
    ensures { OnOk result (fields.new ≡ with_pair (spec.release_pair org.now (version, edition.now)).0 (spec.release_pair org.now (version, edition.now)).1 fields.old) }
{
    let number = Text::of(format!(in alloc; "{version}")?);
    fields.put(number, release_tree(alloc, org, edition)?)
}

fn release_tree(alloc: Global, org: &Text, edition: &Edition) -> Result<Tree, NoMemory>
    ensures { IfOk result (λ tree. doc_of tree ≡ spec.release_doc org.now edition.now) }
{
    let mut fields = Fields::with_capacity(alloc, 3)?;
    put_parts(alloc, org, edition, &mut fields).and(Ok(Tree::Dict(fields)))
}

// Puts what a version needs, and where it is had.
fn put_parts(
    alloc: Global,
    org: &Text,
    edition: &Edition,
    fields: &mut Fields,
) -> Result<(), NoMemory>
    requires { fields.old ≡ [] }
    ensures { OnOk result (dict (pairs_of fields.new) ≡ spec.release_doc org.now edition.now) }
{
    put(alloc, fields, "dependencies", edition.dependencies(alloc)?)?;
    let place = org_uri(alloc, org)?;
    put(alloc, fields, "location_path", Tree::Words(place))?;
    let kind = Text::from_str(alloc, "chef_server")?;
    put(alloc, fields, "location_type", Tree::Words(kind))
}

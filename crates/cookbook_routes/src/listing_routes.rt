//! The listings of cookbooks and their versions.

ghost use Rattle.std.specs.Prelude.{◌≡◌, ◌++◌, IfOk, OnOk, Ok, codes, map, option_map};
ghost use Rattle.std.specs.FinMap as finite;
ghost use Rattle.doc_tree.specs.Part.{with_pair};
ghost use Rattle.doc_tree.specs.Tree.{doc_of};
ghost use Rattle.shelves.specs.Shelves.{shelf_of};
ghost use Rattle.shelves.specs.SortedMap.{map_of};
ghost use Rattle.version_rules.specs.Order.{version_cmp};
ghost use Rattle.org_core.specs.Contexts.{seen};
ghost use Rattle.org_core.specs.Outcomes.{IsAsDecided};
ghost use Rattle.org_requests.specs.Refusals.{Tells};
ghost use Rattle.org_core.specs.States.{cookbooks_of};
ghost use Rattle.shelves.specs.Shelves.{shelves_of};
ghost use Rattle.version_rules.specs.Order.{version_cmp};
ghost use Rattle.cookbook_routes.specs.CookbookRules as rules;
ghost use Rattle.cookbook_routes.specs.Listings as spec;

use crate::operations::{CookbookOperation, Count};
use crate::trees::two;
use doc_tree::{Fields, NoMemory, Text, Tree, Trees};
use org_core::{Context, Moves, Prepared, reply_showing};
use org_requests::{Parameter, Refusal, Stop, Verb, asked_for, number_in, org_uri, shown_key};
use org_shelves::{Cookbooks, Edition};
use shelves::SortedMap;
use std::alloc::Global;
use version_rules::Version;

/// What is asked of all cookbooks.
pub(crate) fn cookbooks_asked(
    alloc: Global,
    verb: Verb,
    parameters: &[Parameter],
) -> Result<CookbookOperation, Stop>
    ensures { Tells result (rules.cookbooks_asked verb parameters.now) }
{
    match verb {
        Verb::Get => listing(alloc, count_given(asked_for("num_versions", parameters))),
        Verb::Post | Verb::Put | Verb::Delete | Verb::Other => {
            Err(Stop::Refused(Refusal::NotAllowed))
        }
    }
}

fn listing(alloc: Global, count: Option<Count>) -> Result<CookbookOperation, Stop>
    ensures { Tells result (rules.listing (spec.count_or_bad count)) }
{
    match count {
        Some(count) => Ok(CookbookOperation::ListCookbooks(count)),
        None => Err(Stop::Refused(Refusal::BadParameter(Text::from_str(alloc, "num_versions")?))),
    }
}

// How many versions the parameter asks for, where there is one.
fn count_given(value: Option<&Text>) -> Option<Count>
    ensures { result ≡ spec.count_given (option_map (λ t. t.now) value.entry) }
{
    match value {
        None => Some(Count::Most(1)),
        Some(text) if text.as_str() == "all" => Some(Count::All),
        Some(text) => number_in(text.as_str()).map(Count::Most),
    }
}

/// What is asked of a cookbook.
pub(crate) fn cookbook_asked(
    alloc: Global,
    name: &Text,
    verb: Verb,
) -> Result<CookbookOperation, Stop>
    ensures { Tells result (rules.cookbook_by_name name.now verb) }
{
    match verb {
        Verb::Get => Ok(CookbookOperation::ListVersions(name.copy(alloc)?)),
        Verb::Post | Verb::Put | Verb::Delete | Verb::Other => {
            Err(Stop::Refused(Refusal::NotAllowed))
        }
    }
}

/// The cookbooks are listed, with so many versions of each.
pub(crate) fn list_cookbooks(
    alloc: Global,
    context: Context<'_>,
    count: Count,
) -> Result<Prepared, Stop>
    ensures { IsAsDecided result (spec.cookbooks_listed (seen context.entry) count).answer }
{
    let tree = listing_tree(alloc, context.org, count, context.state.cookbooks())?;
    Ok(Prepared {
        reply: reply_showing(alloc, tree)?,
        moves: Moves::new(alloc),
    })
}

fn listing_tree(
    alloc: Global,
    org: &Text,
    count: Count,
    cookbooks: &Cookbooks,
) -> Result<Tree, NoMemory>
    ensures { IfOk result (λ tree. doc_of tree ≡ spec.listing_doc org.now count (shelves_of version_cmp cookbooks.now)) }
{
    let mut fields = Fields::new(alloc);
    for (name, shelf) in cookbooks.shelves() {
        let cookbook = cookbook_tree(alloc, org, count, name, shelf)?;
        fields.push(name.copy(alloc)?, cookbook)?;
    }
    Ok(Tree::Dict(fields))
}

/// One cookbook is listed, with all its versions.
pub(crate) fn list_versions(
    alloc: Global,
    context: Context<'_>,
    name: Text,
) -> Result<Prepared, Stop>
    ensures { IsAsDecided result (spec.cookbook_listed (seen context.entry) name).answer }
{
    let tree = versions_tree(alloc, context, &name)?;
    Ok(Prepared {
        reply: shown_key(alloc, name.as_str(), tree)?,
        moves: Moves::new(alloc),
    })
}

// All versions of a cookbook, of which one that isn't there has none.
fn versions_tree(alloc: Global, context: Context<'_>, name: &Text) -> Result<Tree, NoMemory>
    ensures { IfOk result (λ tree. doc_of tree ≡ spec.whole_cookbook (seen context.entry) name.now) }
{
    match context.state.cookbooks().shelf(name) {
        Some(shelf) => cookbook_tree(alloc, context.org, Count::All, name, shelf),
        None => cookbook_tree(alloc, context.org, Count::All, name, &SortedMap::new(alloc)),
    }
}

fn cookbook_tree(
    alloc: Global,
    org: &Text,
    count: Count,
    name: &Text,
    shelf: &SortedMap<Version, Edition>,
) -> Result<Tree, NoMemory>
    ensures { IfOk result (λ tree. doc_of tree ≡ spec.cookbook_doc org.now count name.now (map_of version_cmp shelf.now)) }
{
    let url = cookbook_path(alloc, org, name)?;
    let versions = newest_tree(alloc, org, count, name, shelf.entries())?;
    two(alloc, "url", Tree::Words(url), "versions", versions)
}

// So many of the versions of these entries, greatest first.
fn newest_tree(
    alloc: Global,
    org: &Text,
    count: Count,
    name: &Text,
    entries: &[(Version, Edition)],
) -> Result<Tree, NoMemory>
    ensures { IfOk result (λ tree. doc_of tree ≡ spec.newest_doc org.now count name.now (map (λ e. e.0) entries.now)) }
{
    let mut trees = Trees::new(alloc);
    for (version, _) in entries.iter().rev().take(how_many(count)) {
        trees.push(version_tree(alloc, org, name, *version)?)?;
    }
    Ok(Tree::List(trees))
}

// As many as a list can have, where all are wanted.
fn how_many(count: Count) -> usize
    ensures { result ≡ spec.number_of count }
{
    match count {
        Count::All => usize::MAX,
        Count::Most(count) => count as usize,
    }
}

fn version_tree(alloc: Global, org: &Text, name: &Text, version: Version) -> Result<Tree, NoMemory>
    ensures { IfOk result (λ tree. doc_of tree ≡ spec.version_doc org.now name.now version) }
{
    let number = Text::of(format!(in alloc; "{version}")?);
    let url = version_path(alloc, org, name, &number)?;
    two(
        alloc,
        "url",
        Tree::Words(url),
        "version",
        Tree::Words(number),
    )
}

// The path of the version of a cookbook that this number spells.
fn version_path(alloc: Global, org: &Text, name: &Text, number: &Text) -> Result<Text, NoMemory>
    ensures { IfOk result (λ path. path ≡ spec.cookbook_path org.now name.now ++ (codes "/" ++ number.now)) }
{
    let front = cookbook_path(alloc, org, name)?;
    let rest = Text::joined(alloc, "/", number.as_str())?;
    Text::joined(alloc, front.as_str(), rest.as_str())
}

fn cookbook_path(alloc: Global, org: &Text, name: &Text) -> Result<Text, NoMemory>
    ensures { IfOk result (λ path. path ≡ spec.cookbook_path org.now name.now) }
{
    let front = Text::joined(alloc, org_uri(alloc, org)?.as_str(), "/cookbooks/")?;
    Text::joined(alloc, front.as_str(), name.as_str())
}

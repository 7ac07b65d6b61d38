//! What a search finds.

ghost use Rattle.std.specs.Prelude.{◌≡◌, IfOk, Some, filter, length};
ghost use Rattle.object_finder.specs.Found.{found_in};
ghost use Rattle.object_finder.specs.Indexes.{index_of as spec_index_of, names_of};
ghost use Rattle.object_finder.specs.Looks.{Looked};
ghost use Rattle.org_core.specs.Contexts.{IsExactIn, seen};
ghost use Rattle.org_core.specs.Outcomes.{IsAsDecided, with_search};
ghost use Rattle.org_core.specs.States.{objects_of};
ghost use Rattle.search_routes.specs.Finding as spec;

use crate::operations::Search;
use crate::rows::show_page;
use access_lists::Perm;
use doc_tree::{Kind, Name, NoMemory, Steps, Text, Texts};
use object_finder::{Finder, Index, Scope, index_of};
use org_core::{Context, Need, Prepared, first_lacking, listed_need};
use org_requests::is_operator;
use query_text::Query;
use std::alloc::Global;
use std::sync::ledger::Ledger;

/// Whether there is no index of this word.
pub(crate) fn lacks_index(
    alloc: Global,
    context: Context<'_>,
    word: &Name,
) -> Result<bool, NoMemory>
    ensures { IfOk result (λ b. b ≡ spec.lacks_index (seen context.entry) (spec_index_of word.now)) }
{
    Ok(match index_of(alloc, word.as_text())? {
        Index::Bag(bag) => !context.state.has(Kind::Bag, bag.as_str()),
        Index::Nodes | Index::Roles | Index::Environments | Index::Clients => false,
    })
}

/// An index is searched, and a page of what was found is shown.
pub(crate) fn find<F: Finder, L: Ledger>(
    alloc: Global,
    context: Context<'_>,
    finder: &F,
    search: &Search,
    steps: &mut Steps<L>,
) -> Result<Prepared, NoMemory>
    requires { IsExactIn (F.held finder.now) (seen context) }
    ensures done { IfOk result (λ p. IsAsDecided (Ok p) (spec.search_done (seen context.entry) search.now).answer) }
    ensures looked { Looked result (with_search (F.looks finder.now) (Some (spec.searched (seen context.entry) search.now)) (spec.search_done (seen context.entry) search.now).looks) steps.old steps.new }
{
    let index = index_of(alloc, search.index.as_text())?;
    let names = found(
        alloc,
        context,
        finder,
        &search.index,
        &search.asked.query,
        steps,
    )?;
    let readable = readable(alloc, context, &index, names)?;
    show_page(alloc, context, &index, search, readable.as_slice(), steps)
}

// The names of the objects that a query finds, whoever may read them.
fn found<F: Finder, L: Ledger>(
    alloc: Global,
    context: Context<'_>,
    finder: &F,
    word: &Name,
    query: &Query,
    steps: &mut Steps<L>,
) -> Result<Texts, NoMemory>
    requires { IsExactIn (F.held finder.now) (seen context) }
    ensures found { IfOk result (λ names. names ≡ found_in (spec_index_of word.now) query.now (objects_of (seen context.entry).state)) }
    ensures looked { Looked result (F.looks finder.now (length (names_of (spec_index_of word.now) (objects_of (seen context.entry).state)))) steps.old steps.new }
{
    let scope = Scope {
        org: context.org.copy(alloc)?,
        index: word.as_text().copy(alloc)?,
    };
    finder.find(alloc, context.state.objects(), &scope, query, steps)
}

// Of these names those of the objects that the caller may read.
fn readable(
    alloc: Global,
    context: Context<'_>,
    index: &Index,
    names: Texts,
) -> Result<Texts, NoMemory>
    ensures { IfOk result (λ kept. kept ≡ filter (spec.may_read (seen context.entry) index.now) names) }
{
    let mut kept = Texts::new(alloc);
    for name in names.into_vec() {
        if may_read(alloc, context, index, &name)? {
            kept.push(name)?;
        }
    }
    Ok(kept)
}

fn may_read(
    alloc: Global,
    context: Context<'_>,
    index: &Index,
    name: &Text,
) -> Result<bool, NoMemory>
    ensures { IfOk result (λ b. b ≡ spec.may_read (seen context.entry) index.now name.now) }
{
    if is_operator(context.caller) {
        return Ok(true);
    }
    let need = read_need(alloc, index, name.as_str())?;
    Ok(first_lacking(context, &[need]).is_none())
}

// The permission to read an object: by its own access list, and for an item by that of its bag.
fn read_need(alloc: Global, index: &Index, name: &str) -> Result<Need, NoMemory>
    ensures { IfOk result (λ need. need ≡ spec.read_need index.now name.now) }
{
    match index {
        Index::Nodes => listed_need(alloc, Perm::Read, Kind::Node, name),
        Index::Roles => listed_need(alloc, Perm::Read, Kind::Role, name),
        Index::Environments => listed_need(alloc, Perm::Read, Kind::Environment, name),
        Index::Clients => listed_need(alloc, Perm::Read, Kind::Client, name),
        Index::Bag(bag) => listed_need(alloc, Perm::Read, Kind::Bag, bag.as_str()),
    }
}

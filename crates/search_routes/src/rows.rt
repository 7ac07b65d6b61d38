//! The page that shows what a search finds.

ghost use Rattle.std.specs.Prelude.{◌≡◌, ◌+◌, IfOk, length, map, option_copied, unwrap_or};
ghost use Rattle.doc_tree.specs.Doc.{null};
ghost use Rattle.doc_tree.specs.Tree.{doc_of};
ghost use Rattle.doc_tree.specs.Written.{text};
ghost use Rattle.object_finder.specs.Indexes.{kind_of, object_at};
ghost use Rattle.object_finder.specs.Looks.{Looked};
ghost use Rattle.search_query.specs.Partial.{partial_row};
ghost use Rattle.org_core.specs.Contexts.{seen};
ghost use Rattle.org_core.specs.Outcomes.{IsAsDecided};
ghost use Rattle.org_core.specs.States.{objects_of};
ghost use Rattle.search_routes.specs.Finding as spec;

use crate::operations::Search;
use compact_json::CompactJson;
use doc_tree::{NoMemory, Steps, Text, Tree, json_text};
use object_finder::Index;
use org_core::{Context, Moves, Prepared};
use org_requests::{Reply, org_uri};
use search_query::{Partial, RowText, page_text, shown};
use std::alloc::Global;
use std::sync::ledger::Ledger;

/// The page of what was found. Each object that it shows is looked at.
pub(crate) fn show_page<L: Ledger>(
    alloc: Global,
    context: Context<'_>,
    index: &Index,
    search: &Search,
    names: &[Text],
    steps: &mut Steps<L>,
) -> Result<Prepared, NoMemory>
    ensures done { IfOk result (λ p. IsAsDecided (Ok p) (spec.shows_page (seen context.entry) index.now search.now names.now).answer) }
    ensures looked { Looked result (spec.shows_page (seen context.entry) index.now search.now names.now).looks steps.old steps.new }
{
    let (start, count) = (u64::from(search.asked.start), u64::from(search.asked.rows));
    let here = shown(names, start, count);
    let rows = rows_of(alloc, context, index, &search.partial, here, steps)?;
    Ok(Prepared {
        reply: Reply {
            status: 200,
            octets: false,
            body: page_text(alloc, &rows, start, names.len())?,
        },
        moves: Moves::new(alloc),
    })
}

// The texts of the rows.
fn rows_of<'c, L: Ledger>(
    alloc: Global,
    context: Context<'c>,
    index: &Index,
    partial: &Option<Partial>,
    names: &[Text],
    steps: &mut Steps<L>,
) -> Result<Vec<RowText<'c>>, NoMemory>
    ensures rows { IfOk result (λ rows. rows.items ≡ map text (spec.rows_of (seen context.entry) index.now partial.now names.now)) }
    ensures looked { Looked result (length names.now) steps.old steps.new }
{
    let mut rows = Vec::new(alloc);
    for name in names {
        rows.push(row_of(alloc, context, index, partial, name.as_str(), steps)?)?;
    }
    Ok(rows)
}

fn row_of<'c, L: Ledger>(
    alloc: Global,
    context: Context<'c>,
    index: &Index,
    partial: &Option<Partial>,
    name: &str,
    steps: &mut Steps<L>,
) -> Result<RowText<'c>, NoMemory>
    ensures row { IfOk result (λ row. row ≡ text (spec.row_of (seen context.entry) index.now partial.now name.now)) }
    ensures looked { steps.new ≡ steps.old + 1 }
{
    let object = look_up(context, index, name, steps);
    match partial {
        None => whole(alloc, object),
        Some(partial) => {
            let row = part(alloc, context.org, index, partial, name, object)?;
            Ok(RowText::made(json_text(alloc, &row)?))
        }
    }
}

// The object of this name, which is looked at in one step.
fn look_up<'c, L: Ledger>(
    context: Context<'c>,
    index: &Index,
    name: &str,
    steps: &mut Steps<L>,
) -> Option<&'c CompactJson>
    ensures object { option_copied result ≡ object_at index.now (objects_of (seen context.entry).state) name.now }
    ensures looked { steps.new ≡ steps.old + 1 }
{
    object_finder::look_up(context.state.objects(), index, name, steps)
}

// The text of the row that shows the whole object, which is lent. One that was found is there.
fn whole(alloc: Global, object: Option<&CompactJson>) -> Result<RowText<'_>, NoMemory>
    ensures { IfOk result (λ row. row ≡ text (unwrap_or (option_copied object.entry) null)) }
{
    match object {
        Some(object) => Ok(RowText::kept(object)),
        None => Ok(RowText::made(json_text(alloc, &Tree::Null)?)),
    }
}

// The row that shows the keys of a partial search.
fn part(
    alloc: Global,
    org: &Text,
    index: &Index,
    partial: &Partial,
    name: &str,
    object: Option<&CompactJson>,
) -> Result<Tree, NoMemory>
    ensures { IfOk result (λ row. doc_of row ≡ partial_row (kind_of index.now) partial.now (spec.path_of org.now index.now name.now) (unwrap_or (option_copied object.entry) null)) }
{
    let path = path_of(alloc, org, index, name)?;
    match object {
        Some(object) => partial.row(alloc, index.kind(), object, path),
        None => partial.row(
            alloc,
            index.kind(),
            &CompactJson::of(alloc, &Tree::Null)?,
            path,
        ),
    }
}

// The path of an object.
fn path_of(alloc: Global, org: &Text, index: &Index, name: &str) -> Result<Text, NoMemory>
    ensures { IfOk result (λ path. path ≡ spec.path_of org.now index.now name.now) }
{
    let org = org_uri(alloc, org)?;
    let front = Text::joined(alloc, org.as_str(), front_of(alloc, index)?.as_str())?;
    Text::joined(alloc, front.as_str(), name)
}

fn front_of(alloc: Global, index: &Index) -> Result<Text, NoMemory>
    ensures { IfOk result (λ front. front ≡ spec.front_of index.now) }
{
    match index {
        Index::Nodes => Text::from_str(alloc, "/nodes/"),
        Index::Roles => Text::from_str(alloc, "/roles/"),
        Index::Environments => Text::from_str(alloc, "/environments/"),
        Index::Clients => Text::from_str(alloc, "/clients/"),
        Index::Bag(bag) => {
            let items = Text::joined(alloc, bag.as_str(), "/")?;
            Text::joined(alloc, "/data/", items.as_str())
        }
    }
}

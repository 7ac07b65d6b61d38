//! The objects of a scope that a query finds.
ghost use Rattle.query_text.specs.Items.{what_of};
ghost use Rattle.query_text.specs.Query.{ands_of};
ghost use Rattle.search_query.specs.Matching.{Meets, MeetsAll, MeetsItem, MeetsTerm, turned};
ghost use Rattle.std.specs.Prelude.{◌≡◌, ◌↔◌, ℕ, IfOk, IsTrue};
ghost use Rattle.search_index.specs.Found.{has};
ghost use Rattle.search_index.specs.Seeking.{Finds, Spares};

use crate::fields::{number_of_one, with_field};
use crate::found::{Found, both};
use crate::postings::Postings;
use crate::terms::Terms;
use doc_tree::NoMemory;
use query_text::{AllOf, Item, Query, Term, What};
use std::alloc::Global;

// An AND begins with the term that the fewest objects have, where they are no more than so many.
const FEW: usize = 1_000;

/// The objects of a scope that a query finds among some: those that aren't among the missing of each of its parts.
#[cycle(seek)]
pub(crate) fn any(
    alloc: Global,
    terms: &Terms,
    postings: &Postings,
    scope: u32,
    among: &Found,
    query: &Query,
) -> Result<Found, NoMemory>
    ensures { IfOk result (Finds terms.now postings.now scope among.now (Meets query.now)) }
{
    let mut missing = Found::every(alloc);
    for all_of in query.any_of() {
        let part = all(alloc, terms, postings, scope, among, all_of)?;
        missing = both(alloc, missing, part.turned())?;
    }
    Ok(missing.turned())
}

#[cycle(seek)]
fn all(
    alloc: Global,
    terms: &Terms,
    postings: &Postings,
    scope: u32,
    among: &Found,
    all_of: &AllOf,
) -> Result<Found, NoMemory>
    ensures { IfOk result (Finds terms.now postings.now scope among.now (MeetsAll all_of.now)) }
{
    let items = all_of.items();
    let mut found = begun(alloc, terms, postings, scope, among, items)?;
    for item in items {
        let part = one(alloc, terms, postings, scope, &found, item)?;
        found = both(alloc, found, part)?;
    }
    Ok(found)
}

#[cycle(seek)]
fn one(
    alloc: Global,
    terms: &Terms,
    postings: &Postings,
    scope: u32,
    among: &Found,
    item: &Item,
) -> Result<Found, NoMemory>
    ensures { IfOk result (Finds terms.now postings.now scope among.now (MeetsItem item.now)) }
{
    let (nots, what) = item.parts();
    let found = plain(alloc, terms, postings, scope, among, what)?;
    Ok(turned(nots, found))
}

#[cycle(seek)]
fn plain(
    alloc: Global,
    terms: &Terms,
    postings: &Postings,
    scope: u32,
    among: &Found,
    what: &What,
) -> Result<Found, NoMemory>
    ensures { IfOk result (Finds terms.now postings.now scope among.now (MeetsItem (what_of what.now))) }
{
    match what {
        What::Term(term) => of_term(alloc, terms, postings, scope, among, term),
        What::Group(query) => any(alloc, terms, postings, scope, among, query),
    }
}

/// What an AND begins with: the objects of the term that the fewest have, where these are known to be few, or else those
/// among which it looks.
fn begun(
    alloc: Global,
    terms: &Terms,
    postings: &Postings,
    scope: u32,
    among: &Found,
    items: &[Item],
) -> Result<Found, NoMemory>
    ensures { IfOk result (Spares terms.now postings.now scope among.now (MeetsAll (ands_of items.now))) }
{
    let Some(place) = rarest(alloc, terms, postings, scope, items)? else {
        return among.copy(alloc);
    };
    match items.get(place) {
        Some(item) => begun_with(alloc, terms, postings, scope, among, item),
        None => among.copy(alloc),
    }
}

/// The objects of a term that no NOT stands before, or else those among which is looked.
fn begun_with(
    alloc: Global,
    terms: &Terms,
    postings: &Postings,
    scope: u32,
    among: &Found,
    item: &Item,
) -> Result<Found, NoMemory>
    ensures { IfOk result (Spares terms.now postings.now scope among.now (MeetsItem item.now)) }
{
    match item.parts() {
        (0, What::Term(term)) => of_term(alloc, terms, postings, scope, among, term),
        _ => among.copy(alloc),
    }
}

/// The place of the item that the fewest objects meet, of those that ask for one value, where they are no more than `FEW`.
fn rarest(
    alloc: Global,
    terms: &Terms,
    postings: &Postings,
    scope: u32,
    items: &[Item],
) -> Result<Option<usize>, NoMemory> {
    let mut places = Vec::new(alloc);
    let mut numbers = Vec::new(alloc);
    for (place, item) in items.iter().enumerate() {
        if let (0, What::Term(Term::AtField(field, wanted))) = item.parts() {
            if let Some(number) = number_of_one(alloc, terms, scope, field.as_slice(), wanted)? {
                places.push(place)?;
                numbers.push(number)?;
            }
        }
    }
    match postings.rarest(alloc, &numbers, FEW)? {
        Some(at) => Ok(places.get(at).copied()),
        None => Ok(None),
    }
}

/// Turned round once for each NOT.
fn turned(nots: u8, found: Found) -> Found
    ensures { (x : ℕ) → has result x ≡ turned nots (has found x) }
{
    let mut answer = found;
    for _ in 0..nots {
        answer = answer.turned();
    }
    answer
}

fn of_term(
    alloc: Global,
    terms: &Terms,
    postings: &Postings,
    scope: u32,
    among: &Found,
    term: &Term,
) -> Result<Found, NoMemory>
    ensures { IfOk result (Finds terms.now postings.now scope among.now (MeetsTerm term.now)) }
{
    match term {
        Term::Every => Ok(Found::every(alloc)),
        Term::AtField(field, wanted) => Ok(Found {
            others: false,
            numbers: with_field(
                alloc,
                terms,
                postings,
                scope,
                among,
                field.as_slice(),
                wanted,
            )?,
        }),
    }
}

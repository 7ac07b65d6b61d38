//! Which objects a query finds.
ghost use Rattle.query_text.specs.Items.{what_of};
ghost use Rattle.search_query.specs.Matching.{HasWanted, IsWanted, Meets, MeetsAll, MeetsItem, MeetsTerm, is_above, is_before, is_below, is_between, turned};
ghost use Rattle.std.specs.Prelude.{◌≡◌, ◌↔◌, IsTrue};

use crate::pair::{Pair, Pairs};
use crate::walk::fits;
use doc_tree::Bytes;
use query_text::{AllOf, Item, Query, Range, Term, Wanted, What};
use std::cmp::Ordering;

/// Whether an object of these pairs is found by a query. It takes no memory.
pub fn matches(query: &Query, pairs: &Pairs) -> bool
    ensures { IsTrue result ↔ Meets query.now pairs.now }
{
    meets(query, pairs.as_slice())
}

#[cycle(meets)]
fn meets(query: &Query, pairs: &[Pair]) -> bool
    ensures { IsTrue result ↔ Meets query.now pairs.now }
{
    for all_of in query.any_of() {
        if meets_all(all_of, pairs) {
            return true;
        }
    }
    false
}

#[cycle(meets)]
fn meets_all(all_of: &AllOf, pairs: &[Pair]) -> bool
    ensures { IsTrue result ↔ MeetsAll all_of.now pairs.now }
{
    for item in all_of.items() {
        if !meets_item(item, pairs) {
            return false;
        }
    }
    true
}

#[cycle(meets)]
fn meets_item(item: &Item, pairs: &[Pair]) -> bool
    ensures { IsTrue result ↔ MeetsItem item.now pairs.now }
{
    let (nots, what) = item.parts();
    let met = meets_what(what, pairs);
    turned(nots, met)
}

#[cycle(meets)]
fn meets_what(what: &What, pairs: &[Pair]) -> bool
    ensures { IsTrue result ↔ MeetsItem (what_of what.now) pairs.now }
{
    match what {
        What::Term(term) => meets_term(term, pairs),
        What::Group(query) => meets(query, pairs),
    }
}

// The answer under so many NOTs.
fn turned(nots: u8, met: bool) -> bool
    ensures { result ≡ turned nots met }
{
    let mut answer = met;
    for _ in 0..nots {
        answer = !answer;
    }
    answer
}

fn meets_term(term: &Term, pairs: &[Pair]) -> bool
    ensures { IsTrue result ↔ MeetsTerm term.now pairs.now }
{
    match term {
        Term::Every => true,
        Term::AtField(field, wanted) => has_wanted(field.as_slice(), wanted, pairs),
    }
}

fn has_wanted(field: &[u8], wanted: &Wanted, pairs: &[Pair]) -> bool
    ensures { IsTrue result ↔ HasWanted field.now wanted.now pairs.now }
{
    for pair in pairs {
        if is_met(field, wanted, pair) {
            return true;
        }
    }
    false
}

fn is_met(field: &[u8], wanted: &Wanted, pair: &Pair) -> bool
    ensures { IsTrue result ↔ ((pair.now.field ≡ field.now) × IsWanted wanted.now pair.now.value) }
{
    pair.field() == field && is_wanted(wanted, pair.value())
}

/// Whether a value is what is wanted. It takes no memory.
pub fn is_wanted(wanted: &Wanted, value: &[u8]) -> bool
    ensures { IsTrue result ↔ IsWanted wanted.now value.now }
{
    match wanted {
        Wanted::Equal(bytes) => value == bytes.as_slice(),
        Wanted::Like(signs) => fits(signs.as_slice(), value),
        Wanted::Between(range) => is_between(range, value),
    }
}

fn is_between(range: &Range, value: &[u8]) -> bool
    ensures { result ≡ is_between range.now value.now }
{
    is_above(range.with_ends, &range.low, value) && is_below(range.with_ends, &range.high, value)
}

fn is_above(with_ends: bool, low: &Option<Bytes>, value: &[u8]) -> bool
    ensures { result ≡ is_above with_ends low.now value.now }
{
    match low {
        None => true,
        Some(low) => is_before(with_ends, low.as_slice().cmp(value)),
    }
}

fn is_below(with_ends: bool, high: &Option<Bytes>, value: &[u8]) -> bool
    ensures { result ≡ is_below with_ends high.now value.now }
{
    match high {
        None => true,
        Some(high) => is_before(with_ends, value.cmp(high.as_slice())),
    }
}

fn is_before(with_ends: bool, order: Ordering) -> bool
    ensures { result ≡ is_before with_ends order }
{
    match order {
        Ordering::Less => true,
        Ordering::Equal => with_ends,
        Ordering::Greater => false,
    }
}

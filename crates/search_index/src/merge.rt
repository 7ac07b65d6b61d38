//! The new pairs of an object beside the postings that it has: both are gone along side by side, and only what differs is
//! touched.
ghost use Rattle.std.specs.Prelude.{◌≡◌, ◌++◌, ◌∷◌, ℕ, List, IsSome, IsTrue, Some, []};
ghost use Rattle.search_query.specs.Pair.{pair_cmp};
ghost use Rattle.search_query.specs.Pair as specs;
ghost use Rattle.ordered_keys.specs.Keys.{key_of};
ghost use Rattle.search_index.specs.KeyOrder.{TermKey};
ghost use Rattle.search_index.specs.Merge.{HasAll, HasNext, Merges, Start, pair_in};

use crate::arena::{add_behind, drop_at};
use crate::posting::Place;
use crate::postings::Postings;
use crate::terms::Terms;
use search_query::Pair;
use std::cmp::Ordering;

/// Lets an object have a pair, the next of its new ones, behind a place where those before it are settled. It tells the
/// place of the posting. Old postings with pairs that are less are taken out. Whatever the order of the chain, the
/// object has just its new pairs in the end; it is in their order, so what stays is found where the walk stands.
pub(crate) fn settle(
    terms: &mut Terms,
    postings: &mut Postings,
    scope: u32,
    object: usize,
    pair: Pair,
    before: Place,
) -> Place
    requires { (was : Start) × (left : List specs.Pair) × Merges was terms.old postings.old scope object (left ++ pair ∷ []) before }
    ensures { (was : Start) (left : List specs.Pair) → Merges was terms.old postings.old scope object (left ++ pair ∷ []) before → Merges was terms.new postings.new scope object left result }
{
    if drop_less(terms, postings, object, &pair, before) {
        postings.after(object, before)
    } else {
        add_behind(terms, postings, object, scope, pair, before)
    }
}

/// Takes out the postings behind a place whose pairs are less than this one, and tells whether the next has this one.
fn drop_less(
    terms: &mut Terms,
    postings: &mut Postings,
    object: usize,
    pair: &Pair,
    before: Place,
) -> bool
    requires { (was : Start) × (scope : ℕ) × (left : List specs.Pair) × Merges was terms.old postings.old scope object left before }
    ensures merges { (was : Start) (scope : ℕ) (left : List specs.Pair) → Merges was terms.old postings.old scope object left before → Merges was terms.new postings.new scope object left before }
    ensures next { IsTrue result → HasNext terms.new postings.new object before pair.now }
{
    while let Some(place) = postings.after(object, before).get() {
        match order_of(terms, postings.term_at(place), pair) {
            Ordering::Less => drop_at(terms, postings, place),
            Ordering::Equal => return true,
            Ordering::Greater => return false,
        }
    }
    false
}

/// Takes out the postings behind a place.
pub(crate) fn drop_rest(terms: &mut Terms, postings: &mut Postings, object: usize, before: Place)
    requires { (was : Start) × (scope : ℕ) × (left : List specs.Pair) × Merges was terms.old postings.old scope object left before }
    ensures merges { (was : Start) (scope : ℕ) (left : List specs.Pair) → Merges was terms.old postings.old scope object left before → Merges was terms.new postings.new scope object left before }
    ensures all { HasAll postings.new object before }
{
    while let Some(place) = postings.after(object, before).get() {
        drop_at(terms, postings, place);
    }
}

/// How the pair of a term stands to another.
fn order_of(terms: &Terms, number: usize, pair: &Pair) -> Ordering
    requires { IsSome (key_of terms.now number) }
    ensures { (y : TermKey) → key_of terms.now number ≡ Some y → result ≡ pair_cmp (pair_in y) pair.now }
{
    match terms.get(number) {
        Some(term) => term.order_to_pair(pair),
        None => unreachable!(),
    }
}

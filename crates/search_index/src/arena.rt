//! Scopes, objects and terms under numbers, and the postings between them.
ghost use Rattle.std.specs.Prelude.{◌≡◌, ◌+◌, ◌<◌, ◌≤◌, IsSome, MatchBool, length};
ghost use Rattle.search_index.specs.Arena.{AddsBehind, AddsTerm, DropsAt, DropsFirst, DropsUnused, TermsThere};
ghost use Rattle.ordered_keys.specs.Keys.{Numbers, key_of};
ghost use Rattle.search_index.specs.KeyOrder.{term_key};
ghost use Rattle.search_index.specs.Net.{HasNone, IsBehind, held, used};

use crate::posting::Place;
use crate::postings::Postings;
use crate::terms::Terms;
use search_query::Pair;

/// Puts in that an object has the term of a pair in a scope, and the term where it isn't there.
pub(crate) fn add(terms: &mut Terms, postings: &mut Postings, object: usize, scope: u32, pair: Pair)
    requires object { object < postings.old.objects }
    requires heads { length terms.old.slots ≤ postings.old.terms }
    requires room { 1 ≤ terms.old.room }
    requires place { used postings.old + 1 ≤ postings.old.capacity }
    ensures { AddsTerm terms.old terms.new postings.old postings.new object (term_key scope pair.field pair.value) }
{
    add_behind(terms, postings, object, scope, pair, Place::none());
}

/// The same, behind a place in the chain of the object. It tells the place of the posting.
pub(crate) fn add_behind(
    terms: &mut Terms,
    postings: &mut Postings,
    object: usize,
    scope: u32,
    pair: Pair,
    before: Place,
) -> Place
    requires object { object < postings.old.objects }
    requires heads { length terms.old.slots ≤ postings.old.terms }
    requires room { 1 ≤ terms.old.room }
    requires place { used postings.old + 1 ≤ postings.old.capacity }
    requires before { IsBehind postings.old object before }
    ensures { AddsBehind terms.old terms.new postings.old postings.new object (term_key scope pair.field pair.value) before result }
{
    let term = number_of(terms, scope, pair);
    postings.join_behind(object, term, before)
}

/// The number of the term of a pair in a scope, which is put in where it isn't there.
fn number_of(terms: &mut Terms, scope: u32, pair: Pair) -> usize
    requires { 1 ≤ terms.old.room }
    ensures { Numbers terms.old terms.new (term_key scope pair.field pair.value) result }
{
    let (field, value) = pair.into_parts();
    terms.number_of(scope, field, value)
}

/// Takes out a posting of an object, and its term where that has no other, and tells whether there was one.
pub(crate) fn drop_first(terms: &mut Terms, postings: &mut Postings, object: usize) -> bool
    requires { TermsThere terms.old postings.old }
    ensures { MatchBool result (DropsFirst terms.old terms.new postings.old postings.new object) ((terms.new ≡ terms.old) × (postings.new ≡ postings.old) × HasNone postings.old object) }
{
    match postings.take(object) {
        Some(term) => {
            drop_unused(terms, postings, term);
            true
        }
        None => false,
    }
}

/// Takes out the posting in a place, and its term where that has no other.
pub(crate) fn drop_at(terms: &mut Terms, postings: &mut Postings, place: usize)
    requires terms { TermsThere terms.old postings.old }
    requires taken { IsSome (held postings.old place) }
    ensures { DropsAt terms.old terms.new postings.old postings.new place }
{
    let term = postings.take_at(place);
    drop_unused(terms, postings, term);
}

/// Takes out a term that no posting is of.
fn drop_unused(terms: &mut Terms, postings: &Postings, term: usize)
    requires { IsSome (key_of terms.old term) }
    ensures { DropsUnused terms.old terms.new postings.now term }
{
    if postings.is_unused(term) {
        terms.remove(term);
    }
}

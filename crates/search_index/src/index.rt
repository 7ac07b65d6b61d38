//! The index.
ghost use Rattle.std.specs.Prelude.{◌≡◌, ◌≢◌, ◌↔◌, ◌+◌, ◌≤◌, ℕ, List, IfOk, IsTrue, MatchOption, OnOk, Some, [], length};
ghost use Rattle.std.specs.Cmp.Lexicographic.{slice_cmp};
ghost use Rattle.std.specs.List.Sorted.{IsStrictlySortedBy};
ghost use Rattle.std.specs.Ordering.{nat_cmp};
ghost use Rattle.search_query.specs.Matching.{Meets};
ghost use Rattle.search_query.specs.Pair.{Pair};
ghost use Rattle.search_index.specs.Names.{lists_name};
ghost use Rattle.search_index.specs.Scope.{scope_at};
ghost use Rattle.search_index.specs.Arena.{AddsObject, DropsObject, HasObject, HasRoom, LosesRoom, ReplacesObject, SameObjects, StandsAt};
ghost use Rattle.search_index.specs.declared.scope.Scope.{Scope as ScopeKey};
ghost use Rattle.ordered_keys.specs.Keys.{key_of};
ghost use Rattle.search_index.specs.declared.key.ObjectKey.{ObjectKey as Key};

use crate::arena::{add, drop_first};
use crate::found::Found;
use crate::key::{ObjectAt, ObjectKey};
use crate::merge::{drop_rest, settle};
use crate::names::{in_order, names_of};
use crate::posting::Place;
use crate::postings::Postings;
use crate::scope::{Scope, ScopeAt, Scopes};
use crate::seek::any;
use crate::terms::Terms;
use doc_tree::{NoMemory, Text, Texts};
use ordered_keys::Ordered;
use query_text::Query;
use search_query::Pairs;
use std::alloc::Global;
use std::hash::RandomState;
use std::marker::Model;

/// The pairs of the objects of all scopes, as postings in one arena. Contracts see which objects are there, which pairs
/// each has, and how many more fit without memory.
#[derive(Drop)]
pub struct Index {
    scopes: Scopes,
    objects: Ordered<ObjectKey>,
    terms: Terms,
    postings: Postings,
}

/// The numbers under which the scope of an object and the object stand.
#[derive(Drop)]
struct Standing {
    scope: u32,
    object: usize,
}

impl Model for Index {
    ghost use Rattle.search_index.specs.Arena.{Contents, contents_code};

    ghost Value = { Contents };

    ghost coded = { contents_code };

    ghost use Rattle.search_index.specs.Arena.{IsWhole};

    ghost view = { λ i. record { scopes = i.scopes; objects = i.objects; terms = i.terms; net = i.postings } };

    ghost invariant = { λ i. IsWhole (record { scopes = i.scopes; objects = i.objects; terms = i.terms; net = i.postings }) };
}

impl Index {
    ghost use Rattle.search_index.specs.Arena.{IsEmpty};

    /// No object, and no room. Words and terms are hashed by the hasher, which changes nothing that is found. It takes no
    /// memory.
    pub fn none(alloc: Global, hasher: RandomState) -> Index
        ensures { IsEmpty result }
    {
        Index {
            scopes: Scopes::none(alloc),
            objects: Ordered::none(alloc),
            terms: Terms::none(alloc, hasher),
            postings: Postings::none(alloc),
        }
    }

    /// Makes room for so many more objects, postings and terms. The objects and their pairs are as they were, and the room
    /// isn't less, also where there is no memory, as there is none (`NoMemory`) where objects, postings or terms would be
    /// 2^32 - 1 or more.
    pub fn reserve(&mut self, objects: usize, postings: usize, terms: usize) -> Result<(), NoMemory>
        ensures same { SameObjects self.old self.new }
        ensures ok { OnOk result (HasRoom self.new objects postings terms) }
        ensures room { LosesRoom self.old self.new 0 0 0 }
    {
        let more_scopes = objects.saturating_sub(self.scopes.room());
        let more_objects = objects.saturating_sub(self.objects.room());
        let Some(all_objects) = self.objects.size().checked_add(more_objects) else {
            return Err(NoMemory);
        };
        let Some(all_terms) = self.terms.size().checked_add(terms) else {
            return Err(NoMemory);
        };
        self.postings.reserve(postings, all_objects, all_terms)?;
        self.scopes.grow(more_scopes)?;
        self.objects.grow(more_objects)?;
        self.terms.reserve(terms)
    }

    /// Puts in an object, which isn't there, with its pairs. It takes no memory.
    pub fn insert(&mut self, scope: Scope, name: Text, pairs: Pairs)
        requires absent { HasObject self.old scope name → ⊥ }
        requires room { HasRoom self.old 1 (length pairs) (length pairs) }
        ensures adds { AddsObject self.old self.new scope name pairs }
        ensures room { LosesRoom self.old self.new 1 (length pairs) (length pairs) }
    {
        let number = self.scopes.number_of(scope);
        let object = self.objects.insert(ObjectKey {
            scope: number,
            name,
        });
        let mut left = pairs.into_vec();
        while let Some(pair) = left.pop() {
            add(&mut self.terms, &mut self.postings, object, number, pair);
        }
    }

    /// Puts in an object with its pairs, in the place of the one that is there, if it is. It takes no memory. The pairs that
    /// the object keeps stay where they are, so it costs what differs, and a look at each pair.
    pub fn replace(&mut self, scope: Scope, name: Text, pairs: Pairs)
        requires room { HasRoom self.old 1 (length pairs) (length pairs) }
        ensures replaces { ReplacesObject self.old self.new scope name pairs }
        ensures room { LosesRoom self.old self.new 1 (length pairs) (length pairs) }
    {
        let at = ScopeAt {
            org: &scope.org,
            index: &scope.index,
        };
        match self.standing(at, &name) {
            Some(standing) => self.change(standing, pairs),
            None => self.insert(scope, name, pairs),
        }
    }

    /// Where an object stands, if it is there.
    fn standing(&self, scope: ScopeAt, name: &Text) -> Option<Standing>
        ensures { MatchOption result (HasObject self.now (scope_at scope.entry) name.now → ⊥) (λ at. StandsAt self.now (scope_at scope.entry) name.now at.scope at.object) }
    {
        let Some(number) = self.scopes.find(&scope) else {
            return None;
        };
        let sought = ObjectAt {
            scope: number,
            name: name.as_bytes(),
        };
        match self.objects.find(&sought) {
            Some(object) => Some(Standing {
                scope: number,
                object,
            }),
            None => None,
        }
    }

    /// Gives an object its new pairs in place of those that it has: the new ones are settled in their order, from the first
    /// on, along the chain of the object.
    fn change(&mut self, standing: Standing, pairs: Pairs)
        requires stands { (scope : ScopeKey) × (name : List ℕ) × StandsAt self.old scope name standing.scope standing.object }
        requires room { HasRoom self.old 1 (length pairs) (length pairs) }
        ensures replaces { (scope : ScopeKey) (name : List ℕ) → StandsAt self.old scope name standing.scope standing.object → ReplacesObject self.old self.new scope name pairs }
        ensures room { LosesRoom self.old self.new 1 (length pairs) (length pairs) }
    {
        let Standing { scope, object } = standing;
        let mut left = pairs.into_vec();
        left.reverse();
        let mut before = Place::none();
        while let Some(pair) = left.pop() {
            before = settle(
                &mut self.terms,
                &mut self.postings,
                scope,
                object,
                pair,
                before,
            );
        }
        drop_rest(&mut self.terms, &mut self.postings, object, before);
    }

    /// Takes out an object with its pairs, where it is there. It takes no memory.
    pub fn remove(&mut self, scope: ScopeAt, name: &Text)
        ensures drops { DropsObject self.old self.new (scope_at scope.entry) name.now }
        ensures room { LosesRoom self.old self.new 0 0 0 }
    {
        let Some(at) = self.standing(scope, name) else {
            return;
        };
        while drop_first(&mut self.terms, &mut self.postings, at.object) {}
        self.objects.remove(at.object);
        if is_empty(&self.objects, at.scope) {
            self.scopes.remove(at.scope);
        }
    }
}

impl Index {
    ghost use Rattle.search_index.specs.Arena.{ArePairs};

    /// The names of the objects of a scope whose pairs meet a query, in the order of their bytes, each once.
    pub fn find(&self, alloc: Global, scope: ScopeAt, query: &Query) -> Result<Texts, NoMemory>
        ensures found { IfOk result (λ names. (name : List ℕ) (pairs : List Pair) → HasObject self.now (scope_at scope.entry) name → ArePairs self.now (scope_at scope.entry) name pairs → IsTrue (lists_name names name) ↔ Meets query.now pairs) }
        ensures objects { IfOk result (λ names. (name : List ℕ) → IsTrue (lists_name names name) → HasObject self.now (scope_at scope.entry) name) }
        ensures rising { IfOk result (IsStrictlySortedBy (slice_cmp nat_cmp)) }
    {
        let Some(number) = self.scopes.find(&scope) else {
            return Ok(in_order(Vec::new(alloc)));
        };
        let next = self.scopes.after(number);
        let every = Found::every(alloc);
        let found = any(alloc, &self.terms, &self.postings, number, &every, query)?;
        let names = names_of(alloc, &self.objects, number, next, &found)?;
        Ok(in_order(names))
    }
}

/// Whether a scope has no object.
fn is_empty(objects: &Ordered<ObjectKey>, number: u32) -> bool
    ensures { IsTrue result → (i : ℕ) (x : Key) → key_of objects.now i ≡ Some x → x.scope ≢ number }
{
    let Some(next) = number.checked_add(1) else {
        return false;
    };
    let low = ObjectAt {
        scope: number,
        name: &[],
    };
    let high = ObjectAt {
        scope: next,
        name: &[],
    };
    !objects.has_between(&low, &high)
}

//! The finder that keeps the pairs of all objects.
ghost use Rattle.std.specs.Prelude.{◌≡◌, ℕ, List, Some};
ghost use Rattle.std.specs.FinMap as finite;
ghost use Rattle.object_finder.specs.Exact.{IsExact};
ghost use Rattle.search_index.specs.Scope.{scope_at};
ghost use Rattle.shard_core.specs.Holding.{held_of, in_site, nothing, room_in};

use doc_tree::{NoMemory, Steps, Text, Texts};
use object_finder::{Finder, Scope};
use object_store::Objects;
use query_text::Query;
use search_index::{Index, Scope as SiteScope, ScopeAt};
use search_query::Pairs;
use std::alloc::Global;
use std::hash::RandomState;
use std::sync::ledger::Ledger;

/// The finder that keeps the pairs of all objects of all organisations, and reads no object.
///
/// It is exact for an organisation as long as it is told of each object of it that comes or goes. A search looks at no
/// object: it costs what it finds.
#[derive(Drop)]
pub struct Indexed {
    index: Index,
}

impl Indexed {
    /// The finder that holds nothing: it is exact for each organisation without objects. Its words are hashed by this
    /// hasher, which changes nothing that is found. It has no room, and takes no memory.
    pub fn none(alloc: Global, hasher: RandomState) -> Indexed
        ensures held { ⟦<Indexed as Finder>⟧.held result ≡ Some nothing }
        ensures exact { (org : List ℕ) → IsExact (⟦<Indexed as Finder>⟧.held result) org finite.empty }
    {
        Indexed {
            index: Index::none(alloc, hasher),
        }
    }
}

impl Finder for Indexed {
    ghost held = { λ i. Some (held_of i.index) };

    ghost room = { λ i. Some (room_in i.index) };

    ghost looks = { λ _ _. 0 };

    fn keeps(&self) -> bool {
        true
    }

    fn reserve(&mut self, objects: usize, pairs: usize, terms: usize) -> Result<(), NoMemory> {
        self.index.reserve(objects, pairs, terms)
    }

    fn insert(&mut self, scope: Scope, name: Text, pairs: Pairs) {
        let Scope { org, index } = scope;
        self.index.replace(SiteScope { org, index }, name, pairs);
    }

    fn remove(&mut self, scope: &Scope, name: &Text) {
        self.index.remove(borrowed(scope), name);
    }

    fn find<L: Ledger>(
        &self,
        alloc: Global,
        _objects: &Objects,
        scope: &Scope,
        query: &Query,
        _steps: &mut Steps<L>,
    ) -> Result<Texts, NoMemory> {
        self.index.find(alloc, borrowed(scope), query)
    }
}

/// The scope by its names as they stand, so that nothing is copied.
fn borrowed(scope: &Scope) -> ScopeAt
    ensures { scope_at result ≡ in_site scope.now }
{
    ScopeAt {
        org: &scope.org,
        index: &scope.index,
    }
}

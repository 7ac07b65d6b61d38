//! The finder that keeps nothing, and looks at each object.
ghost use Rattle.std.specs.Prelude.{None};

use crate::finder::Finder;
use crate::found;
use crate::indexes::index_of;
use crate::scopes::Scope;
use doc_tree::{NoMemory, Steps, Text, Texts};
use object_store::Objects;
use query_text::Query;
use search_query::Pairs;
use std::alloc::Global;
use std::sync::ledger::Ledger;

/// The finder that keeps nothing. It looks at every object of the index that is searched, and is exact for all objects.
#[derive(Clone, Copy, Debug)]
pub struct ScanFinder;

impl Finder for ScanFinder {
    ghost held = { λ _. None };

    ghost room = { λ _. None };

    ghost looks = { λ _ count. count };

    fn keeps(&self) -> bool {
        false
    }

    fn reserve(&mut self, _objects: usize, _pairs: usize, _terms: usize) -> Result<(), NoMemory> {
        Ok(())
    }

    fn insert(&mut self, _scope: Scope, _name: Text, _pairs: Pairs) {}

    fn remove(&mut self, _scope: &Scope, _name: &Text) {}

    fn find<L: Ledger>(
        &self,
        alloc: Global,
        objects: &Objects,
        scope: &Scope,
        query: &Query,
        steps: &mut Steps<L>,
    ) -> Result<Texts, NoMemory> {
        let index = index_of(alloc, &scope.index)?;
        found::find(alloc, objects, &index, query, steps)
    }
}

//! What a finder is.
ghost use Rattle.std.specs.Prelude.{◌≡◌, ℕ, Option, IfOk, OnOk, true, is_some, length, option_map};
ghost use Rattle.doc_tree.specs.Valid.{InOrder};
ghost use Rattle.object_finder.specs.Exact.{IsExact};
ghost use Rattle.object_finder.specs.Found.{found_in};
ghost use Rattle.object_finder.specs.Held.{Held, Room, HasRoom, LosesRoom, in_place, without_object};
ghost use Rattle.object_finder.specs.Indexes.{index_of, is_plain, names_of};
ghost use Rattle.object_finder.specs.Looks.{Looked};

use crate::scopes::Scope;
use doc_tree::{NoMemory, Steps, Text, Texts};
use object_store::Objects;
use query_text::Query;
use search_query::Pairs;
use std::alloc::Global;
use std::sync::ledger::Ledger;

/// What finds the objects of an organisation's index that a query matches. A finder may keep the pairs of all objects,
/// and is told of each that comes or goes; or it keeps nothing, and looks at the objects.
pub trait Finder {
    /// What it holds: of each organisation the objects of each index, with their pairs. `None` where it keeps nothing.
    ghost held: { Self → Option Held };

    /// How much more it can hold without memory. `None` where it keeps nothing.
    ghost room: { Self → Option Room };

    /// How many objects it looks at to search an index of so many.
    ghost looks: { Self → ℕ → ℕ };

    /// Whether it keeps anything, so that it has to be told of what comes and goes.
    fn keeps(&self) -> bool
        ensures { result ≡ is_some (held self.now) };

    /// Makes room for so many more objects, pairs and terms, which are pairs that no object had before. What it holds
    /// stays, also where there is no memory.
    fn reserve(&mut self, objects: usize, pairs: usize, terms: usize) -> Result<(), NoMemory>
        ensures held { held self.new ≡ held self.old }
        ensures looks { looks self.new ≡ looks self.old }
        ensures room { OnOk result (HasRoom (room self.new) objects pairs terms) };

    /// Puts an object in with its pairs, in the place of the one that is there, if it is. It can't fail.
    fn insert(&mut self, scope: Scope, name: Text, pairs: Pairs)
        requires room { HasRoom (room self.old) 1 (length pairs) (length pairs) }
        ensures held { held self.new ≡ option_map (in_place scope name pairs) (held self.old) }
        ensures looks { looks self.new ≡ looks self.old }
        ensures room { LosesRoom (room self.old) (room self.new) 1 (length pairs) (length pairs) };

    /// Takes an object out with its pairs, where it is there. It takes no memory.
    fn remove(&mut self, scope: &Scope, name: &Text)
        ensures held { held self.new ≡ option_map (without_object scope.now name.now) (held self.old) }
        ensures looks { looks self.new ≡ looks self.old }
        ensures room { LosesRoom (room self.old) (room self.new) 0 0 0 };

    /// The names of the objects of a scope that a query finds, in the order of their bytes: of a bag the ids of its
    /// items. The objects are those of the scope's organisation, for which the finder is exact. Want of memory is the one
    /// refusal.
    fn find<L: Ledger>(
        &self,
        alloc: Global,
        objects: &Objects,
        scope: &Scope,
        query: &Query,
        steps: &mut Steps<L>,
    ) -> Result<Texts, NoMemory>
        requires exact { IsExact (held self.now) scope.now.org objects.now.objects }
        requires plain { is_plain scope.now.index ≡ true }
        ensures found { IfOk result (λ names. names ≡ found_in (index_of scope.now.index) query.now objects.now.objects) }
        ensures order { IfOk result InOrder }
        ensures looked { Looked result (looks self.now (length (names_of (index_of scope.now.index) objects.now.objects))) steps.old steps.new };
}

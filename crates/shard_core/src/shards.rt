//! The organisations of a site, kept in shards: the contract that a shard has is all that the
//! theorem above stands on.

ghost use Rattle.std.specs.Prelude.{◌≡◌, ◌≢◌, ℕ, List, Some, None, cond, bytes_eq, is_some, true};
ghost use Rattle.std.specs.Option.{ForSome};
ghost use Rattle.org_core.specs.States.{state_in};
ghost use Rattle.sandboxes.specs.Files.{holding_of};
ghost use Rattle.sandboxes.specs.Sandboxes.{nothing, holding_code};
ghost use base.Stored.{Coded-set, coded_bool};
ghost use Rattle.org_core.specs.FullStates.{MeetsFileConditions};
ghost use Rattle.org_shelves.specs.Files.{is_committed};
ghost use Rattle.shard_core.specs.Keeping.{held_in};
ghost use Rattle.object_finder.specs.Indexes.{found_by, pairs_by};
ghost use Rattle.search_query.specs.Pair.{lists};
ghost use Rattle.shard_core.specs.Indexing.{IsIndexed, objects_at};
ghost use Rattle.shard_core.specs.Organisations.{kept_at, full_at, kept_if_there, HasRoomFor};

use crate::indexed::Indexed;
use crate::names::{add_name, is_shown};
use doc_tree::{NoMemory, Steps, Text};
use indexmap::IndexMap;
use org_machine::OrgState;
use org_requests::{Reply, Request, out_of_memory};
use sandboxes::Files;
use std::alloc::Global;
use std::collections::BTreeSet;
use std::hash::RandomState;
use std::sync::ledger::Ledger;

/// The organisations of one shard, by their names, with the files of all of them, and the index of all their objects.
#[derive(Drop)]
pub struct Shard {
    organisations: Organisations,
    files: Files,
    index: Indexed,
    hasher: RandomState,
    ghost named: { (name : List ℕ) → ForSome (kept_at organisations name) (λ kept. kept.name ≡ name) },
    // None is kept that isn't there, so what is asked of strangers costs no memory.
    ghost there: { (name : List ℕ) → ForSome (kept_at organisations name) (λ kept. state_in kept ≢ None) },
    // And the files of each meet their conditions, so who isn't kept has none.
    ghost conditions: { (name : List ℕ) → MeetsFileConditions (full_at organisations files name) } by { λ one other i name. record { nobody = λ none. Coded-set holding_code (holding_of files name) nothing ((one name).nobody none) ((other name).nobody none) i; named = λ sum named. Coded-set coded_bool (is_committed (holding_of files name) sum) true ((one name).named sum named) ((other name).named sum named) i } },
    // The index holds each organisation's objects with their pairs, and no others.
    ghost indexed: { IsIndexed organisations (held_in index) } by { λ one other i name. record { there = λ word n. Coded-set coded_bool ((held_in index).has_object name word n) (is_some (found_by word n (objects_at organisations name))) ((one name).there word n) ((other name).there word n) i; pairs = λ word n pair. Coded-set coded_bool ((held_in index).has_pair name word n pair) (lists (pairs_by word n (objects_at organisations name)) pair) ((one name).pairs word n pair) ((other name).pairs word n pair) i } },
}

/// The organisations of a shard, by their names.
type Organisations = IndexMap<Text, OrgState, RandomState>;

impl Shard {
    ghost use Rattle.std.specs.Prelude.{◌<◌, ◌≤◌, ◌||◌, IfOk, OnOk};
    ghost use Rattle.org_core.specs.FullStates.{none};
    ghost use Rattle.org_requests.specs.Requests.{org_of};
    ghost use Rattle.org_machine.specs.Marks.{mark_of, answer, IsLawful};
    ghost use Rattle.org_machine.specs.Serving.{IsGood, Looks, state_then};
    ghost use Rattle.shard_core.specs.Indexing.{no_looks};
    ghost use Rattle.shard_core.specs.Shards.{states_in, HasRoom};
    ghost use Rattle.shard_core.specs.Listing.{has, adds};

    /// A shard without organisations, whose maps hash by this hasher. It takes no memory.
    pub fn new(alloc: Global, hasher: RandomState) -> Shard
        ensures { (name : List ℕ) → states_in result name ≡ none }
    {
        Shard {
            organisations: IndexMap::with_hasher(alloc, hasher),
            files: Files::none(alloc),
            index: Indexed::none(alloc, hasher),
            hasher,
        }
    }

    /// Serves one request of the organisation of this name. What it does leaves every other
    /// organisation's state as it was.
    pub(crate) fn serve<L: Ledger>(
        &mut self,
        alloc: Global,
        org: &Text,
        request: &Request,
        steps: &mut Steps<L>,
    ) -> Reply
        requires { org_of request.now ≡ Some org.now }
        ensures reply { result ≡ answer (mark_of result) request.now (states_in self.old org.now) }
        ensures lawful { IsLawful (mark_of result) request.now (states_in self.old org.now) }
        ensures states { (name : List ℕ) →
            states_in self.new name ≡ state_then name request.now result (states_in self.old name) }
        // A reply other than 200 and 201 leaves every state as it was.
        ensures stays { ¬ (IsGood result.status) → (name : List ℕ) → states_in self.new name ≡ states_in self.old name }
        // The index holds each organisation's objects with their pairs as they are now, and no others.
        ensures indexed { IsIndexed self.new.organisations (held_in self.new.index) }
        // A reply other than 200 and 201 leaves what it holds as it was.
        ensures held { ¬ (IsGood result.status) → held_in self.new.index ≡ held_in self.old.index }
        // A step is a body that the request itself looks at: to find objects the index looks at none.
        ensures looks { Looks no_looks result request.now (states_in self.old org.now) steps.old steps.new }
    {
        match self.organisations.get_mut(org) {
            Some(state) => {
                org_machine::serve(
                    alloc,
                    state,
                    &mut self.files,
                    request,
                    None,
                    &mut self.index,
                    steps,
                )
            }
            None => self.serve_absent(alloc, org, request, steps),
        }
    }

    /// Adds the names of the organisations that are there to those of other shards. This is the shard
    /// of this number, of so many; an organisation that belongs to another isn't looked at.
    pub(crate) fn add_names(
        &self,
        alloc: Global,
        number: usize,
        count: usize,
        names: &mut BTreeSet<Text>,
    ) -> Result<(), NoMemory>
        requires { (0 < count) × (count ≤ 16) }
        ensures { OnOk result ((name : List ℕ) →
            has names.new name ≡ (has names.old name || adds self.now number count name)) }
    {
        for (name, state) in &self.organisations {
            if is_shown(name, state, number, count) {
                add_name(alloc, name, names)?;
            }
        }
        Ok(())
    }

    // An organisation that isn't there is kept only once a request has created it, so what is asked
    // of strangers costs no memory.
    fn serve_absent<L: Ledger>(
        &mut self,
        alloc: Global,
        org: &Text,
        request: &Request,
        steps: &mut Steps<L>,
    ) -> Reply
        requires of { org_of request.now ≡ Some org.now }
        requires absent { kept_at self.old.organisations org.now ≡ None }
        ensures reply { result ≡ answer (mark_of result) request.now (states_in self.old org.now) }
        ensures lawful { IsLawful (mark_of result) request.now (states_in self.old org.now) }
        ensures states { (name : List ℕ) →
            states_in self.new name ≡ state_then name request.now result (states_in self.old name) }
        ensures held { ¬ (IsGood result.status) → held_in self.new.index ≡ held_in self.old.index }
        ensures looks { Looks no_looks result request.now (states_in self.old org.now) steps.old steps.new }
    {
        match self.make_room(alloc, org) {
            Ok((key, state)) => self.serve_new(alloc, key, state, request, steps),
            Err(NoMemory) => out_of_memory(),
        }
    }

    // All the memory that a new organisation needs here: its name twice, and a place in the map.
    fn make_room(&mut self, alloc: Global, org: &Text) -> Result<(Text, OrgState), NoMemory>
        ensures states { (name : List ℕ) → states_in self.new name ≡ states_in self.old name }
        ensures held { held_in self.new.index ≡ held_in self.old.index }
        ensures absent { kept_at self.new.organisations org.now ≡ kept_at self.old.organisations org.now }
        ensures key { IfOk result (λ made. made.0 ≡ org.now) }
        ensures name { IfOk result (λ made. made.1.name ≡ org.now) }
        ensures state { IfOk result (λ made. state_in made.1 ≡ None) }
        ensures room { OnOk result (HasRoom self.new) }
    {
        self.organisations.reserve(1)?;
        let key = org.copy(alloc)?;
        Ok((key, OrgState::none(alloc, self.hasher, org.copy(alloc)?)))
    }

    // Serves the first request of an organisation, and keeps it if it is there afterwards.
    fn serve_new<L: Ledger>(
        &mut self,
        alloc: Global,
        key: Text,
        state: OrgState,
        request: &Request,
        steps: &mut Steps<L>,
    ) -> Reply
        requires of { org_of request.now ≡ Some key }
        requires name { state.name ≡ key }
        requires none { state_in state ≡ None }
        requires absent { kept_at self.old.organisations key ≡ None }
        requires room { HasRoom self.old }
        ensures reply { result ≡ answer (mark_of result) request.now (states_in self.old key) }
        ensures lawful { IsLawful (mark_of result) request.now (states_in self.old key) }
        ensures states { (name : List ℕ) →
            states_in self.new name ≡ state_then name request.now result (states_in self.old name) }
        ensures held { ¬ (IsGood result.status) → held_in self.new.index ≡ held_in self.old.index }
        ensures looks { Looks no_looks result request.now (states_in self.old key) steps.old steps.new }
    {
        let mut state = state;
        let reply = org_machine::serve(
            alloc,
            &mut state,
            &mut self.files,
            request,
            None,
            &mut self.index,
            steps,
        );
        keep_if_there(&mut self.organisations, key, state);
        reply
    }
}

// Keeps an organisation, of which nothing was kept before, if it is there.
fn keep_if_there(organisations: &mut Organisations, key: Text, state: OrgState)
    requires absent { kept_at organisations.old key ≡ None }
    requires room { HasRoomFor organisations.old }
    ensures { (name : List ℕ) → kept_at organisations.new name ≡ cond (bytes_eq key name) (kept_if_there state) (kept_at organisations.old name) }
{
    let is_there = state.is_there();
    match is_there.then_some((key, state)) {
        Some((key, state)) => keep(organisations, key, state),
        None => {}
    }
}

// Keeps an organisation.
fn keep(organisations: &mut Organisations, key: Text, state: OrgState)
    requires room { HasRoomFor organisations.old }
    ensures { (name : List ℕ) → kept_at organisations.new name ≡ cond (bytes_eq key name) (Some state) (kept_at organisations.old name) }
{
    drop(organisations.insert(key, state));
}

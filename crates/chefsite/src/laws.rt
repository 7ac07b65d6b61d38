//! What holds of streams and the bytes answered to them, and of the looks of a search, without any call.

ghost use Rattle.std.specs.Prelude.{◌≡◌, ◌≤◌, ℕ, List, Some, length, map};
ghost use Rattle.object_finder.specs.Indexes.{index_of};
ghost use Rattle.org_core.specs.Contexts.{Context};
ghost use Rattle.org_core.specs.Outcomes.{with_search};
ghost use Rattle.org_machine.specs.Alone.{Alone, Exchange, States, asked_in, own};
ghost use Rattle.search_routes.specs.Finding.{found, search_done, searched};
ghost use Rattle.search_routes.specs.declared.operations.Search.{Search};
ghost use Rattle.shard_core.specs.Indexing.{no_looks};
ghost use Rattle.chefsite.specs.Isolation.{bytes_to};

/// Two streams of exchanges that agree on one organisation's own requests, on what befell them and
/// on the state in which it was opened give that organisation equal bytes, whatever else is in them.
pub fn two_worlds()
    ensures { (opened other : States) (es fs : List Exchange) (name : List ℕ)
        → Alone opened es
        → Alone other fs
        → opened name ≡ other name
        → map asked_in (own name es) ≡ map asked_in (own name fs)
        → bytes_to name es ≡ bytes_to name fs }
{}

/// With the index a search looks at the objects that it shows, and so at most at as many as it finds, however many the
/// organisation has.
pub fn searches_look_at_what_they_find()
    ensures { (context : Context) (search : Search)
        → with_search no_looks (Some (searched context search)) (search_done context search).looks ≤ length (found context (index_of search.index) search.asked.query) }
{}

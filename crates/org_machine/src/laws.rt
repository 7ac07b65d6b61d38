//! Laws of the definitions, which need no code.

ghost use Rattle.std.specs.Prelude.{◌≡◌, ◌↔◌, ℕ, List, [], None, map};
ghost use Rattle.org_requests.specs.declared.requests.Request.{Request};
ghost use Rattle.org_machine.specs.Alone.{Alone, Exchange, RunsAlone, States, asked_in, own};
ghost use Rattle.org_machine.specs.Marks.{mark_of, own_name, served};
ghost use Rattle.org_core.specs.Conditions.{MeetsConditions};
ghost use Rattle.org_core.specs.Moves.{after_moves};
ghost use Rattle.org_requests.specs.Requests.{org_of};
ghost use Rattle.org_core.specs.FullStates.{FullState, MeetsFileConditions};
ghost use Rattle.org_core.specs.FileMoves.{after_all};
ghost use Rattle.org_machine.specs.Permitting.{ArePermittedExactly, IsForbidden};
ghost use Rattle.org_machine.specs.Serving.{IsGood};
ghost use Rattle.org_machine.specs.Steps.{step};

/// Two streams of exchanges that agree on one organisation's own requests, on what befell them and
/// on its opened state give that organisation equal replies, whatever else is in them.
pub fn two_worlds()
    ensures { (opened other : States) (es fs : List Exchange) (name : List ℕ)
        → Alone opened es
        → Alone other fs
        → opened name ≡ other name
        → map asked_in (own name es) ≡ map asked_in (own name fs)
        → map (λ e. e.reply) (own name es) ≡ map (λ e. e.reply) (own name fs) }
{}

/// No step is answered 500 or 503, so these two replies tell of want of memory and of a keeper that
/// failed, and of nothing else.
#[tactic(auto, using(crate::proofs::PreparedLemmas::step_is_served))]
pub fn steps_are_served()
    ensures { (request : Request) (state : FullState) → mark_of (step request state).reply ≡ served }
{}

/// A request that is answered by another status than 200 and 201 makes no move.
#[tactic(auto, using(crate::proofs::PreparedLemmas::no_moves))]
pub fn refusals_change_nothing()
    ensures { (request : Request) (state : FullState) → ¬ (IsGood (step request state).reply.status) → (step request state).moves ≡ [] }
{}

/// A request of no organisation is decided in the same way in every state, and changes none. So nobody
/// learns of an organisation by it; what the listing is answered is said apart.
#[tactic(auto, using(crate::proofs::OutsideLemmas::same_step, crate::proofs::OutsideLemmas::no_step))]
pub fn the_same_in_every_state()
    ensures step { (request : Request) → org_of request ≡ None → (one other : FullState) → step request one ≡ step request other }
    ensures moves { (request : Request) → org_of request ≡ None → (state : FullState) → (step request state).moves ≡ [] }
{}

/// Each step leads from a state that meets the conditions of every organisation's state to one that
/// meets them, and so it is with its files. One that isn't there, and has no files, meets them.
pub fn steps_keep_conditions()
    ensures state { (request : Request) (state : FullState) → MeetsConditions state.state → MeetsConditions (after_moves (step request state).moves state.state) }
    ensures files { (request : Request) (state : FullState) → MeetsFileConditions state → MeetsFileConditions (after_all (own_name request) (step request state).moves state) }
{}

/// A step is answered 403 exactly where nothing before refuses its request and one of the permissions that
/// it needs isn't permitted to its caller.
#[tactic(auto, using(crate::proofs::PermittingLemmas::step_403))]
pub fn steps_permit_exactly()
    ensures { (request : Request) (state : FullState) → ((step request state).reply.status ≡ 403) ↔ IsForbidden request state }
{}

/// What the small machine answers is permitted exactly, request by request.
#[tactic(auto, using(crate::proofs::PermittingLemmas::all_permitted))]
pub fn alone_is_permitted_exactly()
    ensures { (opened : FullState) (es : List Exchange) → RunsAlone opened es → ArePermittedExactly opened es }
{}

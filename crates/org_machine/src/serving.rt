//! Serving one request on one organisation: `prepare` finds the reply and takes all the memory that
//! the moves need, and `settle` makes the moves, which can't fail.

ghost use Rattle.std.specs.Prelude.{◌≡◌, ◌⊎◌, [], IfOk, OnOk, Some, is_some, option_map};
ghost use Rattle.object_finder.specs.Changes.{HasRoomFor, after_changes};
ghost use Rattle.object_finder.specs.Exact.{HoldsOthers, IsExact};
ghost use Rattle.org_core.specs.Conditions.{MeetsConditions};
ghost use Rattle.org_core.specs.FileMoves.{after_all};
ghost use Rattle.org_core.specs.FullStates.{full_in, MeetsFileConditions};
ghost use Rattle.org_core.specs.Moves.{IsOrderly, after_moves};
ghost use Rattle.org_core.specs.Rooms.{HasRoom};
ghost use Rattle.sandboxes.specs.Files.{OthersStay, spare_of};
ghost use Rattle.org_core.specs.Outcomes.{IsAsDecided, Looked, all_looks};
ghost use Rattle.org_requests.specs.Refusals as refusals;
ghost use Rattle.org_requests.specs.Requests.{org_of};
ghost use Rattle.org_core.specs.States.{objects_of, state_in};
ghost use Rattle.org_machine.specs.Finding.{AreChanges};
ghost use Rattle.org_machine.specs.Marks.{mark_of, own_name, answer, after, IsLawful};
ghost use Rattle.org_machine.specs.Permitting.{IsPermittedExactly};
ghost use Rattle.org_machine.specs.Serving.{ComesWith, Does, IsGood, IsOrShort, Looks};
ghost use Rattle.org_machine.specs.Steps as spec;

use crate::finding::changes_with_room;
use crate::steps::within;
use dep_solver::Solved;
use doc_tree::{NoMemory, Steps};
use object_finder::{Changes, Finder, make_changes};
use org_core::{Context, Lent, Moves, OrgState, Prepared};
use org_requests::{Place, Refusal, Reply, Request, Stop, head_refusal, out_of_memory};
use sandboxes::Files;
use std::alloc::Global;
use std::sync::ledger::Ledger;

/// What `prepare` made ready: the reply to a request, and all that the request changes, with memory taken for it.
#[derive(Drop)]
pub struct Ready {
    /// The reply.
    pub reply: Reply,
    /// What changes of the state and the files: nothing unless the reply is 200 or 201.
    pub moves: Moves,
    /// What changes of that which the finder holds.
    pub changes: Changes,
}

/// Finds the reply to a request, and takes all the memory for the moves that it makes. State, files and
/// what the finder holds stay as they were, with room made; the files of every other organisation stay with
/// all that they have. Where memory is wanting the reply is 500, with no move. Each object whose body is
/// looked at or replaced is one step, and so is each that the finder looks at.
///
/// The finder holds the pairs of the state's objects and no others, or nothing at all.
///
/// The hint is a solution that was found beforehand. Where the request asks for the versions of cookbooks
/// and the hint is of the very same universe, rules and roots, it saves the search. The reply is the same
/// with it or without.
pub fn prepare<F: Finder, L: Ledger>(
    alloc: Global,
    state: &mut OrgState,
    files: &mut Files,
    request: &Request,
    hint: Option<Solved>,
    finder: &mut F,
    steps: &mut Steps<L>,
) -> Ready
    requires of { org_of request.now ≡ Some state.old.name }
    requires files { MeetsFileConditions (full_in state.old files.old) }
    requires exact { IsExact (F.held finder.old) state.old.name (objects_of (state_in state.old)) }
    ensures name { state.new.name ≡ state.old.name }
    ensures same { full_in state.new files.new ≡ full_in state.old files.old }
    ensures others { OthersStay state.old.name files.old files.new }
    ensures reply { result.reply ≡ answer (mark_of result.reply) request.now (full_in state.old files.old) }
    ensures lawful { IsLawful (mark_of result.reply) request.now (full_in state.old files.old) }
    ensures moves { after_all (own_name request.now) result.moves (full_in state.old files.old) ≡ after (mark_of result.reply) request.now (full_in state.old files.old) }
    ensures made { ComesWith result.reply.status result.moves }
    ensures room { HasRoom result.moves state.new.objects state.new.groups state.new.shelves (spare_of files.new state.new.name) }
    // The moves lead to a state that meets the conditions of every organisation's state.
    ensures conditions { MeetsConditions (after_moves result.moves (state_in state.new)) }
    // And so do its files, both as they are and as the moves leave them.
    ensures files { MeetsFileConditions (full_in state.new files.new) }
    ensures files_then { MeetsFileConditions (after_all state.new.name result.moves (full_in state.new files.new)) }
    // What the finder holds is as it was. The changes are those of the moves, and it has room for them.
    ensures held { F.held finder.new ≡ F.held finder.old }
    ensures finder_looks { F.looks finder.new ≡ F.looks finder.old }
    ensures changes { AreChanges (F.held finder.new) state.new.name (is_some (state_in state.new)) result.moves result.changes }
    ensures finder_room { HasRoomFor (F.room finder.new) result.changes }
    ensures looks { Looks (F.looks finder.old) result.reply request.now (full_in state.old files.old) steps.old steps.new }
{
    state.meets_conditions();
    prepare_step(alloc, state, files, request, hint.as_ref(), finder, steps)
}

// What the step decides, with room for it, or want of memory.
fn prepare_step<F: Finder, L: Ledger>(
    alloc: Global,
    state: &mut OrgState,
    files: &mut Files,
    request: &Request,
    hint: Option<&Solved>,
    finder: &mut F,
    steps: &mut Steps<L>,
) -> Ready
    requires of { org_of request.now ≡ Some state.old.name }
    requires exact { IsExact (F.held finder.old) state.old.name (objects_of (state_in state.old)) }
    ensures name { state.new.name ≡ state.old.name }
    ensures same { full_in state.new files.new ≡ full_in state.old files.old }
    ensures others { OthersStay state.old.name files.old files.new }
    ensures done { Does (F.looks finder.old) result (spec.decided request.now (full_in state.old files.old)) state.new (spare_of files.new state.new.name) steps.old steps.new }
    ensures held { F.held finder.new ≡ F.held finder.old }
    ensures finder_looks { F.looks finder.new ≡ F.looks finder.old }
    ensures changes { AreChanges (F.held finder.new) state.new.name (is_some (state_in state.new)) result.moves result.changes }
    ensures finder_room { HasRoomFor (F.room finder.new) result.changes }
{
    match decided(alloc, state, files, request, hint, finder, steps) {
        Ok(prepared) => with_room(alloc, state, files, finder, prepared),
        Err(Stop::Refused(refusal)) => stays(alloc, told(alloc, refusal)),
        Err(Stop::NoMemory) => stays(alloc, out_of_memory()),
    }
}

// Decides a request of the organisation whose state this is.
fn decided<F: Finder, L: Ledger>(
    alloc: Global,
    state: &OrgState,
    files: &Files,
    request: &Request,
    hint: Option<&Solved>,
    finder: &F,
    steps: &mut Steps<L>,
) -> Result<Prepared, Stop>
    requires of { org_of request.now ≡ Some state.now.name }
    requires exact { IsExact (F.held finder.now) state.now.name (objects_of (state_in state.now)) }
    ensures done { IsAsDecided result (spec.decided request.now (full_in state.now files.now)).answer }
    ensures looked { Looked result (all_looks (F.looks finder.now) (spec.decided request.now (full_in state.now files.now))) steps.old steps.new }
{
    match head_refusal(request) {
        Some(refusal) => Err(Stop::Refused(refusal)),
        None => decided_within(alloc, state, files, request, hint, finder, steps),
    }
}

// The head refuses nothing.
fn decided_within<F: Finder, L: Ledger>(
    alloc: Global,
    state: &OrgState,
    files: &Files,
    request: &Request,
    hint: Option<&Solved>,
    finder: &F,
    steps: &mut Steps<L>,
) -> Result<Prepared, Stop>
    requires of { org_of request.now ≡ Some state.now.name }
    requires exact { IsExact (F.held finder.now) state.now.name (objects_of (state_in state.now)) }
    ensures done { IsAsDecided result (spec.at_place request.now.place request.now (full_in state.now files.now)).answer }
    ensures looked { Looked result (all_looks (F.looks finder.now) (spec.at_place request.now.place request.now (full_in state.now files.now))) steps.old steps.new }
{
    match &request.place {
        Place::Of { org, route } => {
            let caller = &request.caller;
            let context = Context {
                org,
                caller,
                state,
                files,
            };
            let lent = Lent { finder, hint };
            within(alloc, context, &lent, route, request, steps)
        }
        Place::NoMethod { org: _ } => Err(Stop::Refused(Refusal::NotAllowed)),
        Place::Organisations | Place::LeftOut | Place::NoRoute | Place::NoMemory => unreachable!(),
    }
}

// Makes room for all the moves, or tells of want of memory.
fn with_room<F: Finder>(
    alloc: Global,
    state: &mut OrgState,
    files: &mut Files,
    finder: &mut F,
    prepared: Prepared,
) -> Ready
    requires { IsOrderly prepared.moves }
    ensures name { state.new.name ≡ state.old.name }
    ensures same { full_in state.new files.new ≡ full_in state.old files.old }
    ensures others { OthersStay state.old.name files.old files.new }
    ensures room { HasRoom result.moves state.new.objects state.new.groups state.new.shelves (spare_of files.new state.new.name) }
    ensures done { ((result.reply ≡ prepared.reply) × (result.moves ≡ prepared.moves)) ⊎ ((result.reply ≡ refusals.out_of_memory) × (result.moves ≡ [])) }
    ensures held { F.held finder.new ≡ F.held finder.old }
    ensures finder_looks { F.looks finder.new ≡ F.looks finder.old }
    ensures changes { AreChanges (F.held finder.new) state.new.name (is_some (state_in state.new)) result.moves result.changes }
    ensures finder_room { HasRoomFor (F.room finder.new) result.changes }
{
    let Prepared { reply, moves } = prepared;
    match room_made(alloc, state, files, finder, &moves) {
        Ok(changes) => Ready {
            reply,
            moves,
            changes,
        },
        Err(NoMemory) => stays(alloc, out_of_memory()),
    }
}

// Makes room for all the moves, and the changes that they are for the finder.
fn room_made<F: Finder>(
    alloc: Global,
    state: &mut OrgState,
    files: &mut Files,
    finder: &mut F,
    moves: &Moves,
) -> Result<Changes, NoMemory>
    requires { IsOrderly moves.now }
    ensures name { state.new.name ≡ state.old.name }
    ensures same { full_in state.new files.new ≡ full_in state.old files.old }
    ensures others { OthersStay state.old.name files.old files.new }
    ensures room { OnOk result (HasRoom moves.now state.new.objects state.new.groups state.new.shelves (spare_of files.new state.new.name)) }
    ensures held { F.held finder.new ≡ F.held finder.old }
    ensures finder_looks { F.looks finder.new ≡ F.looks finder.old }
    ensures changes { IfOk result (λ changes. AreChanges (F.held finder.new) state.new.name (is_some (state_in state.new)) moves.now changes) }
    ensures finder_room { IfOk result (λ changes. HasRoomFor (F.room finder.new) changes) }
{
    state.reserve(alloc, files, moves)?;
    changes_with_room(alloc, finder, state, moves.as_slice())
}

// A reply that makes no move.
fn stays(alloc: Global, reply: Reply) -> Ready
    ensures reply { result.reply ≡ reply }
    ensures moves { result.moves ≡ [] }
    ensures changes { result.changes ≡ [] }
{
    Ready {
        reply,
        moves: Moves::new(alloc),
        changes: Changes::new(alloc),
    }
}

/// The reply that tells of a refusal, or of want of memory.
pub(crate) fn told(alloc: Global, refusal: Refusal) -> Reply
    ensures { IsOrShort result (refusals.reply_to refusal) }
{
    match refusal.reply(alloc) {
        Ok(reply) => reply,
        Err(NoMemory) => out_of_memory(),
    }
}

/// Makes the moves of a request that was prepared for this state, these files and this finder, and hands on its
/// reply. The files of every other organisation stay, and what the finder holds of it. It takes no memory and
/// can't fail.
pub fn settle<F: Finder>(
    state: &mut OrgState,
    files: &mut Files,
    ready: Ready,
    finder: &mut F,
) -> Reply
    requires room { HasRoom ready.moves state.old.objects state.old.groups state.old.shelves (spare_of files.old state.old.name) }
    requires conditions { MeetsConditions (after_moves ready.moves (state_in state.old)) }
    requires files { MeetsFileConditions (after_all state.old.name ready.moves (full_in state.old files.old)) }
    requires exact { IsExact (F.held finder.old) state.old.name (objects_of (state_in state.old)) }
    requires changes { AreChanges (F.held finder.old) state.old.name (is_some (state_in state.old)) ready.moves ready.changes }
    requires finder_room { HasRoomFor (F.room finder.old) ready.changes }
    ensures reply { result ≡ ready.reply }
    ensures name { state.new.name ≡ state.old.name }
    ensures state { full_in state.new files.new ≡ after_all state.old.name ready.moves (full_in state.old files.old) }
    ensures files { MeetsFileConditions (full_in state.new files.new) }
    ensures others { OthersStay state.old.name files.old files.new }
    ensures held { F.held finder.new ≡ option_map (after_changes ready.changes) (F.held finder.old) }
    ensures exact { IsExact (F.held finder.new) state.new.name (objects_of (state_in state.new)) }
    ensures held_of_others { HoldsOthers state.old.name (F.held finder.old) (F.held finder.new) }
    ensures finder_looks { F.looks finder.new ≡ F.looks finder.old }
{
    let Ready {
        reply,
        moves,
        changes,
    } = ready;
    make_changes(finder, changes);
    state.make_all(files, moves);
    reply
}

/// Serves one request: `prepare` with this hint, and `settle`. A reply other than 200 and 201 leaves state and
/// files as they were, and what the finder holds; and each leaves the files of every other organisation. The finder is
/// exact for the state afterwards, too, and holds of every other organisation what it held.
pub fn serve<F: Finder, L: Ledger>(
    alloc: Global,
    state: &mut OrgState,
    files: &mut Files,
    request: &Request,
    hint: Option<Solved>,
    finder: &mut F,
    steps: &mut Steps<L>,
) -> Reply
    requires of { org_of request.now ≡ Some state.old.name }
    requires files { MeetsFileConditions (full_in state.old files.old) }
    requires exact { IsExact (F.held finder.old) state.old.name (objects_of (state_in state.old)) }
    ensures name { state.new.name ≡ state.old.name }
    ensures reply { result ≡ answer (mark_of result) request.now (full_in state.old files.old) }
    ensures lawful { IsLawful (mark_of result) request.now (full_in state.old files.old) }
    ensures state { full_in state.new files.new ≡ after (mark_of result) request.now (full_in state.old files.old) }
    ensures files { MeetsFileConditions (full_in state.new files.new) }
    ensures others { OthersStay state.old.name files.old files.new }
    ensures stays { ¬ (IsGood result.status) → full_in state.new files.new ≡ full_in state.old files.old }
    ensures held { ¬ (IsGood result.status) → F.held finder.new ≡ F.held finder.old }
    // 403 exactly where nothing before refuses, and a permission that is needed isn't permitted.
    ensures permitted { IsPermittedExactly request.now result (full_in state.old files.old) }
    ensures exact { IsExact (F.held finder.new) state.new.name (objects_of (state_in state.new)) }
    ensures held_of_others { HoldsOthers state.old.name (F.held finder.old) (F.held finder.new) }
    ensures finder_looks { F.looks finder.new ≡ F.looks finder.old }
    ensures looks { Looks (F.looks finder.old) result request.now (full_in state.old files.old) steps.old steps.new }
{
    let ready = prepare(alloc, state, files, request, hint, finder, steps);
    settle(state, files, ready, finder)
}

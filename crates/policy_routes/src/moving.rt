//! How the moves of an operation are put together: one move, and behind it another where there is one.

ghost use Rattle.std.specs.Prelude.{◌≡◌, [], ◌∷◌, ◌++◌, IfOk, OnOk, cond};
ghost use Rattle.object_store.specs.Objects.{key};
ghost use Rattle.org_core.specs.Contexts.{seen};
ghost use Rattle.org_core.specs.Creating.{created_list as spec_created_list};
ghost use Rattle.org_core.specs.declared.moves.Move.TheVariants as move;
ghost use Rattle.policy_routes.specs.Moving as spec;

use access_lists::Container;
use doc_tree::{Kind, NoMemory, Text};
use org_core::{Context, Move, Moves, Prepared, add_both, created_list, key_of};
use org_requests::Reply;
use std::alloc::Global;

/// Puts a move behind others, and behind it another where there is one.
pub(crate) fn add(moves: &mut Moves, one: Move, other: Option<Move>) -> Result<(), NoMemory>
    ensures { OnOk result (moves.new ≡ moves.old ++ one ∷ spec.if_there other) }
{
    match other {
        Some(other) => add_both(moves, one, other),
        None => moves.push(one),
    }
}

/// A move, and behind it another where there is one.
pub(crate) fn followed(alloc: Global, one: Move, other: Option<Move>) -> Result<Moves, NoMemory>
    ensures { IfOk result (λ moves. moves ≡ one ∷ spec.if_there other) }
{
    let mut moves = Moves::new(alloc);
    add(&mut moves, one, other).and(Ok(moves))
}

/// A reply with a move, and behind it another where there is one.
pub(crate) fn prepared(
    alloc: Global,
    reply: Reply,
    one: Move,
    other: Option<Move>,
) -> Result<Prepared, NoMemory>
    ensures reply { IfOk result (λ p. p.reply ≡ reply) }
    ensures moves { IfOk result (λ p. p.moves ≡ one ∷ spec.if_there other) }
{
    Ok(Prepared {
        reply,
        moves: followed(alloc, one, other)?,
    })
}

/// The list that comes with the first thing of a name, where none is there yet.
pub(crate) fn list_of_first(
    alloc: Global,
    context: Context<'_>,
    is_there: bool,
    kind: Kind,
    name: &Text,
    container: Container,
) -> Result<Option<Move>, NoMemory>
    ensures { IfOk result (λ o. spec.if_there o ≡ cond is_there [] (move.PutList (key kind name.now) (spec_created_list container (seen context.entry)) ∷ [])) }
{
    if is_there {
        return Ok(None);
    }
    let key = key_of(alloc, kind, name.as_str())?;
    let list = created_list(alloc, context, container)?;
    Ok(Some(Move::PutList(key, list)))
}

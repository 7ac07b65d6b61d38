//! What is created in a container, and the access list that it gets.

ghost use Rattle.std.specs.Prelude.{◌≡◌, ◌++◌, ◌∷◌, [], Ok, IfOk, OnOk};
ghost use Rattle.access_lists.specs.Acls.{with_creator};
ghost use Rattle.access_lists.specs.Starting.{starting_list};
ghost use Rattle.org_core.specs.Contexts.{seen};
ghost use Rattle.org_core.specs.Creating as spec;
ghost use Rattle.org_core.specs.Outcomes.{IsAsDecided};

use crate::contexts::Context;
use crate::moves::{Move, Moves};
use crate::needs::key_of;
use crate::rules::Prepared;
use crate::stored::Stored;
use access_lists::{Acl, AclAt, Container, starting_list};
use doc_tree::{Kind, NoMemory, Text};
use object_store::Key;
use org_requests::created;
use std::alloc::Global;

/// The access list of what the caller creates in a container: the container's list, with the caller as
/// an actor of all five permissions.
pub fn created_list(
    alloc: Global,
    context: Context<'_>,
    container: Container,
) -> Result<Acl, NoMemory>
    ensures { IfOk result (λ list. list ≡ spec.created_list container (seen context.entry)) }
{
    let key = key_of(alloc, Kind::Container, container.name())?;
    match context.state.acl(&key) {
        Some(list) => created_over(alloc, list, context.caller),
        None => created_first(alloc, container, context.caller),
    }
}

// A list with who creates, if anybody does, as an actor of all five permissions.
fn created_over(alloc: Global, list: AclAt<'_>, caller: &Option<Text>) -> Result<Acl, NoMemory>
    ensures { IfOk result (λ made. made ≡ with_creator caller.now list.entry) }
{
    match caller {
        Some(caller) => list.with_actor(alloc, caller),
        None => list.copy(alloc),
    }
}

// The same of the list with which a container starts.
fn created_first(
    alloc: Global,
    container: Container,
    caller: &Option<Text>,
) -> Result<Acl, NoMemory>
    ensures { IfOk result (λ made. made ≡ with_creator caller.now (starting_list container)) }
{
    let list = starting_list(alloc, container)?;
    let made = created_over(alloc, AclAt::of(&list), caller);
    drop(list);
    made
}

/// Adds the moves by which an object comes into a container, with an access list of its own.
pub fn add_with_list(
    alloc: Global,
    context: Context<'_>,
    container: Container,
    key: Key,
    object: Stored,
    moves: &mut Moves,
) -> Result<(), NoMemory>
    ensures { OnOk result (moves.new ≡ moves.old ++ spec.with_list container (seen context.entry) key.kind key.name object) }
{
    match list_comes(alloc, context, container, &key) {
        Ok(list) => add_both(moves, Move::Put(key, object), list),
        Err(fault) => {
            drop(object);
            Err(fault)
        }
    }
}

/// The move by which the list comes that an object of this key has when it is created.
fn list_comes(
    alloc: Global,
    context: Context<'_>,
    container: Container,
    key: &Key,
) -> Result<Move, NoMemory>
    ensures { IfOk result (λ one. one ≡ Move.PutList key.now (spec.created_list container (seen context.entry))) }
{
    let key = key.copy(alloc)?;
    let list = created_list(alloc, context, container)?;
    Ok(Move::PutList(key, list))
}

/// Adds two moves, one behind the other.
pub fn add_both(moves: &mut Moves, one: Move, other: Move) -> Result<(), NoMemory>
    ensures { OnOk result (moves.new ≡ moves.old ++ one ∷ other ∷ []) }
{
    match moves.push(one) {
        Ok(()) => moves.push(other),
        Err(fault) => {
            drop(other);
            Err(fault)
        }
    }
}

/// Something is created by these moves: 201 with its path.
pub fn create_by(alloc: Global, path: Text, moves: Moves) -> Result<Prepared, NoMemory>
    ensures { IfOk result (λ p. IsAsDecided (Ok p) (spec.created_by path moves).answer) }
{
    let reply = created(alloc, path)?;
    Ok(Prepared { reply, moves })
}

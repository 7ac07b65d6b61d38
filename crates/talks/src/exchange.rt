//! One request, and the reply to it.
ghost use Rattle.std.specs.Prelude.{◌≡◌, ◌≤◌, ℕ, List, Option};
ghost use Rattle.std.specs.Io.KnownBytes.{append_known};
ghost use Rattle.peer_wire.specs.Asks.{ask_text};
ghost use Rattle.peer_wire.specs.declared.asks.Whom as peer;
ghost use Rattle.talks.specs.Talk.{Line};
ghost use Rattle.talks.specs.Exchanges.{line, Carried, IsExchanged, IsWanted, IsWantedOr, HasHaltCause};

use crate::halts::Halt;
use crate::link_ends::{receive, send};
use doc_tree::Bytes;
use outside_link::Link;
use peer_wire::{Ask, Reply, ReplyFault, Room, Whom, WriteFault};
use std::alloc::Global;

/// A request, with the status and the body of the reply to it.
#[derive(Drop)]
pub struct Got {
    pub ask: Ask,
    pub status: u16,
    pub body: Bytes,
}

/// Writes a request and reads its reply, which is handed on where its status is 200 or 201.
///
/// Any other status is [`Halt::Answered`]; what the server sends and is no reply, or its end, is [`Halt::Unanswered`].
/// A fault of the link comes only where its count rose.
pub fn want<L: Link>(
    alloc: Global,
    whom: &Whom,
    ask: Ask,
    link: &mut L,
    room: &mut Room,
) -> Result<Got, Halt>
    ensures wanted { IsWanted whom.now ask result (line room.old (L.left link.old) (L.gained link.old)) (line room.new (L.left link.new) (L.gained link.new)) }
    ensures input { L.input link.new ≡ L.input link.old }
    ensures cause { HasHaltCause (L.Sink.faults link.old) (L.Sink.faults link.new) result }
{
    match exchange(alloc, whom, ask, link, room) {
        Ok(got) => good(got),
        Err(halt) => Err(halt),
    }
}

/// The same, where one more status is an expected step: the answer is then `None`.
pub fn want_or<L: Link>(
    alloc: Global,
    whom: &Whom,
    expected: u16,
    ask: Ask,
    link: &mut L,
    room: &mut Room,
) -> Result<Option<Got>, Halt>
    ensures wanted { IsWantedOr whom.now expected ask result (line room.old (L.left link.old) (L.gained link.old)) (line room.new (L.left link.new) (L.gained link.new)) }
    ensures input { L.input link.new ≡ L.input link.old }
    ensures cause { HasHaltCause (L.Sink.faults link.old) (L.Sink.faults link.new) result }
{
    match exchange(alloc, whom, ask, link, room) {
        Ok(got) => good_or(got, expected),
        Err(halt) => Err(halt),
    }
}

fn good(got: Got) -> Result<Got, Halt>
    ensures wanted { (whom : peer.Whom) (old new : Line) → Carried whom got.ask got.status got.body old new → IsWanted whom got.ask result old new }
    ensures cause { (before now : ℕ) → before ≤ now → HasHaltCause before now result }
{
    if got.status == 200 || got.status == 201 {
        return Ok(got);
    }
    Err(answered(got))
}

fn good_or(got: Got, expected: u16) -> Result<Option<Got>, Halt>
    ensures wanted { (whom : peer.Whom) (old new : Line) → Carried whom got.ask got.status got.body old new → IsWantedOr whom expected got.ask result old new }
    ensures cause { (before now : ℕ) → before ≤ now → HasHaltCause before now result }
{
    if got.status == 200 || got.status == 201 {
        return Ok(Some(got));
    }
    if got.status == expected {
        drop(got);
        return Ok(None);
    }
    Err(answered(got))
}

// The status of a reply that isn't expected.
fn answered(got: Got) -> Halt
    ensures { result ≡ Halt.Answered got.status got.ask }
{
    let Got {
        ask,
        status,
        body: _,
    } = got;
    Halt::Answered(status, ask)
}

fn exchange<L: Link>(
    alloc: Global,
    whom: &Whom,
    ask: Ask,
    link: &mut L,
    room: &mut Room,
) -> Result<Got, Halt>
    ensures exchanged { IsExchanged whom.now ask result (line room.old (L.left link.old) (L.gained link.old)) (line room.new (L.left link.new) (L.gained link.new)) }
    ensures input { L.input link.new ≡ L.input link.old }
    ensures cause { HasHaltCause (L.Sink.faults link.old) (L.Sink.faults link.new) result }
{
    match send(alloc, whom, &ask, link) {
        Ok(()) => hear(alloc, ask, link, room),
        Err(WriteFault::Failed) => Err(Halt::WriteFault),
        Err(WriteFault::NoMemory) => Err(Halt::NoMemory),
    }
}

// Reads the reply to a request that was written.
fn hear<L: Link>(alloc: Global, ask: Ask, link: &mut L, room: &mut Room) -> Result<Got, Halt>
    ensures heard { (whom : peer.Whom) (before : Option (List ℕ)) → L.gained link.old ≡ append_known before (ask_text whom ask)
        → IsExchanged whom ask result (line room.old (L.left link.old) before) (line room.new (L.left link.new) (L.gained link.new)) }
    ensures input { L.input link.new ≡ L.input link.old }
    ensures cause { HasHaltCause (L.Sink.faults link.old) (L.Sink.faults link.new) result }
{
    match receive(alloc, link, room) {
        Ok(Reply { status, body, .. }) => Ok(Got { ask, status, body }),
        Err(ReplyFault::ReadFault) => Err(Halt::ReadFault),
        Err(ReplyFault::NotAReply) => Err(Halt::Unanswered(ask)),
        Err(ReplyFault::NoMemory) => Err(Halt::NoMemory),
    }
}

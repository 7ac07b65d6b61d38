//! The loop that answers a stream of messages, one after another.

ghost use Rattle.std.specs.Prelude.{◌≡◌, ◌≤◌, ◌++◌, [], OnOk, OnErr, IfErr, MatchResult};
ghost use Rattle.outside_core.specs.Failed.{HasCause};
ghost use Rattle.outside_core.specs.Sink.{GainsPart, PassesOn};
ghost use Rattle.org_requests.specs.Requests.{IsRead};
ghost use Rattle.org_requests.specs.declared.replies.Reply as reply;
ghost use Rattle.org_requests.specs.declared.requests.Request as asked;
ghost use Rattle.http_wire.specs.Replies.{reply_text};
ghost use Rattle.http_wire.specs.Room.{stream};
ghost use Rattle.answer_stream.specs.Answering.{AreAnswered};
ghost use Rattle.answer_stream.specs.Ends.{EndsStream, HasFaultCause};
ghost use Rattle.answer_stream.specs.Turns.{TakesTurn, EndsTurn, EndsLoop, NothingWaits};

use crate::answering::Answering;
use crate::ends::End;
use doc_tree::Steps;
use http_wire::{Room, WireFault, buffer_reply, read_message};
use org_requests::Request;
use outside_core::{Buffered, Failed, Sink, Source};
use std::alloc::Global;
use std::sync::ledger::Ledger;

/// Answers the messages of a stream until no further one can be answered, and writes all replies. These wait in the
/// buffer, and go out before a read that may wait for a peer, and at the end whatever ended the stream.
pub fn answer_all<I: Source, U: Sink, A: Answering, L: Ledger>(
    alloc: Global,
    input: &mut I,
    output: &mut U,
    buffer: &mut Buffered,
    room: &mut Room,
    answerer: &mut A,
    steps: &mut Steps<L>,
) -> End
    requires room { room.old ≡ record { held = []; place = 0 } }
    requires buffer { buffer.old.waiting ≡ [] }
    ensures end { EndsStream result (AreAnswered A.answers answerer.old answerer.new)
        (I.left input.old) (I.left input.new) (U.gained output.old) (U.gained output.new) }
    ensures cause { HasFaultCause result (I.faults input.old) (I.faults input.new) (U.faults output.old) (U.faults output.new) }
    ensures read { I.faults input.old ≤ I.faults input.new }
    ensures written { U.faults output.old ≤ U.faults output.new }
    ensures emptied { buffer.new.waiting ≡ [] }
{
    let end = answer_messages(alloc, input, output, buffer, room, answerer, steps);
    match buffer.empty(output) {
        Ok(()) => end,
        Err(Failed) => End::WriteFault,
    }
}

// Answers the messages until no further one can be answered. Some last replies may still wait.
fn answer_messages<I: Source, U: Sink, A: Answering, L: Ledger>(
    alloc: Global,
    input: &mut I,
    output: &mut U,
    buffer: &mut Buffered,
    room: &mut Room,
    answerer: &mut A,
    steps: &mut Steps<L>,
) -> End
    requires room { room.old ≡ record { held = []; place = 0 } }
    requires buffer { buffer.old.waiting ≡ [] }
    ensures end { EndsLoop A.answers result answerer.old answerer.new (I.left input.old) (I.left input.new)
        (U.gained output.old) (U.gained output.new) buffer.new.waiting }
    ensures cause { HasFaultCause result (I.faults input.old) (I.faults input.new) (U.faults output.old) (U.faults output.new) }
    ensures read { I.faults input.old ≤ I.faults input.new }
    ensures written { U.faults output.old ≤ U.faults output.new }
{
    'messages: loop {
        match empty_before_read(room, buffer, output) {
            Ok(()) => {}
            Err(Failed) => return End::WriteFault,
        }
        match answer_next(alloc, input, output, buffer, room, answerer, steps) {
            Ok(()) => {}
            Err(end) => return end,
        }
    }
}

// Whoever waits for a reply before he sends the next message gets it.
fn empty_before_read<U: Sink>(
    room: &Room,
    buffer: &mut Buffered,
    output: &mut U,
) -> Result<(), Failed>
    ensures ok { OnOk result (PassesOn (U.gained output.old) (U.gained output.new) buffer.old.waiting buffer.new.waiting) }
    ensures failed { OnErr result (GainsPart (U.gained output.old) (U.gained output.new) buffer.old.waiting) }
    ensures dropped { OnErr result (buffer.new.waiting ≡ []) }
    ensures emptied { NothingWaits room.now buffer.new.waiting }
    ensures cause { HasCause (U.faults output.old) (U.faults output.new) result }
{
    if room.holds_message() {
        return Ok(());
    }
    buffer.empty(output)
}

// Takes one message, has its request answered and writes the reply. Here alone the input is read, so whoever calls this
// has to see that no reply waits meanwhile.
fn answer_next<I: Source, U: Sink, A: Answering, L: Ledger>(
    alloc: Global,
    input: &mut I,
    output: &mut U,
    buffer: &mut Buffered,
    room: &mut Room,
    answerer: &mut A,
    steps: &mut Steps<L>,
) -> Result<(), End>
    requires { NothingWaits room.old buffer.old.waiting }
    ensures turn { OnOk result (TakesTurn A.answers room.old.place room.new.place (stream room.old (I.left input.old)) (stream room.new (I.left input.new))
        answerer.old answerer.new (U.gained output.old) (U.gained output.new) buffer.old.waiting buffer.new.waiting) }
    ensures end { IfErr result (λ end. EndsTurn A.answers end room.old.place (stream room.old (I.left input.old)) (I.left input.new)
        answerer.old answerer.new (U.gained output.old) (U.gained output.new) buffer.old.waiting buffer.new.waiting) }
    ensures cause { IfErr result (λ end. HasFaultCause end (I.faults input.old) (I.faults input.new) (U.faults output.old) (U.faults output.new)) }
    ensures read { I.faults input.old ≤ I.faults input.new }
    ensures written { U.faults output.old ≤ U.faults output.new }
{
    match read_message(alloc, input, room) {
        Ok(Some(request)) => answer_and_write(alloc, output, buffer, answerer, request, steps),
        Ok(None) => Err(End::Closed),
        Err(WireFault::ReadFault) => Err(End::ReadFault),
        Err(WireFault::NotAMessage { place }) => Err(End::NotAMessage { place }),
    }
}

fn answer_and_write<U: Sink, A: Answering, L: Ledger>(
    alloc: Global,
    output: &mut U,
    buffer: &mut Buffered,
    answerer: &mut A,
    request: Request,
    steps: &mut Steps<L>,
) -> Result<(), End>
    ensures answered { (spelled : asked.Request) → IsRead request spelled → (reply : reply.Reply)
        × A.answers answerer.old spelled reply answerer.new
        × MatchResult result
        (λ _. PassesOn (U.gained output.old) (U.gained output.new) (buffer.old.waiting ++ reply_text reply) buffer.new.waiting)
        (λ _. GainsPart (U.gained output.old) (U.gained output.new) (buffer.old.waiting ++ reply_text reply)) }
    ensures fault { IfErr result (λ end. end ≡ End.WriteFault) }
    ensures dropped { OnErr result (buffer.new.waiting ≡ []) }
    ensures cause { HasCause (U.faults output.old) (U.faults output.new) result }
{
    let reply = answerer.answer(alloc, request, steps);
    match buffer_reply(buffer, output, &reply) {
        Ok(()) => Ok(()),
        Err(Failed) => Err(End::WriteFault),
    }
}

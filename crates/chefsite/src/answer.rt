//! The command `answer`: it answers the messages of its input, one after another, to its end.

ghost use Rattle.std.specs.Prelude.{◌≡◌, ◌≤◌, []};
ghost use Rattle.chefsite.specs.Endings as endings;
ghost use Rattle.chefsite.specs.Endings.{Says, HasStatusCause, TellsRest, IsComplete};

use crate::site::Site;
use crate::statuses::Status;
use answer_stream::{End, answer_all, take_memory};
use doc_tree::{NoMemory, Steps};
use http_wire::Room;
use outside_core::{Buffered, Sink, Source};
use std::alloc::Global;
use std::hash::RandomState;
use std::sync::ledger::Ledger;

/// Answers all requests of the input. Its own memory is taken before anything is read.
pub(crate) fn answer<I: Source, U: Sink, L: Ledger>(
    alloc: Global,
    input: &mut I,
    output: &mut U,
    hasher: RandomState,
    steps: &mut Steps<L>,
) -> Status
    ensures says { Says result (I.left input.old) (I.left input.new) (U.gained output.old) (U.gained output.new) }
    ensures cause { HasStatusCause result (I.faults input.old) (I.faults input.new) (U.faults output.old) (U.faults output.new) }
    ensures rest { TellsRest result (I.left input.old) }
    ensures complete { IsComplete result (I.left input.old) (I.faults input.old) (I.faults input.new) (U.faults output.old) (U.faults output.new) }
    ensures read { I.faults input.old ≤ I.faults input.new }
    ensures written { U.faults output.old ≤ U.faults output.new }
{
    match take_memory(alloc) {
        Ok((room, buffer)) => answer_in(alloc, input, output, room, buffer, hasher, steps),
        Err(NoMemory) => Status::NoMemory,
    }
}

fn answer_in<I: Source, U: Sink, L: Ledger>(
    alloc: Global,
    input: &mut I,
    output: &mut U,
    room: Room,
    buffer: Buffered,
    hasher: RandomState,
    steps: &mut Steps<L>,
) -> Status
    requires room { room ≡ record { held = []; place = 0 } }
    requires buffer { buffer.waiting ≡ [] }
    ensures says { Says result (I.left input.old) (I.left input.new) (U.gained output.old) (U.gained output.new) }
    ensures cause { HasStatusCause result (I.faults input.old) (I.faults input.new) (U.faults output.old) (U.faults output.new) }
    ensures read { I.faults input.old ≤ I.faults input.new }
    ensures written { U.faults output.old ≤ U.faults output.new }
{
    let mut room = room;
    let mut buffer = buffer;
    let mut site = Site::new(alloc, hasher);
    let end = answer_all(
        alloc,
        input,
        output,
        &mut buffer,
        &mut room,
        &mut site,
        steps,
    );
    status_of(end)
}

fn status_of(end: End) -> Status
    ensures { result ≡ endings.status_of end }
{
    match end {
        End::Closed => Status::Done,
        End::ReadFault => Status::ReadFault,
        End::WriteFault => Status::WriteFault,
        End::NotAMessage { place } => Status::NotAMessage { place },
    }
}

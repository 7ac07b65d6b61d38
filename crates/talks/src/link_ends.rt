//! A request written to a link, and a reply read from it.
ghost use Rattle.std.specs.Prelude.{◌≡◌, ℕ, List, IfOk, IfSome, OnOk, OnErr};
ghost use Rattle.std.specs.Io.KnownBytes.{append_known, prepend_known};
ghost use Rattle.outside_core.specs.Sink.{GainsPart};
ghost use Rattle.peer_wire.specs.Answer.{Answer, NoReply, print_answer};
ghost use Rattle.peer_wire.specs.Asks.{ask_text};
ghost use Rattle.peer_wire.specs.Replies.{IsReadAs};
ghost use Rattle.peer_wire.specs.Room.{stream};
ghost use Rattle.http_wire.specs.Splits.{LosesFront};
ghost use Rattle.peer_wire.specs.Faults.{OnFailed, OnNotAReply, OnWantOfMemory, HasReadCause, HasWriteCause};

use outside_core::{Sink, Source};
use outside_link::Link;
use peer_wire::{Ask, Reply, ReplyFault, Room, Whom, WriteFault, read_reply, write_request};
use std::alloc::Global;

pub(crate) fn send<L: Link>(
    alloc: Global,
    whom: &Whom,
    ask: &Ask,
    link: &mut L,
) -> Result<(), WriteFault>
    ensures ok { OnOk result (L.gained link.new ≡ append_known (L.gained link.old) (ask_text whom.now ask.now)) }
    ensures failed { OnFailed result (GainsPart (L.gained link.old) (L.gained link.new) (ask_text whom.now ask.now)) }
    ensures memory { OnWantOfMemory result (L.gained link.new ≡ L.gained link.old) }
    ensures left { L.left link.new ≡ L.left link.old }
    ensures input { L.input link.new ≡ L.input link.old }
    ensures cause { HasWriteCause (L.Sink.faults link.old) (L.Sink.faults link.new) result }
{
    write_request(alloc, link, ask, whom)
}

pub(crate) fn receive<L: Link>(
    alloc: Global,
    link: &mut L,
    room: &mut Room,
) -> Result<Reply, ReplyFault>
    ensures reply { IfOk result (λ r. (a : Answer) × IsReadAs r a
        × (stream room.old (L.left link.old) ≡ prepend_known (print_answer a) (stream room.new (L.left link.new)))) }
    ensures none { OnNotAReply result (IfSome (stream room.old (L.left link.old)) NoReply) }
    ensures lost { OnErr result (LosesFront (stream room.old (L.left link.old)) (stream room.new (L.left link.new))) }
    ensures gained { L.gained link.new ≡ L.gained link.old }
    ensures input { L.input link.new ≡ L.input link.old }
    ensures cause { HasReadCause (L.Sink.faults link.old) (L.Sink.faults link.new) result }
{
    read_reply(alloc, link, room)
}

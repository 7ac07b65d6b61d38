//! The next reply of a stream.

ghost use Rattle.std.specs.Prelude.{◌≡◌, ℕ, List, IsErr, IfOk, IfSome, IsSomeAnd, OnErr};
ghost use Rattle.std.specs.Io.KnownBytes.{prepend_known};
ghost use Rattle.httparse.specs.Grammar.{ResponseHead};
ghost use Rattle.http_wire.specs.Splits.{LosesFront};
ghost use Rattle.peer_wire.specs.Answer.{Answer, NoReply, print_answer};
ghost use Rattle.peer_wire.specs.Frames.{IsFrame};
ghost use Rattle.peer_wire.specs.Replies.{IsReadAs};
ghost use Rattle.peer_wire.specs.Room.{stream};
ghost use Rattle.peer_wire.specs.Faults.{OnNotAReply, HasReadCause};

use crate::Room;
use crate::bodies::read_body;
use crate::faults::ReplyFault;
use crate::heads::{Frame, begin_reply};
use doc_tree::Bytes;
use org_requests::Reply;
use outside_core::Source;
use std::alloc::Global;

/// Reads the next reply of a stream to its end.
///
/// A head has at most 16,384 bytes and 64 headers, no `Transfer-Encoding` and one `Content-Length`,
/// of 1 to 20 digits and up to 67,108,864. [`ReplyFault::ReadFault`] comes only where the source
/// counted a fault, and [`ReplyFault::NotAReply`] only where what is left begins no whole reply, as
/// where nothing is left; where that is so, no reply is read. After a fault some front of what was
/// left may be gone.
pub fn read_reply<S: Source>(
    alloc: Global,
    source: &mut S,
    room: &mut Room,
) -> Result<Reply, ReplyFault>
    ensures reply { IfOk result (λ r. (a : Answer) × IsReadAs r a
        × (stream room.old (S.left source.old) ≡ prepend_known (print_answer a) (stream room.new (S.left source.new)))) }
    ensures none { OnNotAReply result (IfSome (stream room.old (S.left source.old)) NoReply) }
    ensures exactly { IsSomeAnd (stream room.old (S.left source.old)) NoReply → IsErr result }
    ensures lost { OnErr result (LosesFront (stream room.old (S.left source.old)) (stream room.new (S.left source.new))) }
    ensures aside { S.aside source.new ≡ S.aside source.old }
    ensures cause { HasReadCause (S.faults source.old) (S.faults source.new) result }
{
    let frame = begin_reply(room, source)?;
    end_reply(alloc, source, room, frame)
}

fn end_reply<S: Source>(
    alloc: Global,
    source: &mut S,
    room: &mut Room,
    frame: Frame,
) -> Result<Reply, ReplyFault>
    requires { (h : ResponseHead) × (tail : List ℕ) × IsFrame room.old frame h tail }
    ensures reply { IfOk result (λ r. (a : Answer) × IsReadAs r a
        × (stream room.old (S.left source.old) ≡ prepend_known (print_answer a) (stream room.new (S.left source.new)))) }
    ensures none { OnNotAReply result (IfSome (stream room.old (S.left source.old)) NoReply) }
    ensures lost { OnErr result (LosesFront (stream room.old (S.left source.old)) (stream room.new (S.left source.new))) }
    ensures aside { S.aside source.new ≡ S.aside source.old }
    ensures cause { HasReadCause (S.faults source.old) (S.faults source.new) result }
{
    room.drop_front(frame.len);
    let body = read_body(alloc, room, source, frame.size)?;
    Ok(Reply {
        status: frame.status,
        octets: frame.octets,
        body: Bytes::of(body),
    })
}

//! The body of a reply, read to its end.

ghost use Rattle.std.specs.Prelude.{◌≡◌, ◌<◌, ◌++◌, IfOk, IfSome, OnErr, length};
ghost use Rattle.std.specs.Io.KnownBytes.{prepend_known};
ghost use Rattle.peer_wire.specs.Room.{stream};
ghost use Rattle.peer_wire.specs.Faults.{OnNotAReply, HasReadCause};
ghost use Rattle.http_wire.specs.Splits.{LosesFront};

use crate::Room;
use crate::faults::ReplyFault;
use outside_core::Source;
use std::alloc::Global;

/// Reads a body of this many bytes.
pub(crate) fn read_body<S: Source>(
    alloc: Global,
    room: &mut Room,
    source: &mut S,
    size: usize,
) -> Result<Vec<u8>, ReplyFault>
    ensures body { IfOk result (λ body. (length body.items ≡ size)
        × (stream room.old (S.left source.old) ≡ prepend_known body.items (stream room.new (S.left source.new)))) }
    ensures none { OnNotAReply result (IfSome (stream room.old (S.left source.old)) (λ bytes. length bytes < size)) }
    ensures lost { OnErr result (LosesFront (stream room.old (S.left source.old)) (stream room.new (S.left source.new))) }
    ensures aside { S.aside source.new ≡ S.aside source.old }
    ensures cause { HasReadCause (S.faults source.old) (S.faults source.new) result }
{
    let mut body = match Vec::with_capacity(alloc, size) {
        Ok(body) => body,
        Err(_) => return Err(ReplyFault::NoMemory),
    };
    let mut missing = size;
    'more: while missing > 0 {
        if !room.has_more(source)? {
            return Err(ReplyFault::NotAReply);
        }
        let count = missing.min(room.held().len());
        extend(&mut body, &room.held()[..count])?;
        room.drop_front(count);
        missing -= count;
    }
    Ok(body)
}

fn extend(body: &mut Vec<u8>, piece: &[u8]) -> Result<(), ReplyFault>
    ensures ok { IfOk result (λ _. body.new.items ≡ body.old.items ++ piece.now) }
    ensures fault { OnErr result (result ≡ Err ReplyFault.NoMemory) }
{
    match body.extend_from_slice(piece) {
        Ok(()) => Ok(()),
        Err(_) => Err(ReplyFault::NoMemory),
    }
}

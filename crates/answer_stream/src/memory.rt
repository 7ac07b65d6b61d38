//! The memory of a stream, all of which is taken before anything is read.

ghost use Rattle.std.specs.Prelude.{◌≡◌, [], IfOk};

use doc_tree::NoMemory;
use http_wire::Room;
use outside_core::Buffered;
use std::alloc::Global;

/// How many bytes of replies wait before they are written.
const REPLIES: usize = 65_536;

/// Room for the bytes that are read of a stream, and a buffer for the replies to it.
pub fn take_memory(alloc: Global) -> Result<(Room, Buffered), NoMemory>
    ensures room { IfOk result (λ memory. memory.0 ≡ record { held = []; place = 0 }) }
    ensures buffer { IfOk result (λ memory. memory.1.waiting ≡ []) }
{
    let room = Room::take(alloc)?;
    Ok((room, Buffered::take(alloc, REPLIES)?))
}

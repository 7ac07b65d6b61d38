//! The body of a message, read to its end: what is looked at is kept.
ghost use Rattle.std.specs.Prelude.{◌≡◌, ℕ, ◌+◌, ◌-◌, ◌<◌, ◌≤◌, ◌++◌, List, [], IsTrue, IfOk, IfSome, OnErr, min, length, take, drop};
ghost use Rattle.std.specs.Io.KnownBytes.{prepend_known};
ghost use Rattle.http_routes.specs.declared.bodies.BodyForm.{BodyForm as Form};
ghost use Rattle.http_wire.specs.Bodies.{IsBody, is_kept};
ghost use Rattle.http_wire.specs.Room.{stream};
ghost use Rattle.http_wire.specs.Splits.{LosesFront};
ghost use Rattle.http_wire.specs.Faults.{OnNotAMessage, OnReadFault, HasReadCause};

use crate::faults::WireFault;
use crate::room::Room;
use http_routes::BodyForm;
use outside_core::Source;
use std::alloc::Global;

/// The largest body that is kept, in bytes. A larger one is read and dropped.
const LARGEST_KEPT: usize = 4_194_304;

/// The body of a message that was read to its end.
#[derive(Drop)]
pub(crate) enum KeptBody {
    Whole(Vec<u8>),
    /// It isn't looked at.
    Skipped,
    /// It is larger than what is kept.
    TooLong,
    /// There was no memory for it.
    NoMemory,
}

/// Reads a body of this form and of this many bytes to its end. It takes memory only for what is
/// looked at.
pub(crate) fn read_body<S: Source>(
    alloc: Global,
    room: &mut Room,
    source: &mut S,
    form: BodyForm,
    size: usize,
) -> Result<KeptBody, WireFault>
    ensures body { IfOk result (λ body. (bytes : List ℕ) × (length bytes ≡ size) × IsBody form size bytes body
        × (stream room.old (S.left source.old) ≡ prepend_known bytes (stream room.new (S.left source.new)))) }
    ensures none { OnNotAMessage result (λ place. (place ≡ room.old.place)
        × IfSome (stream room.old (S.left source.old)) (λ bytes. length bytes < size)) }
    ensures partial { OnReadFault result ((taken : List ℕ) × (length taken < size)
        × (stream room.old (S.left source.old) ≡ prepend_known taken (S.left source.new))) }
    ensures lost { OnErr result (LosesFront (stream room.old (S.left source.old)) (stream room.new (S.left source.new))) }
    ensures place { room.new.place ≡ room.old.place }
    ensures aside { S.aside source.new ≡ S.aside source.old }
    ensures cause { HasReadCause (S.faults source.old) (S.faults source.new) result }
{
    let mut body = begin(alloc, form, size);
    let mut missing = size;
    'more: while missing > 0 {
        if !room.has_more(source)? {
            return Err(room.no_message());
        }
        let count = missing.min(room.held().len());
        body = body.and(&room.held()[..count]);
        room.drop_front(count);
        missing -= count;
    }
    Ok(body)
}

// Nothing yet of a body of this form and of this many bytes.
fn begin(alloc: Global, form: BodyForm, size: usize) -> KeptBody
    ensures { IsBody form size [] result }
{
    if size > LARGEST_KEPT {
        return KeptBody::TooLong;
    }
    match form {
        BodyForm::Dropped => KeptBody::Skipped,
        BodyForm::Json | BodyForm::Raw => kept(alloc, form, size),
    }
}

fn kept(alloc: Global, form: BodyForm, size: usize) -> KeptBody
    requires size { size ≤ 4194304 }
    requires kept { IsTrue (is_kept form) }
    ensures { IsBody form size [] result }
{
    match Vec::with_capacity(alloc, size) {
        Ok(kept) => KeptBody::Whole(kept),
        Err(_) => KeptBody::NoMemory,
    }
}

impl KeptBody {
    // The body with a piece behind what is kept of it.
    fn and(self, piece: &[u8]) -> KeptBody
        ensures { (form : Form) (size : ℕ) (bytes : List ℕ) → IsBody form size bytes self → IsBody form size (bytes ++ piece.now) result }
    {
        match self {
            KeptBody::Whole(kept) => extended(kept, piece),
            KeptBody::Skipped => KeptBody::Skipped,
            KeptBody::TooLong => KeptBody::TooLong,
            KeptBody::NoMemory => KeptBody::NoMemory,
        }
    }
}

fn extended(mut kept: Vec<u8>, piece: &[u8]) -> KeptBody
    ensures { (form : Form) (size : ℕ) → size ≤ 4194304 → IsTrue (is_kept form) → IsBody form size (kept.items ++ piece.now) result }
{
    if kept.extend_from_slice(piece).is_err() {
        return KeptBody::NoMemory;
    }
    KeptBody::Whole(kept)
}

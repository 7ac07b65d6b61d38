//! What is noted of how a run ended: one line, or nothing where all was done.

ghost use Rattle.std.specs.Prelude.{◌≡◌, ◌≢◌, ℕ, ◌+◌, ◌≤◌, ◌++◌, codes, decimal, length, OnOk, OnErr};
ghost use Rattle.std.specs.Io.KnownBytes.{append_known};
ghost use Rattle.arrayvec.specs.ArrayVec.{array_vec_len};
ghost use Rattle.outside_core.specs.Failed.{HasCause};
ghost use Rattle.outside_core.specs.Sink.{GainsPart};
ghost use Rattle.chefsite.specs.Notes as spec;

use crate::named::Named;
use crate::statuses::Status;
use arrayvec::ArrayVec;
use itoa::Buffer;
use outside_core::{Failed, Sink};
use peer_wire::Ask;

/// The most bytes that the front of a line has, with some to spare.
const LINE: usize = 64;

/// Notes why a run ended, at any status but 0, with the file or the request that is named: a file as the words spell it, and a
/// request by its method and target. It takes no memory, and a write that fails changes nothing else.
pub fn note<N: Sink>(notes: &mut N, status: Status, named: &Named)
    ensures noted { spec.IsNoted status named.now (N.gained notes.old) (N.gained notes.new) (N.faults notes.old) (N.faults notes.new) }
    ensures quiet { status ≡ Status.Done → notes.new ≡ notes.old }
{
    if status == Status::Done {
        return;
    }
    let _ = write_line(notes, status, named);
}

fn write_line<N: Sink>(notes: &mut N, status: Status, named: &Named) -> Result<(), Failed>
    ensures ok { OnOk result (N.gained notes.new ≡ append_known (N.gained notes.old) (spec.line status named.now)) }
    ensures failed { OnErr result (GainsPart (N.gained notes.old) (N.gained notes.new) (spec.line status named.now)) }
    ensures cause { HasCause (N.faults notes.old) (N.faults notes.new) result }
{
    let front = front_of(status);
    match named {
        Named::Nothing => write_whole(notes, front),
        Named::File(name) => write_pieces(notes, &front, name.as_bytes(), b"\n"),
        Named::Request(request) => write_request(notes, front, request),
    }
}

// Writes a line that names nothing, at once.
fn write_whole<N: Sink>(notes: &mut N, front: ArrayVec<u8, LINE>) -> Result<(), Failed>
    requires { array_vec_len front ≤ 52 }
    ensures ok { OnOk result (N.gained notes.new ≡ append_known (N.gained notes.old) (front.items ++ codes "\n")) }
    ensures failed { OnErr result (GainsPart (N.gained notes.old) (N.gained notes.new) (front.items ++ codes "\n")) }
    ensures cause { HasCause (N.faults notes.old) (N.faults notes.new) result }
{
    let mut line = front;
    push(&mut line, b"\n");
    notes.write(&line)
}

// Writes a line that names a request.
fn write_request<N: Sink>(
    notes: &mut N,
    front: ArrayVec<u8, LINE>,
    request: &Ask,
) -> Result<(), Failed>
    requires { array_vec_len front ≤ 52 }
    ensures ok { OnOk result (N.gained notes.new ≡ append_known (N.gained notes.old) (front.items ++ spec.name_text (Named.Request request.now) ++ codes "\n")) }
    ensures failed { OnErr result (GainsPart (N.gained notes.old) (N.gained notes.new) (front.items ++ spec.name_text (Named.Request request.now) ++ codes "\n")) }
    ensures cause { HasCause (N.faults notes.old) (N.faults notes.new) result }
{
    let mut front = front;
    push(&mut front, request.verb.as_str().as_bytes());
    push(&mut front, b" ");
    write_pieces(notes, &front, request.target.as_bytes(), b"\n")
}

// Writes three pieces, one after another, as far as the first write that fails: a name may have any length.
fn write_pieces<N: Sink>(
    notes: &mut N,
    first: &[u8],
    second: &[u8],
    third: &[u8],
) -> Result<(), Failed>
    ensures ok { OnOk result (N.gained notes.new ≡ append_known (N.gained notes.old) (first.now ++ second.now ++ third.now)) }
    ensures failed { OnErr result (GainsPart (N.gained notes.old) (N.gained notes.new) (first.now ++ second.now ++ third.now)) }
    ensures cause { HasCause (N.faults notes.old) (N.faults notes.new) result }
{
    write_two(notes, first, second)?;
    notes.write(third)
}

fn write_two<N: Sink>(notes: &mut N, first: &[u8], second: &[u8]) -> Result<(), Failed>
    ensures ok { OnOk result (N.gained notes.new ≡ append_known (N.gained notes.old) (first.now ++ second.now)) }
    ensures failed { OnErr result (GainsPart (N.gained notes.old) (N.gained notes.new) (first.now ++ second.now)) }
    ensures cause { HasCause (N.faults notes.old) (N.faults notes.new) result }
{
    notes.write(first)?;
    notes.write(second)
}

// The line of a status before what it names.
fn front_of(status: Status) -> ArrayVec<u8, LINE>
    ensures items { result.items ≡ codes "chefsite: " ++ spec.note_text status }
    ensures len { array_vec_len result ≤ 52 }
{
    let mut front = ArrayVec::new();
    push(&mut front, b"chefsite: ");
    push_text(&mut front, status);
    front
}

// Appends why a run ended so.
#[tactic(auto, unfolding(crate::specs::Notes::note_text))]
fn push_text(line: &mut ArrayVec<u8, LINE>, status: Status)
    requires { array_vec_len line.old ≤ 10 }
    ensures items { line.new.items ≡ line.old.items ++ spec.note_text status }
    ensures len { array_vec_len line.new ≤ 52 }
{
    match status {
        Status::Done => {}
        Status::Usage => push(line, b"usage"),
        Status::ReadFault => push(line, b"read fault"),
        Status::WriteFault => push(line, b"write fault"),
        Status::NoMemory => push(line, b"out of memory"),
        Status::NotAMessage { place } => push_place(line, place),
        Status::BadReply => push(line, b"bad reply to "),
        Status::Refused { status } => push_answered(line, status),
        Status::BadFile => push(line, b"bad file "),
    }
}

fn push_place(line: &mut ArrayVec<u8, LINE>, place: u64)
    requires { array_vec_len line.old ≤ 10 }
    ensures items { line.new.items ≡ line.old.items ++ (codes "not a message at byte " ++ decimal place) }
    ensures len { array_vec_len line.new ≤ 52 }
{
    push(line, b"not a message at byte ");
    push(line, Buffer::new().format(place).as_bytes());
}

fn push_answered(line: &mut ArrayVec<u8, LINE>, status: u16)
    requires { array_vec_len line.old ≤ 10 }
    ensures items { line.new.items ≡ line.old.items ++ (codes "server answered " ++ decimal status ++ codes " to ") }
    ensures len { array_vec_len line.new ≤ 52 }
{
    push(line, b"server answered ");
    push(line, Buffer::new().format(status).as_bytes());
    push(line, b" to ");
}

// Appends the piece, which has room.
fn push(line: &mut ArrayVec<u8, LINE>, piece: &[u8])
    requires { array_vec_len line.old + length piece.now ≤ 64 }
    ensures items { line.new.items ≡ line.old.items ++ piece.now }
    ensures len { array_vec_len line.new ≡ array_vec_len line.old + length piece.now }
{
    let _ = line.try_extend_from_slice(piece);
}

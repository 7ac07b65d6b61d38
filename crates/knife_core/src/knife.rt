//! `knife`: one errand, from its first request to its last printed line.
ghost use Rattle.std.specs.Prelude.{◌≡◌, ◌≢◌, ℕ, ◌≤◌, List, []};
ghost use Rattle.peer_wire.specs.declared.asks.Whom as peer;
ghost use Rattle.talks.specs.Endings.{Parts};
ghost use Rattle.talks.specs.Exchanges.{HasHaltCause};
ghost use Rattle.talks.specs.Talk.{Line};
ghost use Rattle.knife_core.specs.Table.{KnifeTalk, prints};
ghost use Rattle.knife_core.specs.Ends.{on, ahead, EndSays, KnifeSays, HasLinkCause, HasReadCause, HasOutputCause};
ghost use Rattle.knife_core.specs.Unsent as spec;

use crate::files::{Unsent, sent_in};
use crate::rows::{one, run_list, send};
use doc_tree::{Bytes, NoMemory, Text};
use knife_errands::{Errand, FileKind};
use outside_core::{Disk, Failed, Sink};
use outside_link::Link;
use peer_wire::{Room, Whom};
use std::alloc::Global;
use talks::Halt;

/// How `knife` ended.
#[derive(Drop)]
pub enum KnifeEnd {
    /// All was done, and the output has the printed text.
    Done,
    /// The output failed, and counted it. It has a front of the printed text.
    OutputFault,
    /// The talk with the server halted, and nothing was printed.
    Halted(Halt),
    /// The file that the errand names couldn't be read: the disk failed, and counted it. No request was written.
    DiskFault,
    /// The file of this name isn't there, or hasn't its form. No request was written.
    BadFile(Text),
}

/// Does one errand: writes its requests to the link, each behind the replies that it needs, and prints to the output.
///
/// A file that the errand names is read and looked at before the first request is written, and so is memory taken for
/// what is read of the link. Nothing is printed before the last reply was read.
pub fn knife_run<L: Link, D: Disk, W: Sink>(
    alloc: Global,
    errand: &Errand,
    whom: &Whom,
    link: &mut L,
    disk: &mut D,
    out: &mut W,
) -> KnifeEnd
    ensures says { KnifeSays whom.now errand.now (D.files disk.old) result (on (L.left link.old) (L.gained link.old)) (on (L.left link.new) (L.gained link.new)) (W.gained out.old) (W.gained out.new) }
    ensures link { HasLinkCause (L.Sink.faults link.old) (L.Sink.faults link.new) result }
    ensures disk { HasReadCause (D.faults disk.old) (D.faults disk.new) result }
    ensures output { HasOutputCause (W.faults out.old) (W.faults out.new) result }
    ensures input { L.input link.new ≡ L.input link.old }
    ensures files { D.files disk.new ≡ D.files disk.old }
    ensures aside { W.aside out.new ≡ W.aside out.old }
{
    match Room::take(alloc) {
        Ok(mut room) => run_in(alloc, errand, whom, link, &mut room, disk, out),
        Err(NoMemory) => KnifeEnd::Halted(Halt::NoMemory),
    }
}

fn run_in<L: Link, D: Disk, W: Sink>(
    alloc: Global,
    errand: &Errand,
    whom: &Whom,
    link: &mut L,
    room: &mut Room,
    disk: &mut D,
    out: &mut W,
) -> KnifeEnd
    requires { room.old ≡ [] }
    ensures says { KnifeSays whom.now errand.now (D.files disk.old) result (on (L.left link.old) (L.gained link.old)) (on (L.left link.new) (L.gained link.new)) (W.gained out.old) (W.gained out.new) }
    ensures link { HasLinkCause (L.Sink.faults link.old) (L.Sink.faults link.new) result }
    ensures disk { HasReadCause (D.faults disk.old) (D.faults disk.new) result }
    ensures output { HasOutputCause (W.faults out.old) (W.faults out.new) result }
    ensures input { L.input link.new ≡ L.input link.old }
    ensures files { D.files disk.new ≡ D.files disk.old }
    ensures aside { W.aside out.new ≡ W.aside out.old }
{
    match errand {
        Errand::One(step) => print(one(alloc, whom, step, link, room), out),
        Errand::RunList { node, change, item } => {
            print(run_list(alloc, whom, node, *change, item, link, room), out)
        }
        Errand::FromFile(kind, file) => {
            from_file(alloc, kind, file, whom, link, room, disk, out)
        }
    }
}

fn from_file<L: Link, D: Disk, W: Sink>(
    alloc: Global,
    kind: &FileKind,
    file: &Text,
    whom: &Whom,
    link: &mut L,
    room: &mut Room,
    disk: &mut D,
    out: &mut W,
) -> KnifeEnd
    requires { room.old ≡ [] }
    ensures says { KnifeSays whom.now (Errand.FromFile kind.now file.now) (D.files disk.old) result (on (L.left link.old) (L.gained link.old)) (on (L.left link.new) (L.gained link.new)) (W.gained out.old) (W.gained out.new) }
    ensures link { HasLinkCause (L.Sink.faults link.old) (L.Sink.faults link.new) result }
    ensures disk { HasReadCause (D.faults disk.old) (D.faults disk.new) result }
    ensures output { HasOutputCause (W.faults out.old) (W.faults out.new) result }
    ensures input { L.input link.new ≡ L.input link.old }
    ensures files { D.files disk.new ≡ D.files disk.old }
    ensures aside { W.aside out.new ≡ W.aside out.old }
{
    match sent_in(alloc, whom, kind, file, disk) {
        Ok(sent) => print(send(alloc, whom, sent, link, room), out),
        Err(unsent) => unsent_end(unsent),
    }
}

// The end where nothing is sent.
fn unsent_end(unsent: Unsent) -> KnifeEnd
    ensures { result ≡ spec.unsent_end unsent }
{
    match unsent {
        Unsent::DiskFault => KnifeEnd::DiskFault,
        Unsent::NoMemory => KnifeEnd::Halted(Halt::NoMemory),
        Unsent::BadFile(name) => KnifeEnd::BadFile(name),
    }
}

// Prints what came of a talk.
fn print<W: Sink>(came: Result<Bytes, Halt>, out: &mut W) -> KnifeEnd
    ensures says { (whom : peer.Whom) (talk : KnifeTalk) (old new : Line) (more : List ℕ) → Parts whom prints talk came old (ahead more new)
        → EndSays whom talk result old new (W.gained out.old) (W.gained out.new) }
    ensures link { (before now : ℕ) → HasHaltCause before now came → HasLinkCause before now result }
    ensures disk { result ≢ KnifeEnd.DiskFault }
    ensures output { HasOutputCause (W.faults out.old) (W.faults out.new) result }
    ensures aside { W.aside out.new ≡ W.aside out.old }
{
    match came {
        Ok(bytes) => match out.write(bytes.as_slice()) {
            Ok(()) => KnifeEnd::Done,
            Err(Failed) => KnifeEnd::OutputFault,
        },
        Err(halt) => KnifeEnd::Halted(halt),
    }
}

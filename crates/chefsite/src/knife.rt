//! The command `knife`: one errand with a server, over a connection of its own.

ghost use Rattle.std.specs.Prelude.{◌≡◌};
ghost use Rattle.command_words.specs.Reading.{knife_told};
ghost use Rattle.knife_errands.specs.Words.{errand_in};
ghost use Rattle.chefsite.specs.Knifing as spec;
ghost use Rattle.chefsite.specs.Knifing.{Asked, Comes};

use crate::ended::Ended;
use crate::makers::Makers;
use crate::named::Named;
use crate::statuses::Status;
use command_words::KnifeWords;
use knife_core::{KnifeEnd, knife_run};
use knife_errands::{Errand, KnifeFault, read_words};
use outside_core::{Disk, Sink};
use outside_keeper::OpenFault;
use peer_wire::Whom;
use std::alloc::Global;
use talks::Halt;

/// Does the errand that the words spell, and prints what comes of it. No connection is made where they spell none.
pub(crate) fn knife<U: Sink, F: Disk, M: Makers>(
    alloc: Global,
    told: KnifeWords,
    output: &mut U,
    files: &mut F,
    makers: &mut M,
) -> Ended
    ensures { Comes result (knife_told told) (errand_in told.words.items)
        (record { old = U.gained output.old; new = U.gained output.new; faults_before = U.faults output.old; faults_after = U.faults output.new })
        (record { old = F.files files.old; new = F.files files.new; faults_before = F.faults files.old; faults_after = F.faults files.new })
        (record { old = M.peer_held makers.old; new = M.peer_held makers.new; unmade_before = M.unmade makers.old; unmade_after = M.unmade makers.new }) }
{
    match read_words(alloc, told.words.as_slice()) {
        Ok(errand) => do_errand(alloc, &errand, &whom_of(told), output, files, makers),
        Err(KnifeFault::NotACommand) => Ended::at(Status::Usage),
        Err(KnifeFault::NoMemory) => Ended::at(Status::NoMemory),
    }
}

// Whom the server takes `knife` for.
fn whom_of(told: KnifeWords) -> Whom
    ensures { result ≡ spec.whom_of (knife_told told) }
{
    Whom {
        org: told.org,
        caller: told.user,
        host: told.host,
        port: told.port,
    }
}

// Connects, does the errand and gives the connection back.
fn do_errand<U: Sink, F: Disk, M: Makers>(
    alloc: Global,
    errand: &Errand,
    whom: &Whom,
    output: &mut U,
    files: &mut F,
    makers: &mut M,
) -> Ended
    ensures { Asked result whom.now errand.now
        (record { old = U.gained output.old; new = U.gained output.new; faults_before = U.faults output.old; faults_after = U.faults output.new })
        (record { old = F.files files.old; new = F.files files.new; faults_before = F.faults files.old; faults_after = F.faults files.new })
        (record { old = M.peer_held makers.old; new = M.peer_held makers.new; unmade_before = M.unmade makers.old; unmade_after = M.unmade makers.new }) }
{
    match makers.peer(&whom.host, whom.port) {
        Ok(peer) => {
            let mut peer = peer;
            let end = knife_run(alloc, errand, whom, &mut peer, files, output);
            makers.peer_back(peer);
            ended(end)
        }
        Err(OpenFault::Failed) => Ended::at(Status::ReadFault),
        Err(OpenFault::NoMemory) => Ended::at(Status::NoMemory),
    }
}

// The status of an end, with what its note names.
fn ended(end: KnifeEnd) -> Ended
    ensures status { result.status ≡ spec.end_status end }
    ensures named { result.named ≡ spec.end_named end }
{
    match end {
        KnifeEnd::Done => Ended::at(Status::Done),
        KnifeEnd::OutputFault => Ended::at(Status::WriteFault),
        KnifeEnd::Halted(halt) => halted(halt),
        KnifeEnd::DiskFault => Ended::at(Status::ReadFault),
        KnifeEnd::BadFile(name) => Ended {
            status: Status::BadFile,
            named: Named::File(name),
        },
    }
}

fn halted(halt: Halt) -> Ended
    ensures status { result.status ≡ spec.halt_status halt }
    ensures named { result.named ≡ spec.halt_named halt }
{
    match halt {
        Halt::ReadFault => Ended::at(Status::ReadFault),
        Halt::WriteFault => Ended::at(Status::WriteFault),
        Halt::NoMemory => Ended::at(Status::NoMemory),
        Halt::Unanswered(request) | Halt::Malformed(request) => Ended {
            status: Status::BadReply,
            named: Named::Request(request),
        },
        Halt::Answered(status, request) => Ended {
            status: Status::Refused { status },
            named: Named::Request(request),
        },
    }
}

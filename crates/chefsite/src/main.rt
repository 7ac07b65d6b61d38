//! chefsite: a Chef Infra Server. `answer` reads requests from standard input to its end and writes
//! the replies to standard output; `explain` prints the merge of a file's layers of attributes; `demo` serves requests
//! that are drawn from a number, and prints what their replies come to; `knife` does one errand of an administrator with a
//! server.
#![tactic(auto)]

mod answer;
mod demo;
mod ended;
mod explain;
mod knife;
mod laws;
mod makers;
mod named;
mod notes;
mod site;
mod statuses;

ghost use Rattle.std.specs.Prelude.{◌≡◌, ◌<◌, ℕ, List, [], Some, IfErr, IfOk, IsErr, drop, map, string_bytes};
ghost use Rattle.std.specs.IoError.{error_kind};
ghost use Rattle.std.specs.Vec.Iter.{into_iter_items};
ghost use Rattle.command_words.specs.Reading.{told};
ghost use Rattle.command_words.specs.Words as spec;
ghost use Rattle.chefsite.specs.Theorems.{Performed, Ran, file_named};
ghost use Rattle.chefsite.specs.Exits.{Ends, EndsNoted, EndsAsRan, IsToldFor};
ghost use Rattle.chefsite.specs.Notes.{IsNoted};

use answer::answer;
use command_words::{Command, command_of};
use demo::demo;
use doc_tree::{NoMemory, Steps, Text};
use ended::Ended;
use explain::explain;
use knife::knife;
pub use laws::two_worlds;
use makers::{Makers, NetMakers};
use named::Named;
use notes::note;
use outside_core::{Disk, FileDisk, Reading, Sink, Source, Writing};
use statuses::Status;
use std::alloc::Global;
use std::env::Args;
use std::hash::RandomState;
use std::io::{BufReader, ErrorKind, Read, Write};
use std::marker::Brand;
use std::process::ExitCode;
use std::random::RandomSource;
use std::rt::{Stderr, Stdin, Stdout};
use std::sync::ledger::{Blank, Ledger};
use std::{env, io};

/// Runs the command that the words name, notes why it ended, and waits for nobody. The maps of the run
/// hash by `hasher`, which changes no reply.
pub fn once<I: Source, U: Sink, N: Sink, F: Disk, M: Makers, L: Ledger>(
    alloc: Global,
    words: &[Text],
    input: &mut I,
    output: &mut U,
    notes: &mut N,
    files: &mut F,
    makers: &mut M,
    hasher: RandomState,
    blank: Blank,
) -> Status
    requires ledger { (blank.name ≡ L.name) × (blank.parts ≡ L.parts) × (0 < L.parts) }
    // The isolation theorem, and what each status says: `specs/Theorems.antt` has it field by field.
    ensures { Ran result words.now
        (record { old = I.left input.old; new = I.left input.new; faults_before = I.faults input.old; faults_after = I.faults input.new })
        (record { old = U.gained output.old; new = U.gained output.new; faults_before = U.faults output.old; faults_after = U.faults output.new })
        (record { old = N.gained notes.old; new = N.gained notes.new; faults_before = N.faults notes.old; faults_after = N.faults notes.new })
        (record { old = F.files files.old; new = F.files files.new; faults_before = F.faults files.old; faults_after = F.faults files.new })
        (record { old = M.peer_held makers.old; new = M.peer_held makers.new; unmade_before = M.unmade makers.old; unmade_after = M.unmade makers.new })
        notes.old notes.new }
{
    let mut steps: Steps<L> = Steps::begin(blank);
    match command_of(alloc, words) {
        Ok(Some(command)) => {
            let ended = perform(
                alloc, command, input, output, files, makers, hasher, &mut steps,
            );
            note(notes, ended.status, &ended.named);
            ended.status
        }
        Ok(None) => without_command(notes, Status::Usage),
        Err(NoMemory) => without_command(notes, Status::NoMemory),
    }
}

// Notes why no command is run.
fn without_command<N: Sink>(notes: &mut N, status: Status) -> Status
    ensures same { result ≡ status }
    ensures noted { IsNoted status Named.Nothing (N.gained notes.old) (N.gained notes.new) (N.faults notes.old) (N.faults notes.new) }
    ensures quiet { status ≡ Status.Done → notes.new ≡ notes.old }
{
    note(notes, status, &Named::Nothing);
    status
}

// Runs a command that was read from some words.
fn perform<I: Source, U: Sink, F: Disk, M: Makers, L: Ledger>(
    alloc: Global,
    command: Command,
    input: &mut I,
    output: &mut U,
    files: &mut F,
    makers: &mut M,
    hasher: RandomState,
    steps: &mut Steps<L>,
) -> Ended
    requires { (given : List (List ℕ)) × (spec.command_of given ≡ Some (told command)) }
    ensures { (given : List (List ℕ)) → spec.command_of given ≡ Some (told command) → Performed result given
        (record { old = I.left input.old; new = I.left input.new; faults_before = I.faults input.old; faults_after = I.faults input.new })
        (record { old = U.gained output.old; new = U.gained output.new; faults_before = U.faults output.old; faults_after = U.faults output.new })
        (record { old = F.files files.old; new = F.files files.new; faults_before = F.faults files.old; faults_after = F.faults files.new })
        (record { old = M.peer_held makers.old; new = M.peer_held makers.new; unmade_before = M.unmade makers.old; unmade_after = M.unmade makers.new }) }
{
    match command {
        Command::Answer => Ended::at(answer(alloc, input, output, hasher, steps)),
        Command::Explain(file) => explained(explain(alloc, file.as_str(), output, files), file),
        Command::Demo(size) => Ended::at(demo(alloc, size, output, hasher, steps)),
        Command::Knife(told) => knife(alloc, told, output, files, makers),
    }
}

// The end of `explain`, whose note names the file where it is bad.
fn explained(status: Status, file: Text) -> Ended
    ensures status { result.status ≡ status }
    ensures named { result.named ≡ file_named status file }
{
    if status == Status::BadFile {
        Ended {
            status,
            named: Named::File(file),
        }
    } else {
        Ended::at(status)
    }
}

/// Runs the command that the words name, and notes why it ended. It promises what `once` does.
pub fn run<I: Source, U: Sink, N: Sink, F: Disk, M: Makers, L: Ledger>(
    alloc: Global,
    words: &[Text],
    input: &mut I,
    output: &mut U,
    notes: &mut N,
    files: &mut F,
    makers: &mut M,
    hasher: RandomState,
    blank: Blank,
) -> Status
    requires ledger { (blank.name ≡ L.name) × (blank.parts ≡ L.parts) × (0 < L.parts) }
    ensures { Ran result words.now
        (record { old = I.left input.old; new = I.left input.new; faults_before = I.faults input.old; faults_after = I.faults input.new })
        (record { old = U.gained output.old; new = U.gained output.new; faults_before = U.faults output.old; faults_after = U.faults output.new })
        (record { old = N.gained notes.old; new = N.gained notes.new; faults_before = N.faults notes.old; faults_after = N.faults notes.new })
        (record { old = F.files files.old; new = F.files files.new; faults_before = F.faults files.old; faults_after = F.faults files.new })
        (record { old = M.peer_held makers.old; new = M.peer_held makers.new; unmade_before = M.unmade makers.old; unmade_after = M.unmade makers.new })
        notes.old notes.new }
{
    once::<I, U, N, F, M, L>(
        alloc, words, input, output, notes, files, makers, hasher, blank,
    )
}

// The types name the streams, so that none is taken for another.
fn main(rt: HostRuntime) -> ExitCode {
    let mut notes: Writing<Stderr> = Writing::new(rt.stderr());
    let mut files = FileDisk::new(rt);
    let mut makers = NetMakers::new(rt);
    match words_given(rt.alloc(), env::args(&rt)) {
        Ok(words) => with_streams::<
            _,
            Stdin,
            Stdout,
            Writing<Stderr>,
            FileDisk<HostRuntime>,
            NetMakers<HostRuntime>,
        >(
            &rt,
            words.as_slice(),
            rt.stdin(),
            rt.stdout(),
            &mut notes,
            &mut files,
            &mut makers,
        ),
        Err(status) => end_before(&mut notes, status),
    }
}

// Takes what a run needs of the system, and runs over these streams and files.
fn with_streams<
    R: RandomSource + AllocGlobal,
    I: Read + Drop,
    U: Write + Drop,
    N: Sink,
    F: Disk,
    M: Makers,
>(
    rt: &R,
    words: &[Text],
    input: I,
    output: U,
    notes: &mut N,
    files: &mut F,
    makers: &mut M,
) -> ExitCode
    ensures { EndsNoted result words.now
        (record { old = N.gained notes.old; new = N.gained notes.new; faults_before = N.faults notes.old; faults_after = N.faults notes.new }) }
{
    let Ok(reader) = BufReader::new(rt.alloc(), input) else {
        return end_without_memory(notes);
    };
    // Keys of its own for the maps, so that nobody can choose names that collide in them.
    let Ok(hasher) = RandomState::new(rt) else {
        return end_without_memory(notes);
    };
    let mut input = Reading::new(reader);
    let mut output = Writing::new(output);
    run_words::<Reading<BufReader<I>>, Writing<U>, N, F, M>(
        rt.alloc(),
        words,
        &mut input,
        &mut output,
        notes,
        files,
        makers,
        hasher,
    )
}

// Ends for want of memory, whatever the words are.
fn end_without_memory<N: Sink>(notes: &mut N) -> ExitCode
    ensures { (words : List (List ℕ)) → EndsNoted result words
        (record { old = N.gained notes.old; new = N.gained notes.new; faults_before = N.faults notes.old; faults_after = N.faults notes.new }) }
{
    end_before(notes, Status::NoMemory)
}

// Runs the words, and ends with the number of the run's status.
fn run_words<I: Source, U: Sink, N: Sink, F: Disk, M: Makers>(
    alloc: Global,
    words: &[Text],
    input: &mut I,
    output: &mut U,
    notes: &mut N,
    files: &mut F,
    makers: &mut M,
    hasher: RandomState,
) -> ExitCode
    ensures { EndsAsRan result words.now
        (record { old = I.left input.old; new = I.left input.new; faults_before = I.faults input.old; faults_after = I.faults input.new })
        (record { old = U.gained output.old; new = U.gained output.new; faults_before = U.faults output.old; faults_after = U.faults output.new })
        (record { old = N.gained notes.old; new = N.gained notes.new; faults_before = N.faults notes.old; faults_after = N.faults notes.new })
        (record { old = F.files files.old; new = F.files files.new; faults_before = F.faults files.old; faults_after = F.faults files.new })
        (record { old = M.peer_held makers.old; new = M.peer_held makers.new; unmade_before = M.unmade makers.old; unmade_after = M.unmade makers.new })
        notes.old notes.new }
{
    let status = run::<I, U, N, F, M, Brand>(
        alloc,
        words,
        input,
        output,
        notes,
        files,
        makers,
        hasher,
        Blank::new(1),
    );
    exit_with(status)
}

fn exit_with(status: Status) -> ExitCode
    ensures { Ends result status }
{
    ExitCode::from(status.code())
}

// Ends before anything is run, with the number of a status that is noted.
fn end_before<N: Sink>(notes: &mut N, status: Status) -> ExitCode
    ensures noted { IsNoted status Named.Nothing (N.gained notes.old) (N.gained notes.new) (N.faults notes.old) (N.faults notes.new) }
    ensures number { Ends result status }
{
    note(notes, status, &Named::Nothing);
    exit_with(status)
}

// The words among what the system gave as arguments. One that isn't text makes them no command.
fn words_given(alloc: Global, arguments: io::Result<Args>) -> Result<Vec<Text>, Status>
    ensures words { IfOk arguments (λ given. IfOk result (λ words. words.items ≡ map string_bytes (drop 1 (into_iter_items given)))) }
    ensures memory { IfOk arguments (λ given. IfErr result (λ status. status ≡ Status.NoMemory)) }
    ensures fault { IfErr arguments (λ error. IfErr result (λ status. IsToldFor (error_kind error) status)) }
    ensures refused { IfErr arguments (λ error. IsErr result) }
{
    match arguments {
        Ok(arguments) => words_or_none(alloc, arguments),
        Err(error) => Err(status_without_words(error.kind())),
    }
}

// The words of these arguments, but for want of memory.
fn words_or_none(alloc: Global, arguments: Args) -> Result<Vec<Text>, Status>
    ensures words { IfOk result (λ words. words.items ≡ map string_bytes (drop 1 (into_iter_items arguments))) }
    ensures memory { IfErr result (λ status. status ≡ Status.NoMemory) }
{
    match words_of(alloc, arguments) {
        Ok(words) => Ok(words),
        Err(NoMemory) => Err(Status::NoMemory),
    }
}

// The words among the program's arguments: all but the first, which is its own name.
fn words_of(alloc: Global, arguments: Args) -> Result<Vec<Text>, NoMemory>
    ensures { IfOk result (λ words. words.items ≡ map string_bytes (drop 1 (into_iter_items arguments))) }
{
    let mut arguments = arguments;
    let _name = arguments.next();
    let mut words = Vec::new(alloc);
    for argument in arguments {
        words.push(Text::of(argument))?;
    }
    Ok(words)
}

// An argument that isn't text makes the words no command. Else memory was wanting for them.
fn status_without_words(kind: ErrorKind) -> Status
    ensures { IsToldFor kind result }
{
    if kind == ErrorKind::InvalidData {
        Status::Usage
    } else {
        Status::NoMemory
    }
}

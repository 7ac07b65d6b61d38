//! One errand over a link in memory, and the line that tells it.
use doc_tree::{Bytes, NoMemory, Text};
use knife_core::{KnifeEnd, knife_run};
use knife_errands::read_words;
use outside_core::{MemDisk, MemSink};
use outside_link::MemLink;
use peer_wire::{Ask, Whom};
use std::alloc::Global;
use talks::Halt;

/// What an errand meets.
#[derive(Clone, Copy)]
pub(crate) struct Scene<'a> {
    /// Its words, which a bar parts.
    pub words: &'a str,
    /// What the file `f` holds. It isn't there where this is empty.
    pub file: &'a str,
    /// What the server sends.
    pub input: &'a str,
    /// The call of the link, of the disk and of the output that fails, or none where it is 0.
    pub calls: (u64, u64, u64),
    /// The room of the output.
    pub room: usize,
}

const HEADERS: &str =
    " HTTP/1.1\r\nHost: localhost:4000\r\nX-Ops-UserId: alice\r\nX-Ops-Server-API-Version: 1\r\n\
    Content-Length: ";

/// How the errand ends, what it prints, and what it writes, without the headers that each request has.
pub(crate) fn told(alloc: Global, scene: &Scene<'_>) -> Result<String, NoMemory> {
    let mut disk = MemDisk::new(alloc, planned(alloc, scene.calls.1)?, 0);
    told_over_disk(alloc, scene, &mut disk)
}

fn told_over_disk(
    alloc: Global,
    scene: &Scene<'_>,
    disk: &mut MemDisk,
) -> Result<String, NoMemory> {
    put_file(alloc, scene.file, disk)?;
    let failing = planned(alloc, scene.calls.0)?;
    let input = Vec::from_slice(alloc, scene.input.as_bytes())?;
    let mut link = MemLink::new(alloc, input, 7, failing, 2000)?;
    told_over_link(alloc, scene, &mut link, disk)
}

fn put_file(alloc: Global, file: &str, disk: &mut MemDisk) -> Result<(), NoMemory> {
    if file.is_empty() {
        return Ok(());
    }
    let name = Text::from_str(alloc, "f")?;
    disk.put(name, Bytes::from_slice(alloc, file.as_bytes())?)
}

fn told_over_link(
    alloc: Global,
    scene: &Scene<'_>,
    link: &mut MemLink,
    disk: &mut MemDisk,
) -> Result<String, NoMemory> {
    let failing = planned(alloc, scene.calls.2)?;
    let mut out = MemSink::new(alloc, failing, scene.room)?;
    let end = end_of(alloc, scene.words, link, disk, &mut out)?;
    told_of(alloc, &end, out.bytes(), link.written())
}

fn told_of(alloc: Global, end: &str, printed: &[u8], written: &[u8]) -> Result<String, NoMemory> {
    let printed = String::from_utf8_lossy(alloc, printed)?;
    let written = String::from_utf8_lossy(alloc, written)?;
    let requests = written.replace(alloc, HEADERS, " ")?;
    Ok(format!(in alloc; "{end} < {printed} < {requests}")?)
}

// The number of the one call that fails.
fn planned(alloc: Global, call: u64) -> Result<Vec<u64>, NoMemory> {
    let mut calls = Vec::new(alloc);
    if call > 0 {
        calls.push(call)?;
    }
    Ok(calls)
}

fn end_of(
    alloc: Global,
    words: &str,
    link: &mut MemLink,
    disk: &mut MemDisk,
    out: &mut MemSink,
) -> Result<String, NoMemory> {
    let whom = whom(alloc)?;
    let words = words_of(alloc, words)?;
    run(alloc, words.as_slice(), &whom, link, disk, out)
}

// Who runs the errands, and where the server is.
fn whom(alloc: Global) -> Result<Whom, NoMemory> {
    let org = Text::from_str(alloc, "acme")?;
    let caller = Text::from_str(alloc, "alice")?;
    let host = Text::from_str(alloc, "localhost")?;
    Ok(Whom {
        org,
        caller,
        host,
        port: 4000,
    })
}

fn words_of(alloc: Global, line: &str) -> Result<Vec<Text>, NoMemory> {
    let mut words = Vec::new(alloc);
    for word in line.split('|') {
        words.push(Text::from_str(alloc, word)?)?;
    }
    Ok(words)
}

fn run(
    alloc: Global,
    words: &[Text],
    whom: &Whom,
    link: &mut MemLink,
    disk: &mut MemDisk,
    out: &mut MemSink,
) -> Result<String, NoMemory> {
    match read_words(alloc, words) {
        Ok(errand) => {
            let end = knife_run(alloc, &errand, whom, link, disk, out);
            drop(errand);
            end_told(alloc, end)
        }
        Err(_) => Ok("no errand".to_string(alloc)?),
    }
}

fn end_told(alloc: Global, end: KnifeEnd) -> Result<String, NoMemory> {
    match end {
        KnifeEnd::Done => Ok("done".to_string(alloc)?),
        KnifeEnd::OutputFault => Ok("output fault".to_string(alloc)?),
        KnifeEnd::DiskFault => Ok("disk fault".to_string(alloc)?),
        KnifeEnd::BadFile(name) => Ok(format!(in alloc; "bad file {name}")?),
        KnifeEnd::Halted(halt) => halt_told(alloc, halt),
    }
}

fn halt_told(alloc: Global, halt: Halt) -> Result<String, NoMemory> {
    match halt {
        Halt::ReadFault => Ok("read fault".to_string(alloc)?),
        Halt::WriteFault => Ok("write fault".to_string(alloc)?),
        Halt::NoMemory => Err(NoMemory),
        Halt::Unanswered(ask) => at(alloc, 0, ask),
        Halt::Malformed(ask) => at(alloc, 1, ask),
        Halt::Answered(status, ask) => at(alloc, status, ask),
    }
}

// The request at which it ended, behind the status of its reply: 0 is none, and 1 a bad body.
fn at(alloc: Global, status: u16, ask: Ask) -> Result<String, NoMemory> {
    let Ask { verb, target, .. } = ask;
    let verb = verb.as_str();
    Ok(format!(in alloc; "{status} to {verb} {target}")?)
}

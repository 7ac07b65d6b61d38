// The sources and sinks in memory with their planned faults, and those over the standard library.
use outside_core::*;
use std::alloc::{AllocError, Global};
use std::io;
use std::io::ErrorKind;
use std::test::Fail;

// Reads once into two bytes: the bytes, or nothing where the source failed.
fn read_two<S: Source>(source: &mut S) -> Option<([u8; 2], usize)> {
    let mut into = [0; 2];
    match source.read(&mut into) {
        Ok(count) => Some((into, count)),
        Err(Failed) => None,
    }
}

// A source of three bytes whose second read fails.
fn failing_source(alloc: Global) -> Result<MemSource, AllocError> {
    Ok(MemSource::new(b"abc".to_vec(alloc)?, 7, vec![in alloc; 2]?))
}

fn fails_once(mut source: MemSource) -> bool {
    read_two(&mut source) == Some(([97, 98], 2))
        && read_two(&mut source) == None
        && read_two(&mut source) == Some(([99, 0], 1))
        && read_two(&mut source) == Some(([0, 0], 0))
}

#[test]
fn a_planned_read_fails_and_moves_nothing(rt: HostRuntime) -> Result<(), Fail> {
    assert!(rt; fails_once(failing_source(rt.alloc())?));
    Ok(())
}

fn gives_pieces_of_one(mut source: NeverFailingSource) -> bool {
    read_two(&mut source) == Some(([97, 0], 1))
        && read_two(&mut source) == Some(([98, 0], 1))
        && read_two(&mut source) == Some(([0, 0], 0))
}

#[test]
fn a_read_gives_at_most_one_piece(rt: HostRuntime) -> Result<(), Fail> {
    let bytes = b"ab".to_vec(rt.alloc())?;
    assert!(rt; gives_pieces_of_one(NeverFailingSource::new(bytes, 1)));
    Ok(())
}

// A sink with room for four bytes whose second write fails.
fn failing_sink(alloc: Global) -> Result<MemSink, AllocError> {
    MemSink::new(alloc, vec![in alloc; 2]?, 4)
}

fn gains_what_fits(mut sink: MemSink) -> bool {
    sink.write(b"ab").is_ok()
        && sink.write(b"cd").is_err()
        && sink.write(b"efg").is_err()
        && sink.bytes() == b"abef".as_slice()
}

#[test]
fn a_planned_write_gains_nothing_and_a_full_sink_what_fits(rt: HostRuntime) -> Result<(), Fail> {
    assert!(rt; gains_what_fits(failing_sink(rt.alloc())?));
    Ok(())
}

fn writes_both(written: &mut Vec<u8>) -> bool {
    let mut sink = Writing::new(written);
    sink.write(b"hello").is_ok() && sink.write(b" there").is_ok()
}

#[test]
fn readers_and_writers_of_the_standard_library(rt: HostRuntime) {
    let mut source = Reading::new(io::Cursor::new(b"xyz".as_slice()));
    assert!(rt; read_two(&mut source) == Some(([120, 121], 2)));
    let mut written = Vec::new(rt.alloc());
    assert!(rt; writes_both(&mut written));
    assert_eq!(rt; written.as_slice(), b"hello there".as_slice());
}

// A system that isn't steady: each call moves a few bytes at most, one call is interrupted, or all fail.
#[derive(Drop)]
struct Unsteady {
    left: usize,
    written: Vec<u8>,
    most: usize,
    interrupted: u32,
    fails: bool,
    calls: u32,
}

impl Unsteady {
    fn call(&mut self) -> io::Result<()> {
        self.calls = self.calls.saturating_add(1);
        if self.fails {
            return Err(io::Error::from(ErrorKind::BrokenPipe));
        }
        if self.calls == self.interrupted {
            return Err(io::Error::from(ErrorKind::Interrupted));
        }
        Ok(())
    }
}

impl io::Read for Unsteady {
    fn read(&mut self, into: &mut [u8]) -> io::Result<usize> {
        self.call()?;
        let count = into.len().min(self.most).min(self.left);
        into[..count].fill(b'x');
        self.left -= count;
        Ok(count)
    }
}

impl io::Write for Unsteady {
    fn write(&mut self, piece: &[u8]) -> io::Result<usize> {
        self.call()?;
        let count = piece.len().min(self.most);
        if self.written.extend_from_slice(&piece[..count]).is_err() {
            return Err(io::Error::from(ErrorKind::OutOfMemory));
        }
        Ok(count)
    }

    fn flush(&mut self) -> io::Result<()> {
        Ok(())
    }
}

// A piece of so many bytes.
fn blank(alloc: Global, size: usize) -> Result<Vec<u8>, AllocError> {
    vec![in alloc; 0_u8; size]
}

// The first bytes of a piece.
fn front(piece: &[u8], count: usize) -> &[u8] {
    &piece[..piece.len().min(count)]
}

// A system of 70,000 bytes.
fn system_of(alloc: Global, most: usize, interrupted: u32, fails: bool) -> Unsteady {
    Unsteady {
        left: 70_000,
        written: Vec::new(alloc),
        most,
        interrupted,
        fails,
        calls: 0,
    }
}

fn add_read(told: &mut String, system: &mut Unsteady, into: &mut [u8]) -> Result<(), AllocError> {
    match Reading::new(&mut *system).read(into) {
        Ok(count) => write!(told, "{count}")?,
        Err(Failed) => told.push_str("failed")?,
    }
    write!(told, " after {}", system.calls)
}

fn add_written(told: &mut String, mut system: Unsteady, piece: &[u8]) -> Result<(), AllocError> {
    let written = Writing::new(&mut system).write(piece).is_ok();
    let taken = system.written.len();
    write!(told, ", {written} after {} with {taken}", system.calls)
}

// What one read into 100,000 bytes gives of 70,000, after how many calls; and whether a piece of
// 70,000 bytes is written, after how many calls, and how many bytes of it are.
fn add_calls(alloc: Global, told: &mut String, mut system: Unsteady) -> Result<(), AllocError> {
    let mut piece = blank(alloc, 100_000)?;
    add_read(told, &mut system, &mut piece)?;
    system.calls = 0;
    add_written(told, system, front(&piece, 70_000))
}

fn told(alloc: Global, system: Unsteady) -> Result<String, AllocError> {
    let mut told = String::new(alloc);
    add_calls(alloc, &mut told, system)?;
    Ok(told)
}

// For each case: the most bytes that a call moves, the call that is interrupted, and whether all calls
// fail.
#[test]
fn an_unsteady_system_is_tried_again_only_where_it_was_interrupted(
    rt: HostRuntime,
) -> Result<(), Fail> {
    for (most, interrupted, fails, due) in [
        (100_000, 0, false, "70000 after 1, true after 1 with 70000"),
        (100_000, 1, false, "70000 after 2, true after 2 with 70000"),
        (65_537, 2, false, "65537 after 1, true after 3 with 70000"),
        (1, 0, false, "1 after 1, true after 70000 with 70000"),
        (1, 7, false, "1 after 1, true after 70001 with 70000"),
        (0, 0, false, "0 after 1, false after 1 with 0"),
        (1, 0, true, "failed after 1, false after 1 with 0"),
    ] {
        let system = system_of(rt.alloc(), most, interrupted, fails);
        assert_eq!(rt; told(rt.alloc(), system)?.as_str(), due);
    }
    Ok(())
}

// Whether a piece is written, and the sink then holds what is due.
fn writes(output: &mut Buffered, sink: &mut MemSink, piece: &[u8], due: &[u8]) -> bool {
    output.write(sink, piece).is_ok() && sink.bytes() == due
}

fn waits_for_room(mut output: Buffered, mut sink: MemSink) -> bool {
    writes(&mut output, &mut sink, b"abc", b"")
        && writes(&mut output, &mut sink, b"de", b"abc")
        && writes(&mut output, &mut sink, b"fghij", b"abcdefghij")
        && output.write(&mut sink, b"kl").is_ok()
        && output.empty(&mut sink).is_ok()
        && sink.bytes() == b"abcdefghijkl".as_slice()
}

#[test]
fn bytes_wait_for_room_and_large_pieces_go_through(rt: HostRuntime) -> Result<(), Fail> {
    let output = Buffered::take(rt.alloc(), 4)?;
    let sink = MemSink::new(rt.alloc(), Vec::new(rt.alloc()), 20)?;
    assert!(rt; waits_for_room(output, sink));
    Ok(())
}

//! How a query is read byte by byte, without recursion.
ghost use Rattle.query_text.specs.Machine.{after_step, at, close_step, due_step, ending, ending_at, gap_step, goes_on, name_step, naming_step, not_step, opened, start, step, term_step, whole};
ghost use Rattle.query_text.specs.declared.frames.Mode.TheVariants.{Within};
ghost use Rattle.query_text.specs.Parts.{ended};
ghost use Rattle.std.specs.Prelude.{◌≡◌, IfOk, Some, None, if◌then◌else◌};

use crate::frames::{Below, Config, Frame, Mode};
use crate::parts::{Part, into_term, part_step, with_byte};
use crate::query::{Query, What};
use crate::signs::{is_field_byte, is_field_start, is_space};
use doc_tree::{Bytes, Listed, NoMemory};
use std::alloc::Global;

// How deep parentheses and NOTs may nest.
const DEPTH: u8 = 100;

/// Nothing was read.
pub(crate) fn start(alloc: Global) -> Config
    ensures { result ≡ start }
{
    Config {
        mode: Mode::Due,
        frame: Frame::new(alloc, DEPTH),
        below: Below::new(alloc),
    }
}

/// One byte more, or `None` exactly where no query goes on with it.
pub(crate) fn step(alloc: Global, config: Config, byte: u8) -> Result<Option<Config>, NoMemory>
    ensures { IfOk result (λ next. next ≡ step config byte) }
{
    let Config { mode, frame, below } = config;
    match mode {
        Mode::Due => due_step(alloc, frame, below, byte),
        Mode::Naming(name) => naming_step(alloc, name, frame, below, byte),
        Mode::Within(part) => term_step(alloc, part, frame, below, byte),
        Mode::After => after_step(frame, below, byte),
        Mode::AndN => Ok((byte == b'N').then_some(at(Mode::AndD, frame, below))),
        Mode::AndD => Ok((byte == b'D').then_some(at(Mode::AndEnd, frame, below))),
        Mode::AndEnd => gap_step(alloc, frame.ready(), below, byte),
        Mode::OrR => Ok((byte == b'R').then_some(at(Mode::OrEnd, frame, below))),
        Mode::OrEnd => gap_step(alloc, frame.next_or(alloc)?, below, byte),
    }
}

fn at(mode: Mode, frame: Frame, below: Below) -> Config
    ensures { result ≡ at mode frame below }
{
    Config { mode, frame, below }
}

fn going(mode: Mode, frame: Frame, below: Below) -> Option<Config>
    ensures { result ≡ Some (at mode frame below) }
{
    Some(at(mode, frame, below))
}

fn due_step(alloc: Global, frame: Frame, below: Below, byte: u8) -> Result<Option<Config>, NoMemory>
    ensures { IfOk result (λ next. next ≡ due_step frame below byte) }
{
    if is_space(byte) {
        Ok(going(Mode::Due, frame, below))
    } else if byte == b'(' {
        opened(alloc, frame, below)
    } else if byte == b'*' {
        Ok(going(Mode::Within(Part::EveryColon), frame, below))
    } else if byte == b'\\' {
        let part = Part::FieldEscape(Listed::new(alloc));
        Ok(going(Mode::Within(part), frame, below))
    } else if is_field_start(byte) {
        let name = with_byte(Listed::new(alloc), byte)?;
        Ok(going(Mode::Naming(name), frame, below))
    } else {
        Ok(None)
    }
}

fn opened(alloc: Global, frame: Frame, below: Below) -> Result<Option<Config>, NoMemory>
    ensures { IfOk result (λ next. next ≡ opened frame below) }
{
    let left = frame.left();
    if left == 0 {
        return Ok(None);
    }
    let below = below.with(frame)?;
    Ok(going(Mode::Due, Frame::new(alloc, left - 1), below))
}

fn gap_step(alloc: Global, frame: Frame, below: Below, byte: u8) -> Result<Option<Config>, NoMemory>
    ensures { IfOk result (λ next. next ≡ gap_step frame below byte) }
{
    if is_space(byte) || byte == b'(' {
        due_step(alloc, frame, below, byte)
    } else {
        Ok(None)
    }
}

fn not_step(alloc: Global, frame: Frame, below: Below, byte: u8) -> Result<Option<Config>, NoMemory>
    ensures { IfOk result (λ next. next ≡ not_step frame below byte) }
{
    if frame.left() == 0 {
        return Ok(None);
    }
    due_step(alloc, frame.deeper(), below, byte)
}

fn after_step(frame: Frame, below: Below, byte: u8) -> Result<Option<Config>, NoMemory>
    ensures { IfOk result (λ next. next ≡ after_step frame below byte) }
{
    if is_space(byte) {
        Ok(going(Mode::After, frame, below))
    } else if byte == b')' {
        close_step(frame.whole()?, below)
    } else if byte == b'A' {
        Ok(going(Mode::AndN, frame, below))
    } else if byte == b'O' {
        Ok(going(Mode::OrR, frame, below))
    } else {
        Ok(None)
    }
}

fn close_step(query: Query, below: Below) -> Result<Option<Config>, NoMemory>
    ensures { IfOk result (λ next. next ≡ close_step query below) }
{
    match below.innermost() {
        Some((frame, below)) => {
            let frame = frame.pushed(What::Group(query))?;
            Ok(going(Mode::After, frame, below))
        }
        None => Ok(None),
    }
}

fn naming_step(
    alloc: Global,
    name: Listed<u8>,
    frame: Frame,
    below: Below,
    byte: u8,
) -> Result<Option<Config>, NoMemory>
    ensures { IfOk result (λ next. next ≡ naming_step name frame below byte) }
{
    if is_space(byte) || byte == b'(' {
        if name.as_slice() == b"NOT".as_slice() {
            not_step(alloc, frame, below, byte)
        } else {
            Ok(None)
        }
    } else {
        name_step(name, frame, below, byte)
    }
}

fn name_step(
    name: Listed<u8>,
    frame: Frame,
    below: Below,
    byte: u8,
) -> Result<Option<Config>, NoMemory>
    ensures { IfOk result (λ next. next ≡ name_step name frame below byte) }
{
    if byte == b':' {
        let part = Part::ValueDue(Bytes::of(name.into_vec()));
        Ok(going(Mode::Within(part), frame, below))
    } else if byte == b'\\' {
        Ok(going(Mode::Within(Part::FieldEscape(name)), frame, below))
    } else if is_field_byte(byte) {
        let name = with_byte(name, byte)?;
        Ok(going(Mode::Naming(name), frame, below))
    } else {
        Ok(None)
    }
}

fn term_step(
    alloc: Global,
    here: Part,
    frame: Frame,
    below: Below,
    byte: u8,
) -> Result<Option<Config>, NoMemory>
    ensures { IfOk result (λ next. next ≡ term_step (ended here) here frame below byte) }
{
    if is_space(byte) || byte == b')' {
        match into_term(here) {
            Ok(term) => after_step(frame.pushed(What::Term(term))?, below, byte),
            Err(here) => goes_on(alloc, here, frame, below, byte),
        }
    } else {
        goes_on(alloc, here, frame, below, byte)
    }
}

fn goes_on(
    alloc: Global,
    here: Part,
    frame: Frame,
    below: Below,
    byte: u8,
) -> Result<Option<Config>, NoMemory>
    ensures { IfOk result (λ next. next ≡ goes_on here frame below byte) }
{
    match part_step(alloc, here, byte)? {
        Some(next) => Ok(going(Mode::Within(next), frame, below)),
        None => Ok(None),
    }
}

/// The query, where the text may end here.
pub(crate) fn ending(config: Config) -> Result<Option<Query>, NoMemory>
    ensures { IfOk result (λ query. query ≡ ending config) }
{
    let Config { mode, frame, below } = config;
    match below.is_empty().then_some((mode, frame)) {
        Some((mode, frame)) => ending_at(mode, frame),
        None => Ok(None),
    }
}

// The query, where no group around it is open.
fn ending_at(mode: Mode, frame: Frame) -> Result<Option<Query>, NoMemory>
    ensures { IfOk result (λ query. query ≡ ending_at mode frame) }
{
    match mode {
        Mode::After => whole_of(frame),
        Mode::Within(part) => ended_by(part, frame),
        _ => Ok(None),
    }
}

fn whole_of(frame: Frame) -> Result<Option<Query>, NoMemory>
    ensures { IfOk result (λ query. query ≡ Some (whole frame)) }
{
    Ok(Some(frame.whole()?))
}

// The query whose last term is this part, where it may end here.
fn ended_by(part: Part, frame: Frame) -> Result<Option<Query>, NoMemory>
    ensures { IfOk result (λ query. query ≡ ending_at (Within part) frame) }
{
    match into_term(part).ok() {
        Some(term) => whole_of(frame.pushed(What::Term(term))?),
        None => Ok(None),
    }
}

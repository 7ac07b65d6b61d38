//! How a text is read line by line.
ghost use Rattle.std.specs.Bool.{then_some};
ghost use Rattle.std.specs.Prelude.{◌≡◌, IfOk, IsUtf8, Some, option_and_then};
ghost use Rattle.yaml_subset.specs.Layout.{is_lone, mark_of, marks_of, rest_marks};
ghost use Rattle.yaml_subset.specs.Machine.{run, step};
ghost use Rattle.yaml_subset.specs.Reader.{a_reader, a_sign, end_of, enters, first_reader, held_mark, outside_step, place_end, read_step, said_step, within_step};
ghost use Rattle.yaml_subset.specs.declared.reader.Place.TheVariants as place_of;

use crate::blocks::{Blocks, finish, step, wants};
use crate::document::Document;
use crate::literal::{Held, Sign, add, belongs, held_text, no_lines};
use crate::mark::Mark;
use crate::said::{Rest, Said, read_line};
use crate::signs::{has_tab, is_marker, is_opening, is_passed};
use doc_tree::{Listed, NoMemory};
use std::alloc::Global;
use std::mem::replace;

/// Where the next line stands.
#[derive(Drop)]
pub(crate) enum Place {
    /// Outside of literals, and whether no line counted yet.
    Outside(bool),
    /// In a literal.
    Within(Sign, Held),
}

/// What was read of a text.
#[derive(Drop)]
pub(crate) struct Reader {
    place: Place,
    blocks: Blocks,
}

fn mark_of(lone: bool, document: Document) -> Mark
    ensures { result ≡ mark_of lone document }
{
    if lone {
        Mark::Bare(document)
    } else {
        Mark::Value(document)
    }
}

/// Nothing was read.
pub(crate) fn first_reader() -> Reader
    ensures { result ≡ first_reader }
{
    Reader {
        place: Place::Outside(true),
        blocks: Blocks::Start,
    }
}

fn is_lone(heads: &Listed<Mark>) -> bool
    ensures { result ≡ is_lone heads.now }
{
    match heads.as_slice() {
        [] => true,
        _ => false,
    }
}

fn run_heads(alloc: Global, heads: Listed<Mark>, blocks: &mut Blocks) -> Result<bool, NoMemory>
    ensures { IfOk result (λ goes. then_some goes blocks.new ≡ run (Some blocks.old) heads) }
{
    for mark in heads.into_vec() {
        if !step(alloc, mark, blocks)? {
            return Ok(false);
        }
    }
    Ok(true)
}

// What stands behind the dashes and the key of a line.
fn enter(
    alloc: Global,
    lone: bool,
    above: usize,
    rest: Rest,
    reader: &mut Reader,
) -> Result<bool, NoMemory>
    ensures { IfOk result (λ goes. then_some goes reader.new ≡ option_and_then (enters lone above rest) (run (Some reader.old.blocks) (rest_marks lone rest))) }
{
    match rest {
        Rest::Nothing => {
            reader.place = Place::Outside(false);
            Ok(true)
        }
        Rest::Scalar(document) => {
            reader.place = Place::Outside(false);
            step(alloc, mark_of(lone, document), &mut reader.blocks)
        }
        Rest::Literal(keeps) => {
            if !wants(lone, &reader.blocks) {
                return Ok(false);
            }
            let sign = Sign { lone, keeps, above };
            reader.place = Place::Within(sign, no_lines(alloc));
            Ok(true)
        }
    }
}

fn said_step(alloc: Global, said: Said, reader: &mut Reader) -> Result<bool, NoMemory>
    ensures { IfOk result (λ goes. then_some goes reader.new ≡ said_step (Some said) reader.old.blocks) }
{
    let Said { heads, above, rest } = said;
    let lone = is_lone(&heads);
    if run_heads(alloc, heads, &mut reader.blocks)? {
        enter(alloc, lone, above, rest, reader)
    } else {
        Ok(false)
    }
}

fn outside_step(
    alloc: Global,
    first: bool,
    line: &[u8],
    reader: &mut Reader,
) -> Result<bool, NoMemory>
    ensures { IfOk result (λ goes. then_some goes reader.new ≡ outside_step first line.now reader.old.blocks) }
{
    if is_passed(line) {
        reader.place = Place::Outside(first);
        return Ok(true);
    }
    if first && is_opening(line) {
        reader.place = Place::Outside(false);
        return Ok(true);
    }
    if is_marker(line) || has_tab(line) {
        return Ok(false);
    }
    match read_line(alloc, line)? {
        Some(said) => said_step(alloc, said, reader),
        None => Ok(false),
    }
}

fn end_literal(alloc: Global, sign: Sign, held: Held, blocks: &mut Blocks) -> Result<bool, NoMemory>
    ensures { IfOk result (λ goes. then_some goes blocks.new ≡ step (held_mark sign held) blocks.old) }
{
    let text = held_text(alloc, sign.keeps, held)?;
    step(alloc, mark_of(sign.lone, Document::words(text)), blocks)
}

fn within_step(
    alloc: Global,
    sign: Sign,
    held: Held,
    line: &[u8],
    reader: &mut Reader,
) -> Result<bool, NoMemory>
    requires { IsUtf8 line.now }
    ensures { IfOk result (λ goes. then_some goes reader.new ≡ within_step sign held line.now reader.old.blocks) }
{
    if belongs(sign.above, line) {
        return match add(alloc, line, held)? {
            Some(held) => {
                reader.place = Place::Within(sign, held);
                Ok(true)
            }
            None => Ok(false),
        };
    }
    if end_literal(alloc, sign, held, &mut reader.blocks)? {
        outside_step(alloc, false, line, reader)
    } else {
        Ok(false)
    }
}

/// One line more, or false exactly where no text goes on with it: nothing is known then of what was read.
pub(crate) fn read_step(alloc: Global, line: &[u8], reader: &mut Reader) -> Result<bool, NoMemory>
    requires { IsUtf8 line.now }
    ensures { IfOk result (λ goes. then_some goes reader.new ≡ read_step line.now reader.old) }
{
    if let Place::Outside(first) = &reader.place {
        return outside_step(alloc, *first, line, reader);
    }
    match replace(&mut reader.place, Place::Outside(false)) {
        Place::Outside(first) => outside_step(alloc, first, line, reader),
        Place::Within(sign, held) => within_step(alloc, sign, held, line, reader),
    }
}

/// The document, where no line follows.
pub(crate) fn end_of(alloc: Global, reader: Reader) -> Result<Option<Document>, NoMemory>
    ensures { IfOk result (λ d. d ≡ end_of reader) }
{
    let Reader { place, mut blocks } = reader;
    match place {
        Place::Outside(_) => Ok(Some(finish(alloc, blocks)?)),
        Place::Within(sign, held) => {
            if end_literal(alloc, sign, held, &mut blocks)? {
                Ok(Some(finish(alloc, blocks)?))
            } else {
                Ok(None)
            }
        }
    }
}

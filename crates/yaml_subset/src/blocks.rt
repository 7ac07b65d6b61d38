//! Blocks that are being read: the open lists and maps, and how a mark changes them.
ghost use Rattle.doc_tree.specs.Doc.{depth};
ghost use Rattle.doc_tree.specs.Part.{with_pair};
ghost use Rattle.std.specs.Bool.{then_some};
ghost use Rattle.std.specs.Prelude.{◌≡◌, ◌∷◌, [], List, false, true, IfOk, OnOk};
ghost use Rattle.yaml_subset.specs.Machine.{an_open_list, an_open_map, begin, close_all, closes, fill, filled_map, finish, frame_doc, inside, land, next_key, opens_list, opens_map, place, room_of, settle, settled_pairs, step, wants};
ghost use Rattle.yaml_subset.specs.declared.mark.Mark.TheVariants as mark;
ghost use Rattle.yaml_subset.specs.declared.blocks.Blocks.TheVariants as blocks_of;
ghost use Rattle.yaml_subset.specs.declared.blocks.Frame.{Frame};
ghost use Rattle.yaml_subset.specs.declared.blocks.Frame.TheVariants as frame_of;

use crate::document::Document;
use crate::mark::Mark;
use crate::pairs::Pairs;
use crate::stack::Stack;
use doc_tree::{NoMemory, Text, Trees};
use std::alloc::Global;
use std::mem::replace;

// How deep lists and maps may nest.
const DEPTH: u8 = 100;

/// A list that is open: how deep lists and maps may nest in it, the column of its dashes, and its items so far.
#[derive(Drop)]
pub(crate) struct OpenList {
    room: u8,
    column: usize,
    trees: Trees,
}

/// A map that is open: how deep lists and maps may nest in it, the column of its keys, its pairs so far, and the key
/// whose value is due.
#[derive(Drop)]
pub(crate) struct OpenMap {
    room: u8,
    column: usize,
    pairs: Pairs,
    key: Text,
}

/// A block that is open.
#[derive(Drop)]
pub(crate) enum Frame {
    /// A list.
    InList(OpenList),
    /// A map.
    InMap(OpenMap),
}

/// An open block, whether a node is due in it, and the blocks around it, the innermost first.
#[derive(Drop)]
pub(crate) struct Opened {
    due: bool,
    frame: Frame,
    below: Stack<Frame>,
}

/// What was read of a text.
#[derive(Drop)]
pub(crate) enum Blocks {
    /// Nothing.
    Start,
    /// A value alone.
    Alone(Document),
    /// Open blocks.
    Within(Opened),
}

fn open_list(room: u8, column: usize, trees: Trees) -> Frame
    ensures { result ≡ an_open_list room column trees }
{
    Frame::InList(OpenList {
        room,
        column,
        trees,
    })
}

fn open_map(room: u8, column: usize, pairs: Pairs, key: Text) -> Frame
    ensures { result ≡ an_open_map room column pairs key }
{
    Frame::InMap(OpenMap {
        room,
        column,
        pairs,
        key,
    })
}

fn inside(due: bool, frame: Frame, below: Stack<Frame>) -> Blocks
    ensures { result ≡ inside due frame below }
{
    Blocks::Within(Opened { due, frame, below })
}

fn room_of(frame: &Frame) -> u8
    ensures { result ≡ room_of frame.now }
{
    match frame {
        Frame::InList(list) => list.room,
        Frame::InMap(map) => map.room,
    }
}

fn fill(alloc: Global, document: Document, frame: &mut Frame) -> Result<(), NoMemory>
    ensures { OnOk result (frame.new ≡ fill document frame.old) }
{
    match frame {
        Frame::InList(list) => {
            list.trees.push(document.into_tree())?;
            Ok(())
        }
        Frame::InMap(map) => fill_map(alloc, document, map),
    }
}

fn fill_map(alloc: Global, document: Document, map: &mut OpenMap) -> Result<(), NoMemory>
    ensures { OnOk result (map.new ≡ filled_map document map.old) }
{
    let key = replace(&mut map.key, no_key(alloc));
    map.pairs.put(alloc, key, document)?;
    Ok(())
}

fn no_key(alloc: Global) -> Text
    ensures { result ≡ [] }
{
    Text::of(String::new(alloc))
}

fn settle(alloc: Global, due: bool, frame: &mut Frame) -> Result<(), NoMemory>
    ensures { OnOk result (frame.new ≡ settle due frame.old) }
{
    if due {
        fill(alloc, Document::null(), frame)
    } else {
        Ok(())
    }
}

fn frame_doc(alloc: Global, frame: Frame) -> Result<Document, NoMemory>
    ensures { IfOk result (λ d. d ≡ frame_doc frame) }
{
    match frame {
        Frame::InList(list) => Ok(Document::list(list.trees)),
        Frame::InMap(map) => {
            let fields = map.pairs.into_fields(alloc)?;
            Ok(Document::dict(fields))
        }
    }
}

// The document of a block in which a node may be due.
fn settled_doc(alloc: Global, due: bool, frame: Frame) -> Result<Document, NoMemory>
    ensures { IfOk result (λ d. d ≡ frame_doc (settle due frame)) }
{
    let mut frame = frame;
    settle(alloc, due, &mut frame)?;
    frame_doc(alloc, frame)
}

fn closes(mark: &Mark, frame: &Frame) -> bool
    ensures { result ≡ closes mark.now frame.now }
{
    match mark {
        Mark::Dash(column) => match frame {
            Frame::InList(list) => *column < list.column,
            Frame::InMap(map) => *column < map.column,
        },
        Mark::Key(column, _) => match frame {
            Frame::InList(list) => *column <= list.column,
            Frame::InMap(map) => *column < map.column,
        },
        Mark::Value(_) | Mark::Bare(_) => false,
    }
}

fn opens_list(alloc: Global, column: usize, within: &mut Opened) -> Result<bool, NoMemory>
    ensures { IfOk result (λ goes. then_some goes (blocks_of.Within within.new) ≡ opens_list column within.old.due within.old.frame within.old.below) }
{
    let room = room_of(&within.frame);
    if !within.due || room == 0 {
        return Ok(false);
    }
    nest(open_list(room - 1, column, Trees::new(alloc)), within)?;
    Ok(true)
}

fn opens_map(alloc: Global, column: usize, key: Text, within: &mut Opened) -> Result<bool, NoMemory>
    ensures { IfOk result (λ goes. then_some goes (blocks_of.Within within.new) ≡ opens_map column key within.old.due within.old.frame within.old.below) }
{
    let room = room_of(&within.frame);
    if !within.due || room == 0 {
        return Ok(false);
    }
    nest(open_map(room - 1, column, Pairs::new(alloc), key), within)?;
    Ok(true)
}

// A block more, in the innermost.
fn nest(frame: Frame, within: &mut Opened) -> Result<(), NoMemory>
    ensures due { OnOk result (within.new.due ≡ within.old.due) }
    ensures frame { OnOk result (within.new.frame ≡ frame) }
    ensures below { OnOk result (within.new.below ≡ within.old.frame ∷ within.old.below) }
{
    let outer = replace(&mut within.frame, frame);
    within.below.push(outer)?;
    Ok(())
}

fn settle_map(alloc: Global, due: bool, map: &mut OpenMap) -> Result<(), NoMemory>
    ensures room { OnOk result (map.new.room ≡ map.old.room) }
    ensures column { OnOk result (map.new.column ≡ map.old.column) }
    ensures pairs { OnOk result (map.new.pairs ≡ settled_pairs due map.old.key map.old.pairs) }
{
    if due {
        fill_map(alloc, Document::null(), map)
    } else {
        Ok(())
    }
}

// One key more of a map.
fn next_key(alloc: Global, key: Text, due: bool, map: &mut OpenMap) -> Result<bool, NoMemory>
    ensures { IfOk result (λ goes. (below : List Frame) → then_some goes (inside true (frame_of.InMap map.new) below) ≡ next_key key map.old.room map.old.column (settled_pairs due map.old.key map.old.pairs) below) }
{
    settle_map(alloc, due, map)?;
    if map.pairs.has(&key) {
        return Ok(false);
    }
    map.key = key;
    Ok(true)
}

fn place_dash(alloc: Global, column: usize, within: &mut Opened) -> Result<bool, NoMemory>
    ensures { IfOk result (λ goes. then_some goes (blocks_of.Within within.new) ≡ place (mark.Dash column) within.old.due within.old.frame within.old.below) }
{
    match &within.frame {
        Frame::InList(list) => {
            if list.column != column {
                return opens_list(alloc, column, within);
            }
            settle(alloc, within.due, &mut within.frame)?;
            within.due = true;
            Ok(true)
        }
        Frame::InMap(_) => opens_list(alloc, column, within),
    }
}

fn place_key(alloc: Global, column: usize, key: Text, within: &mut Opened) -> Result<bool, NoMemory>
    ensures { IfOk result (λ goes. then_some goes (blocks_of.Within within.new) ≡ place (mark.Key column key) within.old.due within.old.frame within.old.below) }
{
    match &mut within.frame {
        Frame::InList(_) => opens_map(alloc, column, key, within),
        Frame::InMap(map) => {
            if map.column != column {
                return opens_map(alloc, column, key, within);
            }
            let goes = next_key(alloc, key, within.due, map)?;
            within.due = true;
            Ok(goes)
        }
    }
}

fn place_value(alloc: Global, document: Document, within: &mut Opened) -> Result<bool, NoMemory>
    ensures { IfOk result (λ goes. then_some goes (blocks_of.Within within.new) ≡ place (mark.Value document) within.old.due within.old.frame within.old.below) }
{
    if !within.due || document.is_deeper(usize::from(room_of(&within.frame))) {
        return Ok(false);
    }
    fill(alloc, document, &mut within.frame)?;
    within.due = false;
    Ok(true)
}

fn place(alloc: Global, mark: Mark, within: &mut Opened) -> Result<bool, NoMemory>
    ensures { IfOk result (λ goes. then_some goes (blocks_of.Within within.new) ≡ place mark within.old.due within.old.frame within.old.below) }
{
    match mark {
        Mark::Dash(column) => place_dash(alloc, column, within),
        Mark::Key(column, key) => place_key(alloc, column, key, within),
        Mark::Value(document) => place_value(alloc, document, within),
        Mark::Bare(_) => Ok(false),
    }
}

// The innermost block closes: its document is the node that was due in the block around it.
fn close(alloc: Global, outer: Frame, within: &mut Opened) -> Result<(), NoMemory>
    ensures due { OnOk result (within.new.due ≡ false) }
    ensures frame { OnOk result (within.new.frame ≡ fill (frame_doc (settle within.old.due within.old.frame)) outer) }
    ensures below { OnOk result (within.new.below ≡ within.old.below) }
{
    let due = replace(&mut within.due, false);
    let inner = replace(&mut within.frame, outer);
    let document = settled_doc(alloc, due, inner)?;
    fill(alloc, document, &mut within.frame)
}

// The blocks that a mark lies outside of close, one by one.
fn land(alloc: Global, mark: Mark, within: &mut Opened) -> Result<bool, NoMemory>
    ensures { IfOk result (λ goes. then_some goes (blocks_of.Within within.new) ≡ land mark within.old.due within.old.frame within.old.below) }
{
    'closing: while closes(&mark, &within.frame) {
        match within.below.pop() {
            Some(outer) => close(alloc, outer, within)?,
            None => return Ok(false),
        }
    }
    place(alloc, mark, within)
}

fn begin(alloc: Global, mark: Mark) -> Option<Blocks>
    ensures { result ≡ begin mark }
{
    let below = Stack::new(alloc);
    match mark {
        Mark::Dash(column) => {
            let frame = open_list(DEPTH - 1, column, Trees::new(alloc));
            Some(inside(true, frame, below))
        }
        Mark::Key(column, key) => {
            let frame = open_map(DEPTH - 1, column, Pairs::new(alloc), key);
            Some(inside(true, frame, below))
        }
        Mark::Value(_) => None,
        Mark::Bare(document) => alone(document),
    }
}

fn alone(document: Document) -> Option<Blocks>
    ensures { result ≡ begin (mark.Bare document) }
{
    if document.is_deeper(usize::from(DEPTH)) {
        None
    } else {
        Some(Blocks::Alone(document))
    }
}

/// One mark more, or false exactly where no tree goes on with it: nothing is known then of what was read.
pub(crate) fn step(alloc: Global, mark: Mark, blocks: &mut Blocks) -> Result<bool, NoMemory>
    ensures { IfOk result (λ goes. then_some goes blocks.new ≡ step mark blocks.old) }
{
    match blocks {
        Blocks::Start => match begin(alloc, mark) {
            Some(first) => {
                *blocks = first;
                Ok(true)
            }
            None => Ok(false),
        },
        Blocks::Alone(_) => Ok(false),
        Blocks::Within(within) => land(alloc, mark, within),
    }
}

/// What was read, where no mark follows.
pub(crate) fn finish(alloc: Global, blocks: Blocks) -> Result<Document, NoMemory>
    ensures { IfOk result (λ d. d ≡ finish blocks) }
{
    match blocks {
        Blocks::Start => Ok(Document::null()),
        Blocks::Alone(document) => Ok(document),
        Blocks::Within(within) => close_all(alloc, within),
    }
}

fn close_all(alloc: Global, within: Opened) -> Result<Document, NoMemory>
    ensures { IfOk result (λ d. d ≡ close_all (frame_doc (settle within.due within.frame)) within.below) }
{
    let Opened {
        due,
        frame,
        mut below,
    } = within;
    let mut document = settled_doc(alloc, due, frame)?;
    while let Some(mut outer) = below.pop() {
        fill(alloc, document, &mut outer)?;
        document = frame_doc(alloc, outer)?;
    }
    Ok(document)
}

/// Whether a scalar may come next: behind the dash or key of its line, or alone.
pub(crate) fn wants(lone: bool, blocks: &Blocks) -> bool
    ensures { result ≡ wants lone blocks.now }
{
    match blocks {
        Blocks::Start => lone,
        Blocks::Alone(_) => false,
        Blocks::Within(within) => !lone && within.due,
    }
}

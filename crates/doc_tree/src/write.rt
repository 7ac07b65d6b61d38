//! Writing the JSON text of a tree.
ghost use Rattle.doc_tree.specs.Doc.{depth, docs_of, pairs_of};
ghost use Rattle.doc_tree.specs.Read.{reads};
ghost use Rattle.doc_tree.specs.Tokens.{doc_tokens, docs_tokens, pairs_tokens};
ghost use Rattle.doc_tree.specs.Tree.{doc_of};
ghost use Rattle.doc_tree.specs.Written.{text};
ghost use Rattle.json.specs.Token.{number};
ghost use Rattle.json.specs.Written.{Writes};
ghost use Rattle.std.specs.Fmt.{signed_decimal};
ghost use Rattle.std.specs.Prelude.{◌≡◌, ◌≤◌, ◌++◌, IfOk, IsUtf8, Ok, OnOk};

use crate::bytes::Bytes;
use crate::no_memory::NoMemory;
use crate::number::Number;
use crate::tree::{Fields, Tree, Trees};
use json::Writer;
use std::alloc::{AllocError, Global};

/// The JSON text of a tree: compact, each dict's keys in the order of their bytes, with the shortest escapes.
pub fn json_text(alloc: Global, tree: &Tree) -> Result<Bytes, NoMemory>
    ensures text { IfOk result (λ bytes. bytes ≡ text (doc_of tree.now)) }
    ensures utf8 { IfOk result IsUtf8 }
    ensures reads_back { IfOk result (λ bytes. depth (doc_of tree.now) ≤ 100
        → reads bytes ≡ Ok (doc_of tree.now)) }
{
    // What every tree keeps makes its text one that reads back.
    tree.known();
    let mut out = Writer::new(Vec::with_capacity(alloc, room_for(tree))?);
    write_tree(&mut out, tree)?;
    Ok(Bytes::of(out.into_inner()))
}

#[cycle(write)]
fn write_tree(out: &mut Writer, tree: &Tree) -> Result<(), AllocError>
    ensures ok { OnOk result (out.new.tokens ≡ out.old.tokens ++ doc_tokens (doc_of tree.now)) }
    ensures before { out.new.before ≡ out.old.before }
{
    match tree {
        Tree::Null => out.null(),
        Tree::Bool(truth) => out.boolean(*truth),
        Tree::Whole(number) => write_number(out, number),
        Tree::Words(text) => out.string(text.as_str()),
        Tree::List(trees) => {
            out.begin_array()?;
            write_trees(out, trees)
        }
        Tree::Dict(fields) => {
            out.begin_object()?;
            write_fields(out, fields)
        }
    }
}

fn write_number(out: &mut Writer, whole: &Number) -> Result<(), AllocError>
    ensures { Writes result out.old out.new (number (signed_decimal whole.now)) }
{
    let value = whole.value();
    if value < 0 {
        out.i64(value as i64)
    } else {
        out.u64(value as u64)
    }
}

#[cycle(write)]
fn write_trees(out: &mut Writer, trees: &Trees) -> Result<(), AllocError>
    ensures ok { OnOk result (out.new.tokens ≡ out.old.tokens ++ docs_tokens (docs_of trees.now)) }
    ensures before { out.new.before ≡ out.old.before }
{
    for tree in &trees.items {
        write_tree(out, tree)?;
    }
    out.end_array()
}

#[cycle(write)]
fn write_fields(out: &mut Writer, fields: &Fields) -> Result<(), AllocError>
    ensures ok { OnOk result (out.new.tokens ≡ out.old.tokens ++ pairs_tokens (pairs_of fields.now)) }
    ensures before { out.new.before ≡ out.old.before }
{
    for field in &fields.entries {
        out.key(field.key.as_str())?;
        write_tree(out, &field.tree)?;
    }
    out.end_object()
}

/// The room that the text of a tree takes where nothing in it is escaped and each number has one digit: what has
/// more goes on from there.
#[cycle(room)]
fn room_for(tree: &Tree) -> usize {
    match tree {
        Tree::Null | Tree::Bool(_) => 5,
        Tree::Whole(_) => 1,
        Tree::Words(text) => text.len().saturating_add(2),
        Tree::List(trees) => room_for_trees(trees),
        Tree::Dict(fields) => room_for_fields(fields),
    }
}

#[cycle(room)]
fn room_for_trees(trees: &Trees) -> usize {
    let mut room = 2usize;
    for tree in &trees.items {
        room = room.saturating_add(room_for(tree)).saturating_add(1);
    }
    room
}

#[cycle(room)]
fn room_for_fields(fields: &Fields) -> usize {
    let mut room = 2usize;
    for field in &fields.entries {
        let key = field.key.len().saturating_add(4);
        room = room
            .saturating_add(key)
            .saturating_add(room_for(&field.tree));
    }
    room
}

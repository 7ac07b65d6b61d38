//! Reading a tree from JSON text.
ghost use Rattle.doc_tree.specs.Data.{doc_in, docs_in, pairs_in};
ghost use Rattle.doc_tree.specs.Moved.{Makes, Parses};
ghost use Rattle.doc_tree.specs.Read.{Gives, json_value, reads};
ghost use Rattle.doc_tree.specs.Tree.{doc_of};
ghost use Rattle.serde_json.specs.Data.{depth, items_depth, members_depth};
ghost use Rattle.serde_json.specs.Find.{as_integer};
ghost use Rattle.serde_json.specs.View.{view, number_view, items_view, members_view};
ghost use Rattle.std.specs.Prelude.{◌≡◌, nat_lt};

use crate::no_memory::NoMemory as OutOfMemory;
use crate::number::Number;
use crate::text::Text;
use crate::tree::{Fields, Tree, Trees};
use serde_json::{Map, Value};
use std::alloc::Global;
use thiserror::Error;

/// The greatest depth of a document that is read.
const DEPTH: usize = 100;

/// Why bytes are not read as a tree. Where several hold, the first of these is told.
#[derive(Clone, Copy, Debug, PartialEq, Eq, Drop, Error)]
pub enum ReadFault {
    /// The bytes are not one JSON value in UTF-8: also where they nest 128 deep or deeper, or a number is too large
    /// for a double.
    #[error("not JSON")]
    NotJson,
    /// Lists and dicts nest more than 100 deep.
    #[error("nests more than 100 deep")]
    TooDeep,
    /// A number is no whole number that an `i64` or a `u64` holds.
    #[error("a number is not whole")]
    NotWhole,
    /// Memory ran out.
    #[error("out of memory")]
    NoMemory,
}

impl From<OutOfMemory> for ReadFault {
    ghost use Rattle.doc_tree.specs.declared.read.ReadFault.TheVariants.{NoMemory};
    ghost use Rattle.std.specs.Prelude.{◌≡◌};

    ghost from_gives = { λ _ e. e ≡ NoMemory };

    fn from(_cause: OutOfMemory) -> ReadFault {
        ReadFault::NoMemory
    }
}

/// The tree that JSON text says. Of a key that comes twice the last value stands, and it alone is looked at for
/// `TooDeep` and `NotWhole`. Texts have the room in which they were read, which a copy of the tree hasn't.
pub fn read_json(alloc: Global, bytes: &[u8]) -> Result<Tree, ReadFault>
    ensures { Gives result (reads bytes.now) }
{
    let value = value_from(alloc, bytes)?;
    if is_deeper(&value, DEPTH) {
        return Err(ReadFault::TooDeep);
    }
    tree_from(alloc, value)
}

fn value_from(alloc: Global, bytes: &[u8]) -> Result<Value, ReadFault>
    ensures { Parses result (json_value bytes.now) }
{
    match Value::from_slice(alloc, bytes) {
        Ok(value) => Ok(value),
        Err(error) => {
            if error.is_memory() {
                Err(ReadFault::NoMemory)
            } else {
                Err(ReadFault::NotJson)
            }
        }
    }
}

#[cycle(depth)]
fn is_deeper(value: &Value, limit: usize) -> bool
    ensures { result ≡ nat_lt limit (depth (view value.now)) }
{
    match value {
        Value::Array(items) => limit == 0 || has_deeper_item(items, limit - 1),
        Value::Object(members) => limit == 0 || has_deeper_member(members, limit - 1),
        _ => false,
    }
}

#[cycle(depth)]
fn has_deeper_item(items: &Vec<Value>, limit: usize) -> bool
    ensures { result ≡ nat_lt limit (items_depth (items_view items.now.items)) }
{
    for item in items {
        if is_deeper(item, limit) {
            return true;
        }
    }
    false
}

#[cycle(depth)]
fn has_deeper_member(members: &Map<String, Value>, limit: usize) -> bool
    ensures { result ≡ nat_lt limit (members_depth (members_view members.now.entries)) }
{
    for (_, member) in members.iter() {
        if is_deeper(member, limit) {
            return true;
        }
    }
    false
}

#[cycle(moved)]
fn tree_from(alloc: Global, value: Value) -> Result<Tree, ReadFault>
    ensures { Makes doc_of result (doc_in (view value)) }
{
    match value {
        Value::Null => Ok(Tree::Null),
        Value::Bool(truth) => Ok(Tree::Bool(truth)),
        Value::Number(number) => match whole_in(number) {
            Some(whole) => Ok(Tree::Whole(whole)),
            None => Err(ReadFault::NotWhole),
        },
        Value::String(text) => Ok(Tree::Words(Text::with_room(text))),
        Value::Array(items) => Ok(Tree::List(trees_from(alloc, items)?)),
        Value::Object(members) => Ok(Tree::Dict(fields_from(alloc, members)?)),
    }
}

fn whole_in(number: serde_json::Number) -> Option<Number>
    ensures { result ≡ as_integer (number_view number) }
{
    match number.as_u64() {
        Some(whole) => Some(Number::from(whole)),
        None => match number.as_i64() {
            Some(whole) => Some(Number::from(whole)),
            None => None,
        },
    }
}

#[cycle(moved)]
fn trees_from(alloc: Global, items: Vec<Value>) -> Result<Trees, ReadFault>
    ensures { Makes (λ trees. trees) result (docs_in (items_view items.items)) }
{
    let mut trees = Trees::with_capacity(alloc, items.len())?;
    for item in items {
        trees.push(tree_from(alloc, item)?)?;
    }
    Ok(trees)
}

#[cycle(moved)]
fn fields_from(alloc: Global, members: Map<String, Value>) -> Result<Fields, ReadFault>
    ensures { Makes (λ fields. fields) result (pairs_in (members_view members.entries)) }
{
    let mut fields = Fields::with_capacity(alloc, members.len())?;
    for (name, member) in members {
        fields.push(Text::with_room(name), tree_from(alloc, member)?)?;
    }
    Ok(fields)
}

//! Sets of texts. A table is one text, as in `tests`.

use crate::access_lists_tests::{add_texts, asked, yes_or_no};
use doc_tree::{NoMemory, Text, Tree, read_json};
use membership::TextSet;
use std::alloc::Global;
use std::test::Fail;

fn add_with(alloc: Global, told: &mut String, set: &TextSet, text: &Text) -> Result<(), NoMemory> {
    let more = set.with(alloc, text)?;
    add_texts(told, &more)
}

fn add_without(
    alloc: Global,
    told: &mut String,
    set: &TextSet,
    text: &Text,
) -> Result<(), NoMemory> {
    let mut less = set.copy(alloc)?;
    less.take_out(text);
    add_texts(told, &less)
}

fn add_set_and(
    alloc: Global,
    told: &mut String,
    set: &TextSet,
    text: &Text,
) -> Result<(), NoMemory> {
    add_texts(told, set)?;
    let (empty, has) = (yes_or_no(set.is_empty()), yes_or_no(set.contains(text)));
    write!(told, ",{empty}{has},")?;
    add_with(alloc, told, set, text)?;
    told.push_str(",")?;
    add_without(alloc, told, set, text)
}

fn add_set(alloc: Global, told: &mut String, set: &TextSet) -> Result<(), NoMemory> {
    let c = Text::from_str(alloc, "c")?;
    add_set_and(alloc, told, set, &c)
}

// The set that the list of a set's texts is read as.
fn set_back(alloc: Global, tree: &Tree) -> Result<Option<TextSet>, NoMemory> {
    match TextSet::read(alloc, tree)? {
        Some(set) => TextSet::read(alloc, &set.tree(alloc)?),
        None => Ok(None),
    }
}

fn add_set_of(alloc: Global, told: &mut String, body: &str) -> Result<(), NoMemory> {
    let Ok(tree) = read_json(alloc, body.as_bytes()) else {
        return Ok(told.push_str(" no JSON")?);
    };
    match set_back(alloc, &tree)? {
        Some(set) => add_set(alloc, told, &set),
        None => Ok(told.push_str(" none")?),
    }
}

// A set of texts; whether it is empty and whether it has `c`; the set with `c`, and without it.
const SETS: &str = r#"["d","b","d"] -> b d, no no, b c d, b d
["c","C"] -> C c, no yes, C c, C
[] ->, yes no, c,
["c",1] -> none
"c" -> none
null -> none
"#;

fn add_set_row(alloc: Global, told: &mut String, asked: &str) -> Result<(), NoMemory> {
    write!(told, "{asked} ->")?;
    add_set_of(alloc, told, asked)?;
    Ok(told.push_str("\n")?)
}

fn sets(alloc: Global) -> Result<String, NoMemory> {
    let mut told = String::new(alloc);
    for row in SETS.lines() {
        add_set_row(alloc, &mut told, asked(row))?;
    }
    Ok(told)
}

#[test]
fn texts_are_sets(rt: HostRuntime) -> Result<(), Fail> {
    assert!(rt; TextSet::new(rt.alloc()).is_empty());
    let told = sets(rt.alloc())?;
    assert_eq!(rt; told.as_str(), SETS);
    Ok(())
}

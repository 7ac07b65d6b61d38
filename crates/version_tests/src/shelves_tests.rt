//! That the calls succeed with ample memory, and one life of each type.

use doc_tree::{NoMemory, Text};
use shelves::{Shelves, SortedMap};
use std::alloc::Global;
use std::fmt::Write;
use std::test::Fail;

// What is told of a value, or `-` where there is none.
fn tell(told: &mut String, value: Option<u64>) -> Result<(), Fail> {
    match value {
        Some(value) => write!(told, " {value}")?,
        None => told.push_str(" -")?,
    }
    Ok(())
}

fn tell_map(told: &mut String, map: &SortedMap<u64, u64>) -> Result<(), Fail> {
    for (key, value) in map.entries() {
        write!(told, " {key}:{value}")?;
    }
    if let Some((key, _)) = map.last() {
        write!(told, " up to {key}")?;
    }
    write!(told, " of {}, {}\n", map.len(), map.is_empty())?;
    Ok(())
}

fn insert(map: &mut SortedMap<u64, u64>, key: u64, value: u64) -> Result<Option<u64>, NoMemory> {
    map.reserve(1)?;
    Ok(map.insert(key, value))
}

#[test]
fn keeps_the_last_value_of_each_key_in_order(rt: HostRuntime) -> Result<(), Fail> {
    let mut told = String::new(rt.alloc());
    let mut map = SortedMap::new(rt.alloc());
    tell_map(&mut told, &map)?;
    for (key, value) in [(5, 50), (1, 10), (9, 90), (1, 11)] {
        tell(&mut told, insert(&mut map, key, value)?)?;
    }
    tell_map(&mut told, &map)?;
    for key in [1, 5, 7] {
        tell(&mut told, map.get(&key).copied())?;
        write!(told, " {}", map.contains(&key))?;
    }
    for key in [9, 9, 5] {
        tell(&mut told, map.remove(&key))?;
    }
    tell_map(&mut told, &map)?;
    let due = " of 0, true
 - - - 10 1:11 5:50 9:90 up to 9 of 3, false
 11 true 50 true - false 90 - 50 1:11 up to 1 of 1, false
";
    assert_eq!(rt; told.as_str(), due);
    Ok(())
}

fn put(
    alloc: Global,
    shelves: &mut Shelves<u64, u64>,
    name: &str,
    key: u64,
    value: u64,
) -> Result<Option<u64>, NoMemory> {
    let name = Text::from_str(alloc, name)?;
    shelves.reserve(1)?;
    Ok(shelves.put(name, key, value))
}

fn tell_shelves(told: &mut String, shelves: &Shelves<u64, u64>) -> Result<(), Fail> {
    for (name, shelf) in shelves.shelves() {
        write!(told, "{name}")?;
        tell_map(told, shelf)?;
    }
    Ok(())
}

#[test]
fn keeps_the_values_of_one_name_on_one_shelf(rt: HostRuntime) -> Result<(), Fail> {
    let mut told = String::new(rt.alloc());
    let mut shelves = Shelves::none(rt.alloc());
    for (name, key, value) in [("ba", 2, 20), ("b", 7, 70), ("ba", 1, 10), ("ba", 2, 21)] {
        tell(&mut told, put(rt.alloc(), &mut shelves, name, key, value)?)?;
    }
    told.push_str("\n")?;
    tell_shelves(&mut told, &shelves)?;
    for (name, key) in [("ba", 2), ("ba", 7), ("b", 7), ("a", 7)] {
        let name = Text::from_str(rt.alloc(), name)?;
        tell(&mut told, shelves.get(&name, &key).copied())?;
        tell(&mut told, shelves.take_out(&name, &key))?;
        write!(told, " {}", shelves.has(&name))?;
    }
    told.push_str("\n")?;
    tell_shelves(&mut told, &shelves)?;
    let due = " - - - 20
b 7:70 up to 7 of 1, false
ba 1:10 2:21 up to 2 of 2, false
 21 21 true - - true 70 70 false - - false
ba 1:10 up to 1 of 1, false
";
    assert_eq!(rt; told.as_str(), due);
    Ok(())
}

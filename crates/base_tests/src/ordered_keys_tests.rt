//! Some hundred keys put in, found, ranged over and taken out, in several orders, and their room used again.
ghost use Rattle.std.specs.Prelude.{◌≤◌, OnOk};

use doc_tree::NoMemory;
use ordered_keys::{Ordered, Whole};
use std::alloc::Global;
use std::fmt::Write;
use std::test::Fail;

// A prime, so that each step leads through all.
const COUNT: u64 = 307;

// The even numbers from nought on, `COUNT` of them, in the order that a step gives.
fn nth(step: u64, i: u64) -> u64 {
    (i.wrapping_mul(step) % COUNT).wrapping_mul(2)
}

// Makes fifty numbers where none is left.
fn have_room(keys: &mut Ordered<u64>) -> Result<(), NoMemory>
    ensures { OnOk result (1 ≤ keys.new.room) }
{
    if keys.room() == 0 {
        keys.grow(50)
    } else {
        Ok(())
    }
}

// Puts in a key where it isn't there.
fn put(keys: &mut Ordered<u64>, key: u64) -> Result<(), NoMemory> {
    have_room(keys)?;
    if keys.find(&Whole(&key)).is_none() {
        keys.insert(key);
    }
    Ok(())
}

fn put_all(keys: &mut Ordered<u64>, step: u64) -> Result<(), NoMemory> {
    for i in 0..COUNT {
        put(keys, nth(step, i))?;
    }
    Ok(())
}

// Takes out a key where it is there.
fn take_out(keys: &mut Ordered<u64>, key: u64) {
    if let Some(number) = keys.find(&Whole(&key)) {
        keys.remove(number);
    }
}

// Takes out the keys that can be divided by this.
fn take_out_each(keys: &mut Ordered<u64>, step: u64, by: u64) {
    for i in 0..COUNT {
        let key = nth(step, i);
        if key.checked_rem(by) == Some(0) {
            take_out(keys, key);
        }
    }
}

// How many of the numbers up to 700 are keys, each under its number.
fn count(keys: &Ordered<u64>) -> u64 {
    let mut count: u64 = 0;
    for key in 0..700 {
        if let Some(number) = keys.find(&Whole(&key)) {
            if keys.get(number).copied() == Some(key) {
                count = count.saturating_add(1);
            }
        }
    }
    count
}

// The keys from one on and below another, or `-` for none, and `?` where it isn't told whether there are any.
fn tell(
    told: &mut String,
    alloc: Global,
    keys: &Ordered<u64>,
    low: u64,
    high: u64,
) -> Result<(), Fail> {
    let numbers = keys.between(alloc, &Whole(&low), &Whole(&high))?;
    if numbers.is_empty() == keys.has_between(&Whole(&low), &Whole(&high)) {
        told.push_str(" ?")?;
    }
    if numbers.is_empty() {
        told.push_str(" -")?;
    }
    for number in &numbers {
        if let Some(key) = keys.get(*number) {
            write!(told, " {key}")?;
        }
    }
    told.push_str(";")?;
    Ok(())
}

// What there is, with the first keys and the last.
fn tell_all(told: &mut String, alloc: Global, keys: &Ordered<u64>) -> Result<(), Fail> {
    write!(told, "{} of {}:", count(keys), keys.size())?;
    for (low, high) in [(0, 9), (1, 2), (6, 7), (9, 6), (305, 313), (606, 999)] {
        tell(told, alloc, keys, low, high)?;
    }
    told.push_str("\n")?;
    Ok(())
}

const DUE: &str = "0 of 0: -; -; -; -; -; -;
307 of 350: 0 2 4 6 8; -; 6; -; 306 308 310 312; 606 608 610 612;
204 of 350: 2 4 8; -; -; -; 308 310; 608 610;
307 of 350: 0 2 4 6 8; -; 6; -; 306 308 310 312; 606 608 610 612;
0 of 350: -; -; -; -; -; -;
";

fn life(alloc: Global, step: u64) -> Result<String, Fail> {
    let mut told = String::new(alloc);
    let mut keys = Ordered::none(alloc);
    tell_all(&mut told, alloc, &keys)?;
    put_all(&mut keys, step)?;
    tell_all(&mut told, alloc, &keys)?;
    take_out_each(&mut keys, 5, 3);
    tell_all(&mut told, alloc, &keys)?;
    put_all(&mut keys, 306)?;
    tell_all(&mut told, alloc, &keys)?;
    take_out_each(&mut keys, step, 1);
    tell_all(&mut told, alloc, &keys)?;
    Ok(told)
}

#[test]
fn keeps_keys_in_whatever_order_they_come(rt: HostRuntime) -> Result<(), Fail> {
    for step in [1, 306, 41, 150] {
        let told = life(rt.alloc(), step)?;
        assert_eq!(rt; told.as_str(), DUE);
    }
    Ok(())
}

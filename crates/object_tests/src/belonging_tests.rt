//! Who belongs to a group through others. A table is one text, as in `tests`.

use crate::access_lists_tests::{asked, first_word};
use crate::permission_tests::{add_row, answered, change};
use doc_tree::{Names, NoMemory, Text};
use membership::{Group, GroupLists, GroupRows, Groups, MemberKind};
use std::alloc::Global;
use std::hash::RandomState;
use std::test::Fail;

// Groups that list one another, change and go, and who is `in` which then.
const WITHIN: &str = "come group g1 //g2
come group g2 ann//g1
in g1 ann -> yes
in g2 ann -> yes
in g1 bob -> no
in g1 g2 -> no
go group g2
in g1 ann -> no
in g2 ann -> no
come group g3 //g3
in g3 ann -> no
in g3 g3 -> no
join g3 user bob
in g3 bob -> yes
in g3 ann -> no
come group top //left right
in top ann -> no
come group left //bottom
come group right //bottom
come group bottom ann/web1/
in top ann -> yes
in top web1 -> yes
in left ann -> yes
in bottom ann -> yes
come group left //
in top ann -> yes
in left ann -> no
go group right
in top ann -> no
in bottom ann -> yes
join top group bottom
in top ann -> yes
join bottom client web2
in top web2 -> yes
leave bottom user ann
in top ann -> no
in top web1 -> yes
join top user cat
in top cat -> yes
in bottom cat -> no
leave top group bottom
in top web1 -> no
in top cat -> yes
come group early //late
in early ann -> no
come group late ann//
in early ann -> yes
in late ann -> yes
go group none
in early ann -> yes
go group early
in early ann -> no
in late ann -> yes
";

fn belongs(groups: &Groups, group: Text, caller: &Text) -> bool {
    groups.belongs_to_any(caller, &[group])
}

// `in GROUP CALLER`
fn is_in(alloc: Global, groups: &Groups, who: &str) -> Result<bool, NoMemory> {
    let (group, caller) = first_word(who);
    let group = Text::from_str(alloc, group)?;
    let caller = Text::from_str(alloc, caller)?;
    Ok(belongs(groups, group, &caller))
}

// What a row asks of groups, or nothing where it is a change.
fn answer(
    alloc: Global,
    hasher: RandomState,
    groups: &mut Groups,
    row: &str,
) -> Result<&'static str, NoMemory> {
    let (verb, who) = first_word(row);
    if verb == "in" {
        return Ok(answered(is_in(alloc, groups, who)?));
    }
    change(alloc, hasher, groups, verb, who)?;
    Ok("")
}

fn add_answers(
    alloc: Global,
    hasher: RandomState,
    told: &mut String,
    groups: &mut Groups,
) -> Result<(), NoMemory> {
    for row in WITHIN.lines() {
        told.push_str(asked(row))?;
        told.push_str(answer(alloc, hasher, groups, asked(row))?)?;
        told.push_str("\n")?;
    }
    Ok(())
}

fn all_told(alloc: Global, hasher: RandomState) -> Result<String, NoMemory> {
    let mut told = String::new(alloc);
    let mut groups = Groups::none(alloc, hasher);
    add_answers(alloc, hasher, &mut told, &mut groups).and(Ok(told))
}

#[test]
fn who_belongs_through_others(rt: HostRuntime) -> Result<(), Fail> {
    let told = all_told(rt.alloc(), RandomState::new(&rt)?)?;
    assert_eq!(rt; told.as_str(), WITHIN);
    Ok(())
}

// The group of this number.
fn numbered(alloc: Global, number: usize) -> Result<Text, NoMemory> {
    let name = format!(in alloc; "g{number}")?;
    Text::from_str(alloc, name.as_str())
}

fn put_listing(
    alloc: Global,
    hasher: RandomState,
    groups: &mut Groups,
    number: usize,
    other: usize,
) -> Result<(), NoMemory> {
    groups.reserve(1)?;
    let name = numbered(alloc, number)?;
    let listed = numbered(alloc, other)?;
    groups.put_group(name, Group::with(alloc, hasher, &[], &[], &[listed])?);
    Ok(())
}

fn add_chain(
    alloc: Global,
    hasher: RandomState,
    groups: &mut Groups,
    count: u16,
) -> Result<(), NoMemory> {
    for number in 0..count {
        put_listing(
            alloc,
            hasher,
            groups,
            usize::from(number),
            usize::from(number) + 1,
        )?;
    }
    Ok(())
}

fn add_chain_rows(alloc: Global, rows: &mut GroupRows, count: u16) -> Result<(), NoMemory> {
    for number in 0..count {
        let next = usize::from(number) + 1;
        let row = format!(in alloc; "g{number} //g{next}")?;
        add_row(alloc, rows, row.as_str())?;
    }
    let row = format!(in alloc; "g{count} ann//")?;
    add_row(alloc, rows, row.as_str())
}

// Groups of which each lists the next, and behind the last one that has ann.
fn chain(alloc: Global, hasher: RandomState, count: u16) -> Result<Groups, NoMemory> {
    let mut lists = GroupLists {
        users: Names::new(alloc),
        clients: Names::new(alloc),
        groups: GroupRows::new(alloc),
    };
    add_chain_rows(alloc, &mut lists.groups, count)?;
    Groups::build(alloc, hasher, &lists)
}

// Groups of which each lists the next, and the last the first.
fn cycle(alloc: Global, hasher: RandomState, count: u16) -> Result<Groups, NoMemory> {
    let mut groups = Groups::none(alloc, hasher);
    match add_chain(alloc, hasher, &mut groups, count) {
        Ok(()) => { put_listing(alloc, hasher, &mut groups, usize::from(count), 0).and(Ok(groups)) }
        Err(fault) => {
            drop(groups);
            Err(fault)
        }
    }
}

fn has_ann(alloc: Global, groups: &Groups, number: usize) -> Result<bool, NoMemory> {
    let ann = Text::from_str(alloc, "ann")?;
    Ok(belongs(groups, numbered(alloc, number)?, &ann))
}

fn join_ann(alloc: Global, groups: &mut Groups, number: usize) -> Result<(), NoMemory> {
    let name = numbered(alloc, number)?;
    let ann = Text::from_str(alloc, "ann")?;
    if groups.has(MemberKind::Group, &name) {
        groups.reserve_in(&name, 1)?;
        groups.join(&name, MemberKind::User, ann);
    }
    Ok(())
}

fn remove(alloc: Global, groups: &mut Groups, number: usize) -> Result<(), NoMemory> {
    let name = numbered(alloc, number)?;
    groups.remove_group(&name);
    groups.leave_all(MemberKind::Group, &name);
    Ok(())
}

// Whether ann belongs to the group of this number, as a word.
fn tell(alloc: Global, groups: &Groups, number: usize, told: &mut String) -> Result<(), NoMemory> {
    let has = has_ann(alloc, groups, number)?;
    told.push_str(answered(has))?;
    Ok(())
}

// The first of a chain, one in its middle, and the last; and then that one in the middle goes.
fn tell_chain(alloc: Global, groups: &mut Groups, told: &mut String) -> Result<(), NoMemory> {
    tell(alloc, groups, 0, told)?;
    tell(alloc, groups, 100, told)?;
    tell(alloc, groups, 200, told)?;
    remove(alloc, groups, 100)?;
    tell(alloc, groups, 0, told)?;
    tell(alloc, groups, 99, told)?;
    tell(alloc, groups, 101, told)
}

fn add_chain_told(alloc: Global, hasher: RandomState, told: &mut String) -> Result<(), NoMemory> {
    let mut groups = chain(alloc, hasher, 200)?;
    let done = tell_chain(alloc, &mut groups, told);
    drop(groups);
    done
}

fn chain_told(alloc: Global, hasher: RandomState) -> Result<String, NoMemory> {
    let mut told = String::new(alloc);
    add_chain_told(alloc, hasher, &mut told).and(Ok(told))
}

#[test]
fn a_chain_of_two_hundred(rt: HostRuntime) -> Result<(), Fail> {
    let told = chain_told(rt.alloc(), RandomState::new(&rt)?)?;
    assert_eq!(rt; told.as_str(), " -> yes -> yes -> yes -> no -> no -> yes");
    Ok(())
}

// Of a cycle: before ann joins the last group, and behind that of the first and of one in its middle.
fn tell_joined(
    alloc: Global,
    groups: &mut Groups,
    last: usize,
    told: &mut String,
) -> Result<(), NoMemory> {
    tell(alloc, groups, 0, told)?;
    join_ann(alloc, groups, last)?;
    tell(alloc, groups, 0, told)?;
    tell(alloc, groups, last / 2, told)
}

// Behind the last group's removal, and of a copy from before.
fn tell_left(
    alloc: Global,
    groups: &mut Groups,
    last: usize,
    told: &mut String,
) -> Result<(), NoMemory> {
    let copy = groups.copy(alloc)?;
    let done = tell_gone(alloc, groups, &copy, last, told);
    drop(copy);
    done
}

fn tell_gone(
    alloc: Global,
    groups: &mut Groups,
    copy: &Groups,
    last: usize,
    told: &mut String,
) -> Result<(), NoMemory> {
    remove(alloc, groups, last)?;
    tell(alloc, groups, 0, told)?;
    tell(alloc, copy, 0, told)
}

fn add_cycle_told(
    alloc: Global,
    hasher: RandomState,
    last: u16,
    told: &mut String,
) -> Result<(), NoMemory> {
    let mut groups = cycle(alloc, hasher, last)?;
    let joined = tell_joined(alloc, &mut groups, usize::from(last), told);
    let done = joined.and(tell_left(alloc, &mut groups, usize::from(last), told));
    drop(groups);
    done
}

fn cycle_told(alloc: Global, hasher: RandomState, last: u16) -> Result<String, NoMemory> {
    let mut told = String::new(alloc);
    add_cycle_told(alloc, hasher, last, &mut told).and(Ok(told))
}

#[test]
fn cycles(rt: HostRuntime) -> Result<(), Fail> {
    for last in [0u16, 1, 49] {
        let told = cycle_told(rt.alloc(), RandomState::new(&rt)?, last)?;
        assert_eq!(rt; told.as_str(), " -> no -> yes -> yes -> no -> yes");
    }
    Ok(())
}

//! Names and members as they are listed, and how an organisation starts. A table is one text, as in `tests`.

use crate::access_lists_tests::{asked, first_word, yes_or_no};
use crate::permission_tests::{kind_of, organisation};
use doc_tree::{NoMemory, Text, Texts};
use membership::{Group, Groups, MemberKind, is_starting_group};
use std::alloc::Global;
use std::hash::RandomState;
use std::test::Fail;

// The names of a kind, and the members of a group; a row without an arrow is a change.
const LISTED: &str = "names user -> ann anna bob cat dora
names client -> web1 web10
names group -> admins ops team users
members admins user -> cat
members admins client -> web1
members admins group -> team
members users user -> ann anna bob
members none user ->
put guests
members guests user -> ann bob
members guests client -> web1
members guests group -> team
quit user bob
members guests user -> ann
members users user -> ann anna
names user -> ann anna bob cat dora
quit client web1
members admins client ->
members guests client ->
quit group team
members admins group ->
members guests group ->
names group -> admins guests ops team users
";

fn add_names(told: &mut String, names: &Texts) -> Result<(), NoMemory> {
    for name in names.as_slice() {
        told.push_str(" ")?;
        told.push_str(name.as_str())?;
    }
    Ok(())
}

// `names KIND`
fn add_kind(
    alloc: Global,
    told: &mut String,
    groups: &Groups,
    kind: MemberKind,
) -> Result<(), NoMemory> {
    let names = groups.names(alloc, kind)?;
    add_names(told, &names)
}

// `members GROUP KIND`
fn add_members(
    alloc: Global,
    told: &mut String,
    groups: &Groups,
    whose: &str,
) -> Result<(), NoMemory> {
    let (group, kind) = first_word(whose);
    let group = Text::from_str(alloc, group)?;
    let members = groups.members(alloc, &group, kind_of(kind))?;
    add_names(told, &members)
}

fn texts(alloc: Global, words: &str) -> Result<Vec<Text>, NoMemory> {
    let mut texts = Vec::new(alloc);
    for word in words.split_whitespace() {
        texts.push(Text::from_str(alloc, word)?)?;
    }
    Ok(texts)
}

// A group of two users, of whom one is named twice, a client and a group.
fn guests(alloc: Global, hasher: RandomState) -> Result<Group, NoMemory> {
    let users = texts(alloc, "bob ann bob")?;
    let clients = texts(alloc, "web1")?;
    let groups = texts(alloc, "team")?;
    Group::with(
        alloc,
        hasher,
        users.as_slice(),
        clients.as_slice(),
        groups.as_slice(),
    )
}

// `put GROUP`
fn put_guests(
    alloc: Global,
    hasher: RandomState,
    groups: &mut Groups,
    name: &str,
) -> Result<(), NoMemory> {
    let name = Text::from_str(alloc, name)?;
    groups.reserve(1)?;
    groups.put_group(name, guests(alloc, hasher)?);
    Ok(())
}

// `quit KIND NAME`
fn quit(alloc: Global, groups: &mut Groups, who: &str) -> Result<(), NoMemory> {
    let (kind, name) = first_word(who);
    let name = Text::from_str(alloc, name)?;
    groups.leave_all(kind_of(kind), &name);
    Ok(())
}

fn add_listed(
    alloc: Global,
    hasher: RandomState,
    told: &mut String,
    groups: &mut Groups,
    row: &str,
) -> Result<(), NoMemory> {
    let (verb, rest) = first_word(row);
    match verb {
        "put" => return put_guests(alloc, hasher, groups, rest),
        "quit" => return quit(alloc, groups, rest),
        _ => told.push_str(" ->")?,
    }
    match verb {
        "names" => add_kind(alloc, told, groups, kind_of(rest)),
        _ => add_members(alloc, told, groups, rest),
    }
}

fn add_all_listed(
    alloc: Global,
    hasher: RandomState,
    told: &mut String,
    groups: &mut Groups,
) -> Result<(), NoMemory> {
    for row in LISTED.lines() {
        told.push_str(asked(row))?;
        add_listed(alloc, hasher, told, groups, asked(row))?;
        told.push_str("\n")?;
    }
    Ok(())
}

fn listed(alloc: Global, hasher: RandomState, groups: &mut Groups) -> Result<String, NoMemory> {
    let mut told = String::new(alloc);
    add_all_listed(alloc, hasher, &mut told, groups)?;
    Ok(told)
}

fn copy_listed(alloc: Global, hasher: RandomState, groups: &Groups) -> Result<String, NoMemory> {
    let mut copy = groups.copy(alloc)?;
    listed(alloc, hasher, &mut copy)
}

fn listed_told(alloc: Global, hasher: RandomState) -> Result<String, NoMemory> {
    let groups = organisation(alloc, hasher)?;
    copy_listed(alloc, hasher, &groups)
}

#[test]
fn members_are_listed_and_leave_every_group(rt: HostRuntime) -> Result<(), Fail> {
    let told = listed_told(rt.alloc(), RandomState::new(&rt)?)?;
    assert_eq!(rt; told.as_str(), LISTED);
    Ok(())
}

fn add_starters(told: &mut String) -> Result<(), NoMemory> {
    for name in "admins admin billing-admins clients users public".split_whitespace() {
        told.push_str(yes_or_no(is_starting_group(name)))?;
    }
    Ok(())
}

// The groups of an organisation and the users of one, and which of some names start.
fn add_start(alloc: Global, told: &mut String, groups: &Groups) -> Result<(), NoMemory> {
    add_kind(alloc, told, groups, MemberKind::Group)?;
    add_members(alloc, told, groups, "admins user")?;
    add_starters(told)
}

fn start(alloc: Global, groups: &Groups) -> Result<String, NoMemory> {
    let mut told = String::new(alloc);
    add_start(alloc, &mut told, groups)?;
    Ok(told)
}

fn starting_told(alloc: Global, hasher: RandomState) -> Result<String, NoMemory> {
    let groups = Groups::starting(alloc, hasher)?;
    start(alloc, &groups)
}

#[test]
fn an_organisation_starts_with_four_groups(rt: HostRuntime) -> Result<(), Fail> {
    let told = starting_told(rt.alloc(), RandomState::new(&rt)?)?;
    assert_eq!(rt;
        told.as_str(),
        " admins billing-admins clients users yes no yes yes yes no"
    );
    Ok(())
}

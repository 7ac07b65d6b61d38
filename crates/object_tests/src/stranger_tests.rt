//! Entries of access lists, short and long, and who in them is a stranger. A table is one text, as in `tests`.

use crate::access_lists_tests::{acl_of, asked, yes_or_no};
use crate::permission_tests::organisation;
use access_lists::{
    Acl, AclAt, AclFault, Entry, Perm, Stranger, first_stranger, permitted, read_acl,
};
use doc_tree::{NoMemory, Text, read_json};
use membership::{Groups, TextSet};
use std::alloc::Global;
use std::hash::RandomState;
use std::test::Fail;

// An entry for reading, and its first name that the organisation doesn't have.
const STRANGERS: &str =
    r#"{"read":{"actors":["bob","ann","pivotal","web1"],"groups":["team","admins"]}} -> none
{"read":{"actors":[],"groups":[]}} -> none
{"read":{"actors":["zed","ann","eve"],"groups":["abyss"]}} -> actor eve
{"read":{"actors":["zed"],"groups":["abyss"]}} -> actor zed
{"read":{"actors":["ann"],"groups":["users","void","abyss"]}} -> group abyss
{"read":{"actors":["an"],"groups":[]}} -> actor an
{"read":{"actors":["admins"],"groups":["admins"]}} -> actor admins
{"read":{"actors":["ann"],"groups":["ann"]}} -> group ann
{"read":{"actors":["pivotal"],"groups":["pivotal"]}} -> group pivotal
"#;

fn name_at(texts: &TextSet, position: usize) -> &str {
    match texts.as_slice().get(position) {
        Some(text) => text.as_str(),
        None => "",
    }
}

fn add_stranger(told: &mut String, groups: &Groups, entry: &Entry) -> Result<(), NoMemory> {
    match first_stranger(groups, entry) {
        Some(Stranger::Actor(at)) => write!(told, " actor {}", name_at(&entry.actors, at))?,
        Some(Stranger::Group(at)) => write!(told, " group {}", name_at(&entry.groups, at))?,
        None => told.push_str(" none")?,
    }
    Ok(())
}

fn entry_of(alloc: Global, body: &str) -> Result<Entry, AclFault> {
    match read_json(alloc, body.as_bytes()) {
        Ok(tree) => read_acl(alloc, &tree, Perm::Read),
        Err(_) => Err(AclFault::NotAnAcl),
    }
}

fn add_stranger_of(
    alloc: Global,
    told: &mut String,
    groups: &Groups,
    body: &str,
) -> Result<(), NoMemory> {
    match entry_of(alloc, body) {
        Ok(entry) => add_stranger(told, groups, &entry),
        Err(_) => Ok(told.push_str(" no entry")?),
    }
}

fn add_strangers(alloc: Global, told: &mut String, groups: &Groups) -> Result<(), NoMemory> {
    for row in STRANGERS.lines() {
        write!(told, "{} ->", asked(row))?;
        add_stranger_of(alloc, told, groups, asked(row))?;
        told.push_str("\n")?;
    }
    Ok(())
}

fn strangers(alloc: Global, groups: &Groups) -> Result<String, NoMemory> {
    let mut told = String::new(alloc);
    add_strangers(alloc, &mut told, groups)?;
    Ok(told)
}

fn strangers_told(alloc: Global, hasher: RandomState) -> Result<String, NoMemory> {
    let groups = organisation(alloc, hasher)?;
    strangers(alloc, &groups)
}

#[test]
fn the_first_stranger_is_told(rt: HostRuntime) -> Result<(), Fail> {
    let told = strangers_told(rt.alloc(), RandomState::new(&rt)?)?;
    assert_eq!(rt; told.as_str(), STRANGERS);
    Ok(())
}

// A document in which an entry for reading stands between other text, with the actors `m1000` to `m1`
// and then `m1` again.
fn add_body_of_many(body: &mut String, front: &str, back: &str) -> Result<(), NoMemory> {
    write!(body, r#"{front}"read":{{"groups":[],"actors":["#)?;
    for position in 0..1000usize {
        write!(body, "\"m{}\",", 1000usize.saturating_sub(position))?;
    }
    Ok(write!(body, "\"m1\"]}}{back}")?)
}

fn body_of_many(alloc: Global, front: &str, back: &str) -> Result<String, NoMemory> {
    let mut body = String::new(alloc);
    add_body_of_many(&mut body, front, back)?;
    Ok(body)
}

// How many actors an entry has, the first two and the last of 1,000.
fn actors_in(alloc: Global, entry: &Entry) -> Result<String, NoMemory> {
    let count = entry.actors.as_slice().len();
    let first = name_at(&entry.actors, 0);
    let second = name_at(&entry.actors, 1);
    let last = name_at(&entry.actors, 999);
    Ok(format!(in alloc; "{count} {first} {second} {last}")?)
}

fn many_actors(alloc: Global) -> Result<String, NoMemory> {
    let body = body_of_many(alloc, "{", "}")?;
    match entry_of(alloc, body.as_str()) {
        Ok(entry) => actors_in(alloc, &entry),
        Err(_) => Err(NoMemory),
    }
}

// Whether each of some names may read.
fn may_read(alloc: Global, groups: &Groups, acl: &Acl) -> Result<String, NoMemory> {
    let mut told = String::new(alloc);
    for name in "m1 m500 m1000 m999 m1001 m".split_whitespace() {
        let caller = Text::from_str(alloc, name)?;
        told.push_str(yes_or_no(permitted(groups, AclAt::of(acl), Perm::Read, &caller)))?;
    }
    Ok(told)
}

fn many_may_read(alloc: Global, groups: &Groups) -> Result<String, NoMemory> {
    let body = body_of_many(
        alloc,
        r#"{"create":{"actors":[],"groups":[]},"delete":{"actors":[],"groups":[]},"grant":{"actors":[],"groups":[]},"#,
        r#","update":{"actors":[],"groups":[]}}"#,
    )?;
    match acl_of(alloc, body.as_str()) {
        Ok(acl) => may_read(alloc, groups, &acl),
        Err(_) => Err(NoMemory),
    }
}

fn many_told(alloc: Global, hasher: RandomState) -> Result<String, NoMemory> {
    let groups = organisation(alloc, hasher)?;
    many_may_read(alloc, &groups)
}

#[test]
fn an_entry_of_a_thousand_actors_is_read(rt: HostRuntime) -> Result<(), Fail> {
    let actors = many_actors(rt.alloc())?;
    assert_eq!(rt; actors.as_str(), "1000 m1 m10 m999");
    Ok(())
}

#[test]
fn the_last_of_a_thousand_actors_may_read(rt: HostRuntime) -> Result<(), Fail> {
    let told = many_told(rt.alloc(), RandomState::new(&rt)?)?;
    assert_eq!(rt; told.as_str(), " yes yes yes yes no no");
    Ok(())
}

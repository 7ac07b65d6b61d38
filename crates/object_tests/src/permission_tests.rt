//! Who may do what. A table is one text, as in `tests`.

use crate::access_lists_tests::{ACL, acl_of, asked, first_word, perm_of};
use access_lists::{Acl, AclAt, permission_is_decided, permitted};
use doc_tree::{Name, Names, NoMemory, Text};
use membership::{
    Group, GroupLists, GroupRow, GroupRows, Groups, MemberKind, belonging_is_decided,
    changes_follow_the_lists,
};
use std::alloc::Global;
use std::hash::RandomState;
use std::test::Fail;

fn add_name(alloc: Global, names: &mut Names, word: &str) -> Result<(), NoMemory> {
    match Name::of(Text::from_str(alloc, word)?) {
        Ok(name) => names.push(name),
        Err(_) => Ok(()),
    }
}

fn add_names(alloc: Global, names: &mut Names, words: &str) -> Result<(), NoMemory> {
    for word in words.split_whitespace() {
        add_name(alloc, names, word)?;
    }
    Ok(())
}

// The parts of a text before and behind its first slash.
fn halves(text: &str) -> (&str, &str) {
    match text.split_once('/') {
        Some(parts) => parts,
        None => (text, ""),
    }
}

fn add_members(alloc: Global, row: &mut GroupRow, members: &str) -> Result<(), NoMemory> {
    let (users, others) = halves(members);
    let (clients, groups) = halves(others);
    add_names(alloc, &mut row.users, users)?;
    add_names(alloc, &mut row.clients, clients)?;
    add_names(alloc, &mut row.groups, groups)
}

// A group with its members, told as users, clients and groups.
fn group_row(alloc: Global, name: Name, members: &str) -> Result<GroupRow, NoMemory> {
    let mut row = GroupRow {
        name,
        users: Names::new(alloc),
        clients: Names::new(alloc),
        groups: Names::new(alloc),
    };
    add_members(alloc, &mut row, members)?;
    Ok(row)
}

pub(crate) fn add_row(alloc: Global, rows: &mut GroupRows, row: &str) -> Result<(), NoMemory> {
    let (word, members) = first_word(row);
    match Name::of(Text::from_str(alloc, word)?) {
        Ok(name) => rows.push(group_row(alloc, name, members)?),
        Err(_) => Ok(()),
    }
}

fn add_lists(alloc: Global, lists: &mut GroupLists) -> Result<(), NoMemory> {
    add_names(alloc, &mut lists.users, "ann anna bob cat dora")?;
    add_names(alloc, &mut lists.clients, "web1 web10")?;
    for row in GROUPS.lines() {
        add_row(alloc, &mut lists.groups, row)?;
    }
    Ok(())
}

// Each group with its users, its clients and the groups within it.
const GROUPS: &str = "admins nobody//
admins cat/web1/team
ops //
team dora//
users ann anna bob//
";

pub(crate) fn organisation(alloc: Global, hasher: RandomState) -> Result<Groups, NoMemory> {
    let mut lists = GroupLists {
        users: Names::new(alloc),
        clients: Names::new(alloc),
        groups: GroupRows::new(alloc),
    };
    add_lists(alloc, &mut lists)?;
    Groups::build(alloc, hasher, &lists)
}

pub(crate) fn kind_of(word: &str) -> MemberKind {
    match word {
        "user" => MemberKind::User,
        "client" => MemberKind::Client,
        _ => MemberKind::Group,
    }
}

fn put_group(
    alloc: Global,
    hasher: RandomState,
    groups: &mut Groups,
    row: &GroupRow,
) -> Result<(), NoMemory> {
    let name = row.name.as_text().copy(alloc)?;
    groups.reserve(1)?;
    groups.put_group(name, Group::of(alloc, hasher, row)?);
    Ok(())
}

// `come user NAME`, `come client NAME` or `come group NAME USERS/CLIENTS/GROUPS`
fn come(
    alloc: Global,
    hasher: RandomState,
    groups: &mut Groups,
    who: &str,
) -> Result<(), NoMemory> {
    let (kind, rest) = first_word(who);
    let (word, members) = first_word(rest);
    let text = Text::from_str(alloc, word)?;
    groups.reserve(1)?;
    match kind_of(kind) {
        MemberKind::User => groups.add_user(text),
        MemberKind::Client => groups.add_client(text),
        MemberKind::Group => {
            if let Ok(name) = Name::of(text) {
                let row = group_row(alloc, name, members)?;
                put_group(alloc, hasher, groups, &row)?;
            }
        }
    }
    Ok(())
}

// `go user NAME`, `go client NAME` or `go group NAME`
fn go(alloc: Global, groups: &mut Groups, who: &str) -> Result<(), NoMemory> {
    let (kind, word) = first_word(who);
    let name = Text::from_str(alloc, word)?;
    match kind_of(kind) {
        MemberKind::User => groups.remove_user(&name),
        MemberKind::Client => groups.remove_client(&name),
        MemberKind::Group => groups.remove_group(&name),
    }
    Ok(())
}

// `join GROUP KIND NAME`
fn join(alloc: Global, groups: &mut Groups, who: &str) -> Result<(), NoMemory> {
    let (group, rest) = first_word(who);
    let (kind, member) = first_word(rest);
    let group = Text::from_str(alloc, group)?;
    let member = Text::from_str(alloc, member)?;
    if groups.has(MemberKind::Group, &group) {
        groups.reserve_in(&group, 1)?;
        groups.join(&group, kind_of(kind), member);
    }
    Ok(())
}

// `leave GROUP KIND NAME`
fn leave(alloc: Global, groups: &mut Groups, who: &str) -> Result<(), NoMemory> {
    let (group, rest) = first_word(who);
    let (kind, member) = first_word(rest);
    let group = Text::from_str(alloc, group)?;
    let member = Text::from_str(alloc, member)?;
    groups.leave(&group, kind_of(kind), &member);
    Ok(())
}

pub(crate) fn change(
    alloc: Global,
    hasher: RandomState,
    groups: &mut Groups,
    verb: &str,
    who: &str,
) -> Result<(), NoMemory> {
    match verb {
        "come" => come(alloc, hasher, groups, who),
        "go" => go(alloc, groups, who),
        "join" => join(alloc, groups, who),
        _ => leave(alloc, groups, who),
    }
}

pub(crate) fn answered(yes: bool) -> &'static str {
    if yes { " -> yes" } else { " -> no" }
}

// `may PERM CALLER`
fn may(alloc: Global, groups: &Groups, acl: &Acl, who: &str) -> Result<bool, NoMemory> {
    let (perm, caller) = first_word(who);
    let caller = Text::from_str(alloc, caller)?;
    Ok(permitted(groups, AclAt::of(acl), perm_of(perm), &caller))
}

// `has KIND NAME`
fn has(alloc: Global, groups: &Groups, who: &str) -> Result<bool, NoMemory> {
    let (kind, name) = first_word(who);
    let name = Text::from_str(alloc, name)?;
    Ok(groups.has(kind_of(kind), &name))
}

// Who may do what by the list `ACL`; a row without an arrow is a change.
const WHO_MAY: &str = "may read pivotal -> yes
may create pivotal -> yes
may create cat -> no
may read ann -> yes
may read anna -> no
may read an -> no
may update ann -> no
may update bob -> yes
may read bob -> no
may delete bob -> yes
may delete dora -> no
may read cat -> yes
may grant cat -> yes
may read nobody -> no
may read web1 -> yes
may read web10 -> no
may read admins -> no
may read dora -> yes
may grant dora -> yes
may update dora -> yes
join ops client web10
may read web10 -> yes
leave ops client web1
may read web10 -> yes
leave ops user web10
may read web10 -> yes
leave ops client web10
may read web10 -> no
join ops user anna
leave ops user ann
may read anna -> yes
leave ops user anna
may read anna -> no
leave admins group team
may read dora -> no
may grant dora -> no
join ops group team
may read dora -> yes
may grant dora -> no
leave ops group team
may read dora -> no
leave none user dora
may update dora -> yes
leave admins user cat
may grant cat -> no
may read cat -> no
come group ops cat/web10/
may read cat -> yes
may read web10 -> yes
may grant cat -> no
may read web1 -> yes
come group ops /web10/
may read cat -> no
go group ops
may read web10 -> no
has group ops -> no
has group team -> yes
has user team -> no
has user an -> no
come user an
has user an -> yes
has client an -> no
go user an
has user an -> no
come client web2
has client web2 -> yes
go client web2
has client web2 -> no
has user dora -> yes
go user dora
has user dora -> no
may update dora -> yes
";

// What a row asks of an organisation, or nothing where it is a change.
fn answer(
    alloc: Global,
    hasher: RandomState,
    groups: &mut Groups,
    acl: &Acl,
    row: &str,
) -> Result<&'static str, NoMemory> {
    let (verb, who) = first_word(row);
    match verb {
        "may" => Ok(answered(may(alloc, groups, acl, who)?)),
        "has" => Ok(answered(has(alloc, groups, who)?)),
        _ => {
            change(alloc, hasher, groups, verb, who)?;
            Ok("")
        }
    }
}

fn add_answers(
    alloc: Global,
    hasher: RandomState,
    told: &mut String,
    groups: &mut Groups,
    acl: &Acl,
) -> Result<(), NoMemory> {
    for row in WHO_MAY.lines() {
        told.push_str(asked(row))?;
        told.push_str(answer(alloc, hasher, groups, acl, asked(row))?)?;
        told.push_str("\n")?;
    }
    Ok(())
}

fn answers(
    alloc: Global,
    hasher: RandomState,
    groups: &mut Groups,
    acl: &Acl,
) -> Result<String, NoMemory> {
    let mut told = String::new(alloc);
    add_answers(alloc, hasher, &mut told, groups, acl)?;
    Ok(told)
}

fn all_answers(
    alloc: Global,
    hasher: RandomState,
    groups: &mut Groups,
) -> Result<String, NoMemory> {
    match acl_of(alloc, ACL) {
        Ok(acl) => answers(alloc, hasher, groups, &acl),
        Err(_) => Err(NoMemory),
    }
}

fn all_told(alloc: Global, hasher: RandomState) -> Result<String, NoMemory> {
    let mut groups = organisation(alloc, hasher)?;
    all_answers(alloc, hasher, &mut groups)
}

#[test]
fn who_may_do_what(rt: HostRuntime) -> Result<(), Fail> {
    belonging_is_decided();
    changes_follow_the_lists();
    permission_is_decided();
    let told = all_told(rt.alloc(), RandomState::new(&rt)?)?;
    assert_eq!(rt; told.as_str(), WHO_MAY);
    Ok(())
}

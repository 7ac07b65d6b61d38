//! What no clause says: that the calls succeed, and that the definitions are those of the product. A table
//! is one text: what is asked stands before an arrow in a row, and what is told behind it.

use access_lists::{
    Acl, AclAt, AclFault, Container, Entry, Perm, access_lists_read_back, acl_tree, read_acl,
    starting_list, whole_acl,
};
use doc_tree::{Bytes, NoMemory, Text, json_text, read_json};
use membership::TextSet;
use std::alloc::Global;
use std::test::Fail;

// What a row asks.
pub(crate) fn asked(row: &str) -> &str {
    match row.split_once(" ->") {
        Some((asked, _)) => asked,
        None => row,
    }
}

// The first word of a text, and what is behind it.
pub(crate) fn first_word(text: &str) -> (&str, &str) {
    match text.split_once(' ') {
        Some(parts) => parts,
        None => (text, ""),
    }
}

pub(crate) fn perm_of(word: &str) -> Perm {
    match word {
        "create" => Perm::Create,
        "read" => Perm::Read,
        "update" => Perm::Update,
        "delete" => Perm::Delete,
        _ => Perm::Grant,
    }
}

pub(crate) fn add_texts(told: &mut String, texts: &TextSet) -> Result<(), NoMemory> {
    for text in texts.as_slice() {
        told.push_str(" ")?;
        told.push_str(text.as_str())?;
    }
    Ok(())
}

// The actors and then the groups of an entry.
fn add_entry(told: &mut String, entry: &Entry) -> Result<(), NoMemory> {
    add_texts(told, &entry.actors)?;
    told.push_str(" /")?;
    add_texts(told, &entry.groups)
}

fn add_read(told: &mut String, read: &Result<Entry, AclFault>) -> Result<(), NoMemory> {
    match read {
        Ok(entry) => add_entry(told, entry),
        Err(AclFault::NotAnAcl) => Ok(told.push_str(" refused")?),
        Err(AclFault::NoMemory) => Err(NoMemory),
    }
}

fn add_body(alloc: Global, told: &mut String, perm: Perm, body: &str) -> Result<(), NoMemory> {
    match read_json(alloc, body.as_bytes()) {
        Ok(tree) => add_read(told, &read_acl(alloc, &tree, perm)),
        Err(_) => Ok(told.push_str(" no JSON")?),
    }
}

// A permission, a body, and the entry that the body gives for it: actors and then groups.
const BODIES: &str =
    r#"create {"create":{"actors":["zoe","ann","zoe"],"groups":["users","admins"]}} -> ann zoe / admins users
read {"read":{"actors":[],"groups":["b","a","b","a","B"]}} -> / B a b
update {"update":{"groups":["z"],"actors":["pivotal","b","a"]}} -> a b pivotal / z
delete {"delete":{"actors":["anna","ann","an"],"groups":[]}} -> an ann anna /
grant {"grant":{"actors":[],"groups":[]}} -> /
read {"grant":{"actors":[],"groups":[]}} -> refused
read {"read":{"actors":[]}} -> refused
read {"read":{"groups":[]}} -> refused
read {"read":{"actors":[],"groups":[]},"name":"web1"} -> refused
read {"read":{"actors":[],"groups":[]},"update":{"actors":[],"groups":[]}} -> refused
read {"read":{"actors":[],"groups":[],"users":[]}} -> refused
read {"read":{"actors":["ann",1],"groups":[]}} -> refused
read {"read":{"actors":[],"groups":["admins",null]}} -> refused
read {"read":{"actors":"ann","groups":[]}} -> refused
read {"read":{"actors":[],"groups":{}}} -> refused
read {"read":["actors","groups"]} -> refused
read ["read"] -> refused
read {} -> refused
read null -> refused
"#;

fn add_row(alloc: Global, told: &mut String, asked: &str) -> Result<(), NoMemory> {
    let (word, body) = first_word(asked);
    write!(told, "{asked} ->")?;
    add_body(alloc, told, perm_of(word), body)?;
    Ok(told.push_str("\n")?)
}

fn bodies(alloc: Global) -> Result<String, NoMemory> {
    let mut told = String::new(alloc);
    for row in BODIES.lines() {
        add_row(alloc, &mut told, asked(row))?;
    }
    Ok(told)
}

#[test]
fn bodies_are_read_or_refused(rt: HostRuntime) -> Result<(), Fail> {
    let told = bodies(rt.alloc())?;
    assert_eq!(rt; told.as_str(), BODIES);
    Ok(())
}

// The body of the list by which is asked who may do what.
pub(crate) const ACL: &str =
    r#"{"read":{"actors":["ann"],"groups":["ops","admins"]},"create":{"actors":[],"groups":[]},"update":{"groups":["team"],"actors":["bob"]},"grant":{"actors":[],"groups":["admins"]},"delete":{"actors":[],"groups":["users"]}}"#;

pub(crate) fn acl_of(alloc: Global, text: &str) -> Result<Acl, AclFault> {
    match read_json(alloc, text.as_bytes()) {
        Ok(tree) => whole_acl(alloc, &tree),
        Err(_) => Err(AclFault::NotAnAcl),
    }
}

fn add_perm(told: &mut String, acl: &Acl, perm: Perm) -> Result<(), NoMemory> {
    told.push_str(" ")?;
    told.push_str(perm.word())?;
    add_entry(told, acl.entry(perm))
}

fn add_acl(told: &mut String, acl: &Acl) -> Result<(), NoMemory> {
    for perm in [
        Perm::Create,
        Perm::Read,
        Perm::Update,
        Perm::Delete,
        Perm::Grant,
    ] {
        add_perm(told, acl, perm)?;
    }
    Ok(())
}

fn add_whole(told: &mut String, read: &Result<Acl, AclFault>) -> Result<(), NoMemory> {
    match read {
        Ok(acl) => add_acl(told, acl),
        Err(AclFault::NotAnAcl) => Ok(told.push_str(" refused")?),
        Err(AclFault::NoMemory) => Err(NoMemory),
    }
}

// The list that the document of a list is read as.
fn back(alloc: Global, acl: &Acl) -> Result<Acl, AclFault> {
    let tree = acl_tree(alloc, AclAt::of(acl))?;
    whole_acl(alloc, &tree)
}

fn without_actor(alloc: Global, acl: &Acl, name: &Text) -> Result<Acl, AclFault> {
    let mut less = acl.copy(alloc)?;
    less.take_actor(name);
    Ok(less)
}

fn without_group(alloc: Global, acl: &Acl, name: &Text) -> Result<Acl, AclFault> {
    let mut less = acl.copy(alloc)?;
    less.take_group(name);
    Ok(less)
}

// What is lent of a list with its creator, and one more actor.
fn created(alloc: Global, acl: &Acl, creator: &Text) -> Result<Acl, AclFault> {
    let more = Text::from_str(alloc, "zoe")?;
    Ok(AclAt::created(Some(creator), acl).with_actor(alloc, &more)?)
}

// A list that is made of `acl`, or that a body is.
fn made(alloc: Global, acl: &Acl, asked: &str) -> Result<Acl, AclFault> {
    let (deed, rest) = first_word(asked);
    match deed {
        "copy" => Ok(acl.copy(alloc)?),
        "back" => back(alloc, acl),
        "with" => Ok(acl.with_actor(alloc, &Text::from_str(alloc, rest)?)?),
        "created" => created(alloc, acl, &Text::from_str(alloc, rest)?),
        "without" => without_actor(alloc, acl, &Text::from_str(alloc, rest)?),
        "ungroup" => without_group(alloc, acl, &Text::from_str(alloc, rest)?),
        _ => acl_of(alloc, rest),
    }
}

// What is made of the list `ACL`, or the list that a body is.
const WHOLE: &str =
    r#"copy it -> create / read ann / admins ops update bob / team delete / users grant / admins
back from its document -> create / read ann / admins ops update bob / team delete / users grant / admins
with ann -> create ann / read ann / admins ops update ann bob / team delete ann / users grant ann / admins
with abe -> create abe / read abe ann / admins ops update abe bob / team delete abe / users grant abe / admins
created abe -> create abe zoe / read abe ann zoe / admins ops update abe bob zoe / team delete abe zoe / users grant abe zoe / admins
without ann -> create / read / admins ops update bob / team delete / users grant / admins
without an -> create / read ann / admins ops update bob / team delete / users grant / admins
ungroup admins -> create / read ann / ops update bob / team delete / users grant /
body {"create":{"actors":["b","a","b"],"groups":[]},"delete":{"actors":[],"groups":["c"]},"grant":{"actors":["e","d"],"groups":[]},"read":{"actors":[],"groups":[]},"update":{"actors":[],"groups":["g","f","g"]}} -> create a b / read / update / f g delete / c grant d e /
body {"create":{"actors":[],"groups":[]},"delete":{"actors":[],"groups":[]},"grant":{"actors":[],"groups":[]},"read":{"actors":[],"groups":[]}} -> refused
body {"create":{"actors":[],"groups":[]},"delete":{"actors":[],"groups":[]},"grant":{"actors":[],"groups":[]},"read":{"actors":[],"groups":[]},"update":{"actors":[]}} -> refused
body {"create":{"actors":[],"groups":[]},"delete":{"actors":[],"groups":[]},"grant":{"actors":[],"groups":[]},"name":"web1","read":{"actors":[],"groups":[]},"update":{"actors":[],"groups":[]}} -> refused
body {"read":{"actors":[],"groups":[]}} -> refused
body [] -> refused
"#;

fn add_whole_of(alloc: Global, told: &mut String, acl: &Acl, asked: &str) -> Result<(), NoMemory> {
    add_whole(told, &made(alloc, acl, asked))
}

fn add_made(alloc: Global, told: &mut String, acl: &Acl, asked: &str) -> Result<(), NoMemory> {
    write!(told, "{asked} ->")?;
    add_whole_of(alloc, told, acl, asked)?;
    Ok(told.push_str("\n")?)
}

fn whole(alloc: Global, acl: &Acl) -> Result<String, NoMemory> {
    let mut told = String::new(alloc);
    for row in WHOLE.lines() {
        add_made(alloc, &mut told, acl, asked(row))?;
    }
    Ok(told)
}

fn whole_told(alloc: Global) -> Result<String, NoMemory> {
    match acl_of(alloc, ACL) {
        Ok(acl) => whole(alloc, &acl),
        Err(_) => Err(NoMemory),
    }
}

// The text of the document of the list `ACL`.
fn whole_text(alloc: Global) -> Result<Bytes, NoMemory> {
    match acl_of(alloc, ACL) {
        Ok(acl) => text_of(alloc, &acl),
        Err(_) => Err(NoMemory),
    }
}

fn text_of(alloc: Global, acl: &Acl) -> Result<Bytes, NoMemory> {
    let tree = acl_tree(alloc, AclAt::of(acl))?;
    json_text(alloc, &tree)
}

#[test]
fn whole_lists_are_made_and_read_back(rt: HostRuntime) -> Result<(), Fail> {
    access_lists_read_back();
    let told = whole_told(rt.alloc())?;
    assert_eq!(rt; told.as_str(), WHOLE);
    Ok(())
}

#[test]
fn the_document_of_a_list_is_its_text(rt: HostRuntime) -> Result<(), Fail> {
    let text = whole_text(rt.alloc())?;
    assert_eq!(rt;
        text.as_slice(),
        r#"{"create":{"actors":[],"groups":[]},"delete":{"actors":[],"groups":["users"]},"grant":{"actors":[],"groups":["admins"]},"read":{"actors":["ann"],"groups":["admins","ops"]},"update":{"actors":["bob"],"groups":["team"]}}"#.as_bytes()
    );
    Ok(())
}

// Who is told to have created the list with one more actor, or the list itself, over the list `ACL`. One who
// is an actor already has created no list that is told.
const CREATORS: &str = "abe -> abe
zoe -> zoe
ann -> another list
 -> nobody
";

fn list_with(alloc: Global, acl: &Acl, name: &str) -> Result<Acl, NoMemory> {
    if name.is_empty() {
        return acl.copy(alloc);
    }
    let name = Text::from_str(alloc, name)?;
    acl.with_actor(alloc, &name)
}

fn add_creator(told: &mut String, creator: &Result<Option<Text>, Acl>) -> Result<(), NoMemory> {
    match creator {
        Ok(Some(name)) => Ok(told.push_str(name.as_str())?),
        Ok(None) => Ok(told.push_str("nobody")?),
        Err(_) => Ok(told.push_str("another list")?),
    }
}

fn add_creators(alloc: Global, told: &mut String, acl: &Acl) -> Result<(), NoMemory> {
    for row in CREATORS.lines() {
        write!(told, "{} -> ", asked(row))?;
        let list = list_with(alloc, acl, asked(row))?;
        add_creator(told, &list.creator_over(acl))?;
        told.push_str("\n")?;
    }
    Ok(())
}

fn creators(alloc: Global, acl: &Acl) -> Result<String, NoMemory> {
    let mut told = String::new(alloc);
    add_creators(alloc, &mut told, acl)?;
    Ok(told)
}

fn creators_told(alloc: Global) -> Result<String, NoMemory> {
    match acl_of(alloc, ACL) {
        Ok(acl) => creators(alloc, &acl),
        Err(_) => Err(NoMemory),
    }
}

#[test]
fn who_created_a_list_is_told(rt: HostRuntime) -> Result<(), Fail> {
    let told = creators_told(rt.alloc())?;
    assert_eq!(rt; told.as_str(), CREATORS);
    Ok(())
}

pub(crate) fn yes_or_no(yes: bool) -> &'static str {
    if yes { " yes" } else { " no" }
}

// The groups that may create, read, update, delete and grant, by their first letters.
fn add_acl_letters(told: &mut String, acl: &Acl) -> Result<(), NoMemory> {
    for perm in [
        Perm::Create,
        Perm::Read,
        Perm::Update,
        Perm::Delete,
        Perm::Grant,
    ] {
        told.push_str(" ")?;
        for group in acl.entry(perm).groups.as_slice() {
            told.push_str(letter(group.as_str()))?;
        }
    }
    Ok(told.push_str("\n")?)
}

// A container, and the letters of its list.
fn add_letters(alloc: Global, told: &mut String, container: Container) -> Result<(), NoMemory> {
    write!(told, "{}:", container.name())?;
    let acl = starting_list(alloc, container)?;
    add_acl_letters(told, &acl)
}

fn letter(group: &str) -> &'static str {
    match group {
        "admins" => "A",
        "clients" => "C",
        "users" => "U",
        _ => "?",
    }
}

fn all_letters(alloc: Global) -> Result<String, NoMemory> {
    let mut told = String::new(alloc);
    for container in Container::all() {
        add_letters(alloc, &mut told, container)?;
    }
    Ok(told)
}

#[test]
fn containers_start_with_their_lists(rt: HostRuntime) -> Result<(), Fail> {
    let told = all_letters(rt.alloc())?;
    assert_eq!(rt;
        told.as_str(),
        "clients: A AU A AU A\n\
         containers: A AU A A A\n\
         cookbook_artifacts: AU ACU AU AU A\n\
         cookbooks: AU ACU AU AU A\n\
         data: AU ACU AU AU A\n\
         environments: AU ACU AU AU A\n\
         groups: A AU A A A\n\
         nodes: ACU ACU AU AU A\n\
         policies: AU ACU AU AU A\n\
         policy_groups: AU ACU AU AU A\n\
         roles: AU ACU AU AU A\n\
         sandboxes: AU AU AU A A\n"
    );
    Ok(())
}

#[test]
fn a_container_is_found_by_its_whole_name(rt: HostRuntime) -> Result<(), Fail> {
    let found = Container::named("policy_groups");
    assert!(rt; found == Some(Container::PolicyGroups) && Container::named("policy").is_none());
    Ok(())
}

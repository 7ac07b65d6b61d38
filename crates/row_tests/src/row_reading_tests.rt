//! What no clause says: that a row of each kind is read, and that the definitions are those of the table of stored rows. A
//! table is one text: the organisation, kind, name and body of a row stand before an arrow, and what is told behind it.
use doc_tree::{Bytes, NoMemory};
use org_rows::Reason;
use org_shelves::Assignments;
use row_reading::{Said, read_row};
use std::alloc::Global;
use std::hash::RandomState;
use std::test::Fail;

const GOOD: &str = r#"acme|org||{"sandboxes":3} -> count 3
acme|node|web1|{"automatic":{},"chef_environment":"_default","chef_type":"node","default":{},"json_class":"Chef::Node","name":"web1","normal":{"big":18446744073709551615,"n":-5},"override":{},"run_list":[]} -> node web1
acme|role|base|{"chef_type":"role","default_attributes":{},"description":"","env_run_lists":{},"json_class":"Chef::Role","name":"base","override_attributes":{},"run_list":["recipe[web]"]} -> role base
acme|environment|prod|{"chef_type":"environment","cookbook_versions":{},"default_attributes":{},"description":"","json_class":"Chef::Environment","name":"prod","override_attributes":{}} -> environment prod
acme|bag|users|{"name":"users"} -> bag users
acme|client|ci|{"name":"ci","validator":false} -> client ci
acme|user|ann|{"name":"ann"} -> user ann
acme|group|ops|{"actors":{"clients":["ci"],"groups":[],"users":["ann","bob"]},"groupname":"ops"} -> group ops
acme|container|nodes|{"name":"nodes"} -> container nodes
acme|item|users/ann|{"id":"ann","shells":["sh",null,{"a":true}]} -> item users/ann
acme|cookbook|web/1.0.0|{"attributes":[],"chef_type":"cookbook_version","cookbook_name":"web","definitions":[],"files":[],"frozen?":false,"json_class":"Chef::CookbookVersion","libraries":[],"metadata":{"dependencies":{},"name":"web","version":"1.0.0"},"name":"web-1.0.0","providers":[],"recipes":[],"resources":[],"root_files":[],"templates":[],"version":"1.0.0"} -> version web 1.0.0
acme|artifact|web/0123456789abcdef0123456789abcdef01234567|{"access":1,"attributes":[],"chef_type":"cookbook_version","definitions":[],"files":[],"frozen?":false,"identifier":"0123456789abcdef0123456789abcdef01234567","json_class":"Chef::CookbookVersion","libraries":[],"metadata":{"dependencies":{},"name":"web","version":"1.0.0"},"name":"web","providers":[],"recipes":[{"checksum":"900150983cd24fb0d6963f7d28e17f72","name":"a","path":"a","specificity":"default"}],"resources":[],"root_files":[],"templates":[],"version":"1.0.0"} -> artifact web 0123456789abcdef0123456789abcdef01234567
acme|policy|base/1|{"cookbook_locks":{"web":{"identifier":"aaaaaaaaaaaaaaaaaaaaaaaaaaaaaaaaaaaaaaaa","version":"1.0.0"}},"default_attributes":{},"name":"base","named_run_lists":{},"override_attributes":{},"revision_id":"1","run_list":["recipe[web]"],"solution_dependencies":{}} -> revision base 1
acme|policy_group|prod|{"policies":{"base":"1","web":"2"}} -> policy group prod, base 1, web 2
acme|acl|node/web1|{"create":{"actors":["ci"],"groups":["admins"]},"delete":{"actors":[],"groups":["admins"]},"grant":{"actors":[],"groups":[]},"read":{"actors":["ann","pivotal"],"groups":["admins","users"]},"update":{"actors":[],"groups":[]}} -> list of node web1
acme|sandbox|0123456789abcdef0123456789abcdef|{"checksums":["0cc175b9c0f1b6a831c399e269772661","900150983cd24fb0d6963f7d28e17f72"]} -> sandbox 0123456789abcdef0123456789abcdef of 2
acme|file|900150983cd24fb0d6963f7d28e17f72|1abc -> file 900150983cd24fb0d6963f7d28e17f72 of 3, committed true
acme|file|900150983cd24fb0d6963f7d28e17f72|0 -> file d41d8cd98f00b204e9800998ecf8427e of 0, committed false
"#;

const BAD: &str =
    r#"acme|nodes|web1|{"automatic":{},"chef_environment":"_default","chef_type":"node","default":{},"json_class":"Chef::Node","name":"web1","normal":{"big":18446744073709551615,"n":-5},"override":{},"run_list":[]} -> kind
acme||web1|{"automatic":{},"chef_environment":"_default","chef_type":"node","default":{},"json_class":"Chef::Node","name":"web1","normal":{"big":18446744073709551615,"n":-5},"override":{},"run_list":[]} -> kind
Acme|nodes|web1|{"automatic":{},"chef_environment":"_default","chef_type":"node","default":{},"json_class":"Chef::Node","name":"web1","normal":{"big":18446744073709551615,"n":-5},"override":{},"run_list":[]} -> kind
Acme|node|web1|{"automatic":{},"chef_environment":"_default","chef_type":"node","default":{},"json_class":"Chef::Node","name":"web1","normal":{"big":18446744073709551615,"n":-5},"override":{},"run_list":[]} -> name
|org||{"sandboxes":3} -> name
acme|org|acme|{"sandboxes":3} -> name
acme|node|a/b|{"automatic":{},"chef_environment":"_default","chef_type":"node","default":{},"json_class":"Chef::Node","name":"web1","normal":{"big":18446744073709551615,"n":-5},"override":{},"run_list":[]} -> name
acme|role||{"automatic":{},"chef_environment":"_default","chef_type":"node","default":{},"json_class":"Chef::Node","name":"web1","normal":{"big":18446744073709551615,"n":-5},"override":{},"run_list":[]} -> name
acme|environment|a b|{"automatic":{},"chef_environment":"_default","chef_type":"node","default":{},"json_class":"Chef::Node","name":"web1","normal":{"big":18446744073709551615,"n":-5},"override":{},"run_list":[]} -> name
acme|bag|é|{"name":"é"} -> name
acme|client|pivotal|{"name":"pivotal","validator":false} -> name
acme|user|pivotal|{"name":"pivotal"} -> name
acme|group||{} -> name
acme|container|node|{"name":"node"} -> name
acme|item|users|{"id":"users"} -> name
acme|item|users/_acl|{"id":"_acl"} -> name
acme|cookbook|web/1.0|{"attributes":[],"chef_type":"cookbook_version","cookbook_name":"web","definitions":[],"files":[],"frozen?":false,"json_class":"Chef::CookbookVersion","libraries":[],"metadata":{"dependencies":{},"name":"web","version":"1.0.0"},"name":"web-1.0.0","providers":[],"recipes":[],"resources":[],"root_files":[],"templates":[],"version":"1.0.0"} -> name
acme|cookbook|web|{"attributes":[],"chef_type":"cookbook_version","cookbook_name":"web","definitions":[],"files":[],"frozen?":false,"json_class":"Chef::CookbookVersion","libraries":[],"metadata":{"dependencies":{},"name":"web","version":"1.0.0"},"name":"web-1.0.0","providers":[],"recipes":[],"resources":[],"root_files":[],"templates":[],"version":"1.0.0"} -> name
acme|artifact|web/0123456789abcdef0123456789abcdef|{"access":1,"attributes":[],"chef_type":"cookbook_version","definitions":[],"files":[],"frozen?":false,"identifier":"0123456789abcdef0123456789abcdef01234567","json_class":"Chef::CookbookVersion","libraries":[],"metadata":{"dependencies":{},"name":"web","version":"1.0.0"},"name":"web","providers":[],"recipes":[{"checksum":"900150983cd24fb0d6963f7d28e17f72","name":"a","path":"a","specificity":"default"}],"resources":[],"root_files":[],"templates":[],"version":"1.0.0"} -> name
acme|policy|base|{"cookbook_locks":{"web":{"identifier":"aaaaaaaaaaaaaaaaaaaaaaaaaaaaaaaaaaaaaaaa","version":"1.0.0"}},"default_attributes":{},"name":"base","named_run_lists":{},"override_attributes":{},"revision_id":"1","run_list":["recipe[web]"],"solution_dependencies":{}} -> name
acme|policy_group|a/b|{"policies":{}} -> name
acme|acl|nodes/web1|{"create":{"actors":["ci"],"groups":["admins"]},"delete":{"actors":[],"groups":["admins"]},"grant":{"actors":[],"groups":[]},"read":{"actors":["ann","pivotal"],"groups":["admins","users"]},"update":{"actors":[],"groups":[]}} -> name
acme|acl|node/web1/1|{"create":{"actors":["ci"],"groups":["admins"]},"delete":{"actors":[],"groups":["admins"]},"grant":{"actors":[],"groups":[]},"read":{"actors":["ann","pivotal"],"groups":["admins","users"]},"update":{"actors":[],"groups":[]}} -> name
acme|sandbox|0123456789ABCDEF0123456789ABCDEF|{"checksums":[]} -> name
acme|file|0123456789abcdef0123456789abcdef01234567|1abc -> name
acme|org||{"sandboxes":-1} -> body
acme|org||{"sandboxes": 3} -> body
acme|org||{"sandboxes":18446744073709551616} -> body
acme|org||3 -> body
acme|node|web2|{"automatic":{},"chef_environment":"_default","chef_type":"node","default":{},"json_class":"Chef::Node","name":"web1","normal":{"big":18446744073709551615,"n":-5},"override":{},"run_list":[]} -> body
acme|node|web1|{"automatic":{},"chef_environment":"_default","chef_type":"node","default":{},"json_class":"Chef::Node","name":"web1","normal":{"big":18446744073709551615,"n":-5},"run_list":[]} -> body
acme|node|web1|{"automatic":{},"chef_environment":"_default","chef_type":"node","default":{},"json_class":"Chef::Node","name":"web1","normal":{"big":18446744073709551615,"n":-5.0},"override":{},"run_list":[]} -> body
acme|node|web1|{"automatic":{},"chef_environment":"_default","chef_type":"node","default":{},"json_class":"Chef::Node","name":"web1","normal":{"big":18446744073709551615,"n":-05},"override":{},"run_list":[]} -> body
acme|node|web1|{"automatic":{},"chef_environment":"_default","chef_type":"node","default":{},"json_class":"Chef::Node","name":"web1","normal":{"big":18446744073709551615,"n":-5},"override":{},"run_list":[] -> body
acme|node|web1|{"automatic":{},"chef_environment":"_default","chef_type":"node","default":{},"json_class":"Chef::Node","name":"web1","normal":{"big":18446744073709551615,"n":-5},"override":{},"run_list":[]}{} -> body
acme|role|base|null -> body
acme|environment|prod|{"name":"prod"} -> body
acme|bag|users|{"id":"users","name":"users"} -> body
acme|client|ci|{"validator":false,"name":"ci"} -> body
acme|user|ann|{"name":"bob"} -> body
acme|group|ops|{"actors":{"clients":["ci"],"groups":[],"users":["bob","ann"]},"groupname":"ops"} -> body
acme|group|ops|{"actors":{"clients":["ci","ci"],"groups":[],"users":[]},"groupname":"ops"} -> body
acme|group|ops|{"actors":{"clients":[],"groups":[],"users":[]},"groupname":"dev"} -> body
acme|container|nodes| -> body
acme|item|users/ann|{"id":"bob"} -> body
acme|item|users/ann|{"id":"ann","id":"ann"} -> body
acme|cookbook|web/1.0.1|{"attributes":[],"chef_type":"cookbook_version","cookbook_name":"web","definitions":[],"files":[],"frozen?":false,"json_class":"Chef::CookbookVersion","libraries":[],"metadata":{"dependencies":{},"name":"web","version":"1.0.0"},"name":"web-1.0.0","providers":[],"recipes":[],"resources":[],"root_files":[],"templates":[],"version":"1.0.0"} -> body
acme|cookbook|web/1.0.0|{"attributes":[],"chef_type":"cookbook_version","cookbook_name":"web","definitions":[],"files":[],"json_class":"Chef::CookbookVersion","libraries":[],"metadata":{"dependencies":{},"name":"web","version":"1.0.0"},"name":"web-1.0.0","providers":[],"recipes":[],"resources":[],"root_files":[],"templates":[],"version":"1.0.0"} -> body
acme|artifact|db/0123456789abcdef0123456789abcdef01234567|{"access":1,"attributes":[],"chef_type":"cookbook_version","definitions":[],"files":[],"frozen?":false,"identifier":"0123456789abcdef0123456789abcdef01234567","json_class":"Chef::CookbookVersion","libraries":[],"metadata":{"dependencies":{},"name":"web","version":"1.0.0"},"name":"web","providers":[],"recipes":[{"checksum":"900150983cd24fb0d6963f7d28e17f72","name":"a","path":"a","specificity":"default"}],"resources":[],"root_files":[],"templates":[],"version":"1.0.0"} -> body
acme|policy|base/2|{"cookbook_locks":{"web":{"identifier":"aaaaaaaaaaaaaaaaaaaaaaaaaaaaaaaaaaaaaaaa","version":"1.0.0"}},"default_attributes":{},"name":"base","named_run_lists":{},"override_attributes":{},"revision_id":"1","run_list":["recipe[web]"],"solution_dependencies":{}} -> body
acme|policy|web/1|{"cookbook_locks":{"web":{"identifier":"aaaaaaaaaaaaaaaaaaaaaaaaaaaaaaaaaaaaaaaa","version":"1.0.0"}},"default_attributes":{},"name":"base","named_run_lists":{},"override_attributes":{},"revision_id":"1","run_list":["recipe[web]"],"solution_dependencies":{}} -> body
acme|policy_group|prod|{"policies":{"base":1}} -> body
acme|policy_group|prod|{"policies":{"web":"2","base":"1"}} -> body
acme|acl|node/web1|{"create":{"actors":["ci"],"groups":["admins"]},"delete":{"actors":[],"groups":["admins"]},"grant":{"actors":[],"groups":[]},"read":{"actors":["pivotal","ann"],"groups":["admins","users"]},"update":{"actors":[],"groups":[]}} -> body
acme|acl|node/web1|{"create":{"actors":[],"groups":[]}} -> body
acme|sandbox|0123456789abcdef0123456789abcdef|{"checksums":["abc"]} -> body
acme|sandbox|0123456789abcdef0123456789abcdef|{"checksums":["900150983cd24fb0d6963f7d28e17f72","0cc175b9c0f1b6a831c399e269772661"]} -> body
acme|file|900150983cd24fb0d6963f7d28e17f72|2abc -> body
acme|file|900150983cd24fb0d6963f7d28e17f72| -> body
"#;

// What a row asks.
fn asked(row: &str) -> &str {
    match row.split_once(" ->") {
        Some((asked, _)) => asked,
        None => row,
    }
}

// The text before a bar, and what is behind it.
fn front(text: &str) -> (&str, &str) {
    match text.split_once('|') {
        Some(parts) => parts,
        None => (text, ""),
    }
}

fn read(alloc: Global, hasher: RandomState, asked: &str) -> Result<Result<Said, Reason>, NoMemory> {
    let (org, rest) = front(asked);
    let (kind, rest) = front(rest);
    let (name, body) = front(rest);
    let body = Bytes::from_slice(alloc, body.as_bytes())?;
    read_row(alloc, hasher, org, kind, name, body)
}

fn add_assigned(told: &mut String, assigned: &Assignments) -> Result<(), NoMemory> {
    for (policy, revision) in assigned.entries() {
        write!(told, ", {policy} {revision}")?;
    }
    Ok(())
}

// What is said, in words.
fn add_said(told: &mut String, said: &Said) -> Result<(), NoMemory> {
    match said {
        Said::Count(count) => Ok(write!(told, "count {count}")?),
        Said::Object(key, _) => Ok(write!(told, "{} {}", key.kind.word(), key.name)?),
        Said::User(name) => Ok(write!(told, "user {name}")?),
        Said::Group(name, _) => Ok(write!(told, "group {name}")?),
        Said::Container(name) => Ok(write!(told, "container {name}")?),
        Said::Version(name, version, _) => Ok(write!(told, "version {name} {version}")?),
        Said::Artifact(name, id, _) => Ok(write!(told, "artifact {name} {id}")?),
        Said::Revision(policy, id, _) => Ok(write!(told, "revision {policy} {id}")?),
        Said::PolicyGroup(name, assigned) => {
            write!(told, "policy group {name}")?;
            add_assigned(told, assigned)
        }
        Said::List(key, _) => Ok(write!(told, "list of {} {}", key.kind.word(), key.name)?),
        Said::Sandbox(id, sums) => {
            Ok(write!(told, "sandbox {id} of {}", sums.as_slice().len())?)
        }
        Said::File(file, committed) => Ok(write!(
            told,
            "file {} of {}, committed {committed}",
            file.digest(),
            file.len()
        )?),
    }
}

fn reason_word(reason: Reason) -> &'static str {
    match reason {
        Reason::Kind => "kind",
        Reason::Name => "name",
        Reason::Body => "body",
        Reason::Shard => "shard",
        Reason::Reference => "reference",
        Reason::Digest => "digest",
    }
}

fn add_read(told: &mut String, read: Result<Said, Reason>) -> Result<(), NoMemory> {
    match read {
        Ok(said) => {
            let added = add_said(told, &said);
            drop(said);
            added
        }
        Err(reason) => Ok(told.push_str(reason_word(reason))?),
    }
}

fn add_row(
    alloc: Global,
    hasher: RandomState,
    told: &mut String,
    asked: &str,
) -> Result<(), NoMemory> {
    write!(told, "{asked} -> ")?;
    add_read(told, read(alloc, hasher, asked)?)?;
    Ok(told.push_str("\n")?)
}

fn all_told(alloc: Global, hasher: RandomState, rows: &str) -> Result<String, NoMemory> {
    let mut told = String::new(alloc);
    for row in rows.lines() {
        add_row(alloc, hasher, &mut told, asked(row))?;
    }
    Ok(told)
}

#[test]
fn rows_of_each_kind_are_read(rt: HostRuntime) -> Result<(), Fail> {
    let told = all_told(rt.alloc(), RandomState::new(&rt)?, GOOD)?;
    assert_eq!(rt; told.as_str(), GOOD);
    Ok(())
}

#[test]
fn bad_rows_are_told_with_the_first_reason(rt: HostRuntime) -> Result<(), Fail> {
    let told = all_told(rt.alloc(), RandomState::new(&rt)?, BAD)?;
    assert_eq!(rt; told.as_str(), BAD);
    Ok(())
}

// An item with so many lists in one another.
fn deep_row(alloc: Global, depth: usize) -> Result<String, NoMemory> {
    let mut row = String::new(alloc);
    row.push_str(r#"acme|item|users/ann|{"deep":"#)?;
    for _ in 0..depth {
        row.push_str("[")?;
    }
    for _ in 0..depth {
        row.push_str("]")?;
    }
    row.push_str(r#","id":"ann"}"#)?;
    Ok(row)
}

fn deep_told(alloc: Global, hasher: RandomState, depth: usize) -> Result<String, NoMemory> {
    let row = deep_row(alloc, depth)?;
    let mut told = String::new(alloc);
    add_read(&mut told, read(alloc, hasher, row.as_str())?)?;
    Ok(told)
}

#[test]
fn deep_documents_are_read(rt: HostRuntime) -> Result<(), Fail> {
    let told = deep_told(rt.alloc(), RandomState::new(&rt)?, 300)?;
    assert_eq!(rt; told.as_str(), "item users/ann");
    Ok(())
}

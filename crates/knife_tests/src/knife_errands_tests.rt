// The rows of the table of words: the request that each makes, and what is printed of a reply.
use doc_tree::{Bytes, NoMemory, Text};
use knife_errands::{
    BodyFault, Errand, FileFault, FileKind, KnifeFault, RunListChange, Sent, Step, changed_request,
    node_request, printed, printed_items, read_words, request_of, sent_of,
};
use peer_wire::{Ask, Whom};
use std::alloc::Global;
use std::str;
use std::test::Fail;

// Words with a bar between two, the request, the body of a reply, and what is printed of it.
const ROWS: [(&str, &str, &str, &str); 38] = [
    (
        "node|list",
        "GET /organizations/acme/nodes ",
        r#"{"web2":"u","web1":7}"#,
        "web1\nweb2\n",
    ),
    ("role|list", "GET /organizations/acme/roles ", "{}", ""),
    (
        "environment|list",
        "GET /organizations/acme/environments ",
        r#"{"prod":""}"#,
        "prod\n",
    ),
    (
        "client|list",
        "GET /organizations/acme/clients ",
        r#"{"c":""}"#,
        "c\n",
    ),
    (
        "group|list",
        "GET /organizations/acme/groups ",
        r#"{"admins":""}"#,
        "admins\n",
    ),
    (
        "node|list",
        "GET /organizations/acme/nodes ",
        "[]",
        "malformed",
    ),
    (
        "node|list",
        "GET /organizations/acme/nodes ",
        "{",
        "malformed",
    ),
    (
        "data|bag|list",
        "GET /organizations/acme/data ",
        r#"{"keys":""}"#,
        "keys\n",
    ),
    (
        "data|bag|show|keys",
        "GET /organizations/acme/data/keys ",
        r#"{"b":"","a":""}"#,
        "a\nb\n",
    ),
    (
        "data|bag|show|keys|al",
        "GET /organizations/acme/data/keys/al ",
        r#"{"uid":7,"id":"al"}"#,
        "id: al\nuid: 7\n",
    ),
    (
        "user|list",
        "GET /organizations/acme/users ",
        r#"[{"user":{"username":"bob"}},{"user":{"username":"al"}}]"#,
        "bob\nal\n",
    ),
    (
        "user|list",
        "GET /organizations/acme/users ",
        "{}",
        "malformed",
    ),
    (
        "user|list",
        "GET /organizations/acme/users ",
        r#"[{"user":"bob"}]"#,
        "malformed",
    ),
    (
        "cookbook|list",
        "GET /organizations/acme/cookbooks ",
        r#"{"ntp":{"url":"","versions":[{"version":"2.0.0"},{"version":"1.0.0"}]},"apt":{"versions":[{"version":"0.1.0"}]}}"#,
        "apt 0.1.0\nntp 2.0.0\nntp 1.0.0\n",
    ),
    (
        "cookbook|list",
        "GET /organizations/acme/cookbooks ",
        r#"{"a":{"versions":[]}}"#,
        "",
    ),
    (
        "cookbook|list",
        "GET /organizations/acme/cookbooks ",
        r#"{"a":{}}"#,
        "malformed",
    ),
    (
        "cookbook|list",
        "GET /organizations/acme/cookbooks ",
        r#"{"a":{"versions":[{"version":1}]}}"#,
        "malformed",
    ),
    (
        "cookbook|show|ntp|1.0.0",
        "GET /organizations/acme/cookbooks/ntp/1.0.0 ",
        r#"{"name":"ntp-1.0.0"}"#,
        "name: ntp-1.0.0\n",
    ),
    (
        "cookbook|delete|ntp|1.0.0",
        "DELETE /organizations/acme/cookbooks/ntp/1.0.0 ",
        "",
        "Deleted cookbook[ntp version 1.0.0]\n",
    ),
    (
        "node|show|web1",
        "GET /organizations/acme/nodes/web1 ",
        r#"{"run_list":["recipe[ntp]"],"name":"web1"}"#,
        "name: web1\nrun_list:\n  - \"recipe[ntp]\"\n",
    ),
    (
        "group|show|admins",
        "GET /organizations/acme/groups/admins ",
        "1.5",
        "malformed",
    ),
    (
        "node|create|web1",
        r#"POST /organizations/acme/nodes {"name":"web1"}"#,
        "[]",
        "Created node[web1]\n",
    ),
    (
        "client|create|c",
        r#"POST /organizations/acme/clients {"name":"c"}"#,
        "",
        "Created client[c]\n",
    ),
    (
        "data|bag|create|keys",
        r#"POST /organizations/acme/data {"name":"keys"}"#,
        "",
        "Created data_bag[keys]\n",
    ),
    (
        "node|delete|a b/ü",
        "DELETE /organizations/acme/nodes/a%20b%2F%C3%BC ",
        "",
        "Deleted node[a b/ü]\n",
    ),
    (
        "role|delete|A~z_-.:9",
        "DELETE /organizations/acme/roles/A%7Ez_-.:9 ",
        "",
        "Deleted role[A~z_-.:9]\n",
    ),
    (
        "environment|delete|e",
        "DELETE /organizations/acme/environments/e ",
        "",
        "Deleted environment[e]\n",
    ),
    (
        "client|delete|c",
        "DELETE /organizations/acme/clients/c ",
        "",
        "Deleted client[c]\n",
    ),
    (
        "data|bag|delete|keys",
        "DELETE /organizations/acme/data/keys ",
        "",
        "Deleted data_bag[keys]\n",
    ),
    (
        "search|node|name:web* AND os:linux",
        "GET /organizations/acme/search/node?q=name%3Aweb*+AND+os%3Alinux ",
        r#"{"rows":[{"name":"web2"},{"name":"web1"}],"start":0,"total":12}"#,
        "12 items found\nweb2\nweb1\n",
    ),
    (
        "search|keys|*:*",
        "GET /organizations/acme/search/keys?q=*%3A* ",
        r#"{"rows":[{"id":"al","name":"no"}],"total":1}"#,
        "1 items found\nal\n",
    ),
    (
        "search|node|",
        "GET /organizations/acme/search/node?q= ",
        r#"{"rows":[],"total":-1}"#,
        "malformed",
    ),
    (
        "search|role|a",
        "GET /organizations/acme/search/role?q=a ",
        r#"{"total":0}"#,
        "malformed",
    ),
    (
        "search|role|a",
        "GET /organizations/acme/search/role?q=a ",
        r#"{"rows":[{"id":"a"}],"total":1}"#,
        "malformed",
    ),
    (
        "raw|nodes/web1",
        "GET /organizations/acme/nodes/web1 ",
        "{}",
        "{}\n",
    ),
    (
        "raw|/organizations",
        "GET /organizations ",
        "not JSON",
        "not JSON\n",
    ),
    (
        "raw|search/node?q=a b\"é%20#[",
        "GET /organizations/acme/search/node?q=a%20b%22%C3%A9%20%23%5B ",
        "",
        "\n",
    ),
    ("raw|", "GET /organizations/acme/ ", "", "\n"),
];

// Words without a row.
const REFUSED: [&str; 30] = [
    "node",
    "nodes|list",
    "node|frob",
    "node|list|a",
    "node|show",
    "node|show|a|b",
    "role|create|a",
    "environment|create|a",
    "group|create|a",
    "group|delete|a",
    "node|from|file|f",
    "client|from|file|f",
    "role|from|f",
    "role|from|file",
    "role|from|file|f|g",
    "role|run_list|add|a|b",
    "node|run_list|set|a|b",
    "node|run_list|add|a",
    "node|run_list|add|a|b|c",
    "data",
    "data|list",
    "data|bag",
    "data|bag|delete|a|b",
    "data|bag|from|file|f",
    "user|show|a",
    "cookbook|show|a",
    "cookbook|upload|d",
    "search|node",
    "raw",
    "policy|lock|f",
];

// The item's words behind `node run_list`, the body of a node, the body that is put, and the items of it.
const RUN_LISTS: [(&str, &str, &str, &str); 9] = [
    (
        "node|run_list|add|web1|ntp",
        r#"{"run_list":["recipe[apt]"],"name":"web1"}"#,
        r#"PUT /organizations/acme/nodes/web1 {"name":"web1","run_list":["recipe[apt]","recipe[ntp]"]}"#,
        "recipe[apt]\nrecipe[ntp]\n",
    ),
    (
        "node|run_list|add|web1|apt",
        r#"{"run_list":["recipe[apt]","role[a]"]}"#,
        r#"PUT /organizations/acme/nodes/web1 {"run_list":["recipe[apt]","role[a]"]}"#,
        "recipe[apt]\nrole[a]\n",
    ),
    (
        "node|run_list|add|web1|role[web]",
        r#"{"run_list":[]}"#,
        r#"PUT /organizations/acme/nodes/web1 {"run_list":["role[web]"]}"#,
        "role[web]\n",
    ),
    (
        "node|run_list|add|w b|no item!",
        r#"{"run_list":[]}"#,
        r#"PUT /organizations/acme/nodes/w%20b {"run_list":["no item!"]}"#,
        "malformed",
    ),
    (
        "node|run_list|remove|web1|apt",
        r#"{"run_list":["role[a]","recipe[apt]","recipe[apt::x]"]}"#,
        r#"PUT /organizations/acme/nodes/web1 {"run_list":["role[a]","recipe[apt::x]"]}"#,
        "role[a]\nrecipe[apt::x]\n",
    ),
    (
        "node|run_list|remove|web1|recipe[none]",
        r#"{"run_list":["role[a]"]}"#,
        r#"PUT /organizations/acme/nodes/web1 {"run_list":["role[a]"]}"#,
        "role[a]\n",
    ),
    ("node|run_list|add|web1|a", "{}", "malformed", "malformed"),
    (
        "node|run_list|add|web1|a",
        r#"{"run_list":["a b"]}"#,
        "malformed",
        "malformed",
    ),
    ("node|run_list|add|web1|a", "[", "malformed", "malformed"),
];

// Words, a file, what is put, what is posted, and the line.
const FILES: [(&str, &str, &str); 8] = [
    (
        "role|from|file|f",
        r#"{ "run_list": ["ntp"], "name": "web" }"#,
        r#"PUT /organizations/acme/roles/web {"name":"web","run_list":["ntp"]}, POST /organizations/acme/roles {"name":"web","run_list":["ntp"]}, Updated role[web]"#,
    ),
    (
        "environment|from|file|f",
        r#"{"name":"prod"}"#,
        r#"PUT /organizations/acme/environments/prod {"name":"prod"}, POST /organizations/acme/environments {"name":"prod"}, Updated environment[prod]"#,
    ),
    (
        "data|bag|from|file|keys|f",
        r#"{"id":"al","name":"no"}"#,
        r#"PUT /organizations/acme/data/keys/al {"id":"al","name":"no"}, POST /organizations/acme/data/keys {"id":"al","name":"no"}, Updated data_bag_item[keys::al]"#,
    ),
    ("role|from|file|f", r#"{"id":"web"}"#, "bad file"),
    ("role|from|file|f", r#"{"name":"a b"}"#, "bad file"),
    ("role|from|file|f", r#"["name"]"#, "bad file"),
    ("role|from|file|f", r#"{"name":"web","n":1.5}"#, "bad file"),
    ("data|bag|from|file|keys|f", r#"{"name":"al"}"#, "bad file"),
];

fn words_of(alloc: Global, line: &str) -> Result<Vec<Text>, NoMemory> {
    let mut words = Vec::new(alloc);
    for word in line.split('|') {
        words.push(Text::from_str(alloc, word)?)?;
    }
    Ok(words)
}

fn whom(alloc: Global) -> Result<Whom, NoMemory> {
    let org = Text::from_str(alloc, "acme")?;
    let caller = Text::from_str(alloc, "pivotal")?;
    let host = Text::from_str(alloc, "localhost")?;
    Ok(Whom {
        org,
        caller,
        host,
        port: 80,
    })
}

fn text_in(bytes: &Bytes) -> &str {
    match str::from_utf8(bytes.as_slice()) {
        Ok(text) => text,
        Err(_) => "no text",
    }
}

fn asked(alloc: Global, ask: &Ask) -> Result<String, NoMemory> {
    let verb = ask.verb.as_str();
    let target = ask.target.as_str();
    let body = text_in(&ask.body);
    Ok(format!(in alloc; "{verb} {target} {body}")?)
}

fn told(alloc: Global, outcome: Result<Bytes, BodyFault>) -> Result<String, NoMemory> {
    match outcome {
        Ok(bytes) => Ok(String::from_str(alloc, text_in(&bytes))?),
        Err(BodyFault::Malformed) => Ok(String::from_str(alloc, "malformed")?),
        Err(BodyFault::NoMemory) => Err(NoMemory),
    }
}

fn of_step(alloc: Global, step: &Step, body: &str) -> Result<String, NoMemory> {
    let ask = request_of(alloc, step, &whom(alloc)?)?;
    let request = asked(alloc, &ask)?;
    let reply = Bytes::from_slice(alloc, body.as_bytes())?;
    let lines = told(alloc, printed(alloc, step, &reply))?;
    Ok(format!(in alloc; "{request}, {lines}")?)
}

fn of_words(alloc: Global, line: &str, body: &str) -> Result<String, NoMemory> {
    let words = words_of(alloc, line)?;
    match read_words(alloc, words.as_slice()) {
        Ok(Errand::One(step)) => of_step(alloc, &step, body),
        Ok(Errand::RunList { node, change, item }) => of_run_list(
            alloc, &node, change, &item, body,
        ),
        Ok(Errand::FromFile(kind, _)) => of_file(alloc, &kind, body),
        Err(KnifeFault::NotACommand) => Ok(String::from_str(alloc, "none")?),
        Err(KnifeFault::NoMemory) => Err(NoMemory),
    }
}

fn of_run_list(
    alloc: Global,
    node: &Text,
    change: RunListChange,
    item: &Text,
    body: &str,
) -> Result<String, NoMemory> {
    let whom = whom(alloc)?;
    let reply = Bytes::from_slice(alloc, body.as_bytes())?;
    match changed_request(alloc, node, change, item, &whom, &reply) {
        Ok(ask) => {
            let request = asked(alloc, &ask)?;
            let lines = told(alloc, printed_items(alloc, &ask.body))?;
            Ok(format!(in alloc; "{request}, {lines}")?)
        }
        Err(BodyFault::Malformed) => Ok(String::from_str(alloc, "malformed, malformed")?),
        Err(BodyFault::NoMemory) => Err(NoMemory),
    }
}

fn of_file(alloc: Global, kind: &FileKind, file: &str) -> Result<String, NoMemory> {
    let bytes = Bytes::from_slice(alloc, file.as_bytes())?;
    match sent_of(alloc, kind, &whom(alloc)?, &bytes) {
        Ok(Sent { put, post, line }) => {
            let put = asked(alloc, &put)?;
            let post = asked(alloc, &post)?;
            Ok(format!(in alloc; "{put}, {post}, {}", text_in(&line))?)
        }
        Err(FileFault::BadFile) => Ok(String::from_str(alloc, "bad file")?),
        Err(FileFault::NoMemory) => Err(NoMemory),
    }
}

#[test]
fn answers_each_row_of_one_request(rt: HostRuntime) -> Result<(), Fail> {
    let alloc = rt.alloc();
    for (line, request, body, lines) in &ROWS {
        let told = of_words(alloc, line, body)?;
        let expected = format!(in alloc; "{request}, {lines}")?;
        assert!(rt; told.as_str() == expected.as_str(), "{line}: {told}");
    }
    Ok(())
}

#[test]
fn refuses_words_without_a_row(rt: HostRuntime) -> Result<(), Fail> {
    let alloc = rt.alloc();
    for line in &REFUSED {
        let told = of_words(alloc, line, "{}")?;
        assert!(rt; told.as_str() == "none", "{line}: {told}");
    }
    let none = read_words(alloc, &[]).err();
    assert!(rt; none == Some(KnifeFault::NotACommand), "no words");
    Ok(())
}

#[test]
fn changes_a_run_list(rt: HostRuntime) -> Result<(), Fail> {
    let alloc = rt.alloc();
    let asks = asked(
        alloc,
        &node_request(alloc, &Text::from_str(alloc, "web1")?, &whom(alloc)?)?,
    )?;
    assert!(rt;
        asks.as_str() == "GET /organizations/acme/nodes/web1 ",
        "{asks}"
    );
    for (line, body, request, items) in &RUN_LISTS {
        let told = of_words(alloc, line, body)?;
        let expected = format!(in alloc; "{request}, {items}")?;
        assert!(rt; told.as_str() == expected.as_str(), "{line}: {told}");
    }
    Ok(())
}

#[test]
fn sends_a_file(rt: HostRuntime) -> Result<(), Fail> {
    let alloc = rt.alloc();
    for (line, file, sent) in &FILES {
        let told = of_words(alloc, line, file)?;
        assert!(rt; told.as_str().trim_end() == *sent, "{line}: {told}");
    }
    Ok(())
}

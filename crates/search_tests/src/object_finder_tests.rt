//! What queries find among worked objects.
ghost use Rattle.std.specs.Prelude.{◌≡◌, ◌<◌};

use compact_json::CompactJson;
use doc_tree::{Kind, NoMemory, Steps, Text, Texts, read_json};
use object_finder::{Index, find, names_of};
use object_store::{Key, Objects};
use query_text::{Query, read_query};
use std::alloc::Global;
use std::hash::RandomState;
use std::marker::Brand;
use std::sync::ledger::{Blank, Ledger};
use std::test::Fail;

// Objects: each with its kind and name.
const OBJECTS: &str =
    r#"node web2 {"name":"web2","normal":{"tier":"front","cpus":4},"run_list":["role[web]"]}
node db1 {"name":"db1","normal":{"tier":"back","cpus":16},"run_list":["recipe[postgres]"]}
node web1 {"name":"web1","normal":{"tier":"front","cpus":8},"run_list":["role[web]"]}
role web {"name":"web","tier":"front","run_list":["recipe[nginx]"]}
role db1 {"name":"db1","normal":{"tier":"back"}}
environment prod {"name":"prod","tier":"front"}
client ann {"name":"ann","validator":false}
bag users {"name":"users","tier":"front"}
item users/zoe {"id":"zoe","shell":"zsh"}
item users/ann {"id":"ann","shell":"bash"}
item users/bob/c {"id":"bob/c","shell":"bash"}
item keys/ann {"id":"ann","shell":"none"}
"#;

// An index and a query, and the names of the objects that it finds: worked by hand from the rules.
const QUERIES: &str = r#"nodes *:* => db1 web1 web2
nodes tier:front => web1 web2
nodes normal_tier:front => 
nodes role:web AND cpus:4 => web2
nodes NOT tier:front => db1
nodes recipe:nginx => 
nodes name:web? => web1 web2
nodes NOT *:* => 
roles *:* => db1 web
roles tier:front => web
roles normal_tier:back => db1
roles recipe:nginx => 
roles run_list:*nginx* => web
environments tier:* => prod
clients *:* => ann
clients validator:false => ann
clients validator:true => 
users *:* => ann bob/c zoe
users shell:bash => ann bob/c
users NOT shell:bash => zoe
users tier:front => 
keys id:ann => ann
nobodies *:* => 
nodes id:ann => 
"#;

fn split(text: &str) -> (&str, &str) {
    text.split_once(' ').unwrap_or((text, ""))
}

fn kind_of(word: &str) -> Kind {
    match word {
        "node" => Kind::Node,
        "role" => Kind::Role,
        "environment" => Kind::Environment,
        "client" => Kind::Client,
        "bag" => Kind::Bag,
        _ => Kind::Item,
    }
}

fn index_of(alloc: Global, word: &str) -> Result<Index, NoMemory> {
    match word {
        "nodes" => Ok(Index::Nodes),
        "roles" => Ok(Index::Roles),
        "environments" => Ok(Index::Environments),
        "clients" => Ok(Index::Clients),
        _ => Ok(Index::Bag(Text::from_str(alloc, word)?)),
    }
}

fn put(alloc: Global, objects: &mut Objects, line: &str) -> Result<(), Fail> {
    let (kind, rest) = split(line);
    let (name, text) = split(rest);
    let kind = kind_of(kind);
    let name = Text::from_str(alloc, name)?;
    let object = CompactJson::of(alloc, &read_json(alloc, text.as_bytes())?)?;
    objects.reserve(1)?;
    objects.put(Key { kind, name }, object);
    Ok(())
}

fn fill(alloc: Global, objects: &mut Objects) -> Result<(), Fail> {
    for line in OBJECTS.lines() {
        put(alloc, objects, line)?;
    }
    Ok(())
}

fn found<L: Ledger>(
    alloc: Global,
    objects: &Objects,
    index: &Index,
    query: &Query,
    blank: Blank,
) -> Result<Texts, NoMemory>
    requires name { blank.name ≡ L.name }
    requires parts { blank.parts ≡ L.parts }
    requires some { 0 < L.parts }
{
    let mut steps: Steps<L> = Steps::begin(blank);
    find(alloc, objects, index, query, &mut steps)
}

fn found_by(
    alloc: Global,
    objects: &Objects,
    index: &Index,
    query: &Query,
) -> Result<Texts, NoMemory> {
    found::<Brand>(alloc, objects, index, query, Blank::new(1))
}

fn joined(alloc: Global, names: &Texts) -> Result<String, NoMemory> {
    let mut told = String::new(alloc);
    for name in names.as_slice() {
        if !told.is_empty() {
            told.push_str(" ")?;
        }
        told.push_str(name.as_str())?;
    }
    Ok(told)
}

// A line, as its query finds.
fn line_told(alloc: Global, objects: &Objects, line: &str) -> Result<String, Fail> {
    let (asked, _) = line.split_once(" => ").unwrap_or((line, ""));
    let (word, text) = split(asked);
    let index = index_of(alloc, word)?;
    let query = read_query(alloc, &Text::from_str(alloc, text)?)?;
    let names = found_by(alloc, objects, &index, &query)?;
    let told = joined(alloc, &names)?;
    Ok(format!(in alloc; "{asked} => {told}")?)
}

#[test]
fn queries_find_what_the_rules_say(rt: HostRuntime) -> Result<(), Fail> {
    let mut objects = Objects::none(rt.alloc(), RandomState::new(&rt)?);
    fill(rt.alloc(), &mut objects)?;
    for line in QUERIES.lines() {
        let told = line_told(rt.alloc(), &objects, line)?;
        assert_eq!(rt; told.as_str(), line);
    }
    let names = names_of(rt.alloc(), &objects, &Index::Nodes)?;
    assert_eq!(rt; joined(rt.alloc(), &names)?.as_str(), "db1 web1 web2");
    Ok(())
}

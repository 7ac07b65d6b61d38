//! What the index finds, over worked objects.
use doc_tree::{Kind, NoMemory, Text, read_json};
use query_text::{Query, read_query};
use search_index::{Index, Scope, ScopeAt};
use search_query::{Pairs, pairs};
use std::alloc::Global;
use std::hash::RandomState;
use std::test::Fail;

// Objects, each called by a letter: nodes but for the last, which is an environment.
const OBJECTS: &str = r#"a node {"normal":{"a":{"b":"xy"}}}
b node {"normal":{"a":{"b":"xy"},"c":2}}
c node {"normal":{"a":{"b":"xy"},"c":10}}
d node {"name":"d","run_list":["recipe[cb::r@1.0]","role[web]","recipe[n]"],"automatic":{"up":true,"tags":["red","blue"],"none":null,"disks":[{"size":-5},{"size":7}]}}
e node {"name":"\u00e9t\u00e9","default":{"s":"a b","hid":"low"},"override":{"s":"x*y","hid":"high","bare":""},"automatic":5}
f environment {"normal":{"a":1},"run_list":["recipe[n]"]}
"#;

// A query, and the objects that it finds, or `-` for none: worked by hand from the rules.
const QUERIES: &str = r#"a_b:x* AND NOT c:[1 TO 3] => a
b:xy => abc
*:* => abcdef
NOT *:* => -
a:xy => -
c:2 => b
c:* => bc
NOT c:* => adef
NOT NOT c:* => bc
c:[1 TO 3] => bc
c:[10 TO 2] => bc
c:{10 TO 2} => -
c:{1 TO 2} => c
c:[2 TO *] => b
c:{2 TO *} => -
c:[* TO 10] => c
c:[* TO *] => bc
c:2 OR c:10 => bc
c:2 AND c:10 => -
c:2 OR b:xy AND c:10 => bc
(c:2 OR b:xy) AND c:10 => c
NOT (c:2 OR c:10) AND b:xy => a
b:xy AND NOT c:2 AND NOT c:10 => a
NOT c:2 OR NOT c:10 => abcdef
NOT a_b:xy AND NOT name:d => ef
c:? => b
c:1*0 => c
b:*y*x* => -
b:"xy" => abc
recipe:n => d
recipe:recipe* => -
run_list:"recipe[n]" => df
tags:blue => d
size:\-5 => d
name:?t? => e
s:x\*y AND s:"x*y" => e
hid:low AND hid:high => e
bare:"" AND bare:* AND NOT bare:?* => e
normal_a:1 AND a:1 => f
"#;

fn object_pairs(alloc: Global, kind: &str, text: &str) -> Result<Pairs, Fail> {
    let tree = read_json(alloc, text.as_bytes())?;
    let kind = if kind == "node" {
        Kind::Node
    } else {
        Kind::Environment
    };
    Ok(pairs(alloc, kind, &tree)?)
}

fn scope(alloc: Global, org: &str) -> Result<Scope, NoMemory> {
    Ok(Scope {
        org: Text::from_str(alloc, org)?,
        index: Text::from_str(alloc, "node")?,
    })
}

// Takes an object out, and puts it in with the pairs of a text.
fn save(
    alloc: Global,
    index: &mut Index,
    org: &str,
    name: &str,
    kind: &str,
    text: &str,
) -> Result<(), Fail> {
    let pairs = object_pairs(alloc, kind, text)?;
    let scope = scope(alloc, org)?;
    let name = Text::from_str(alloc, name)?;
    let at = ScopeAt {
        org: &scope.org,
        index: &scope.index,
    };
    index.remove(at, &name);
    let count = pairs.as_slice().len();
    index.reserve(1, count, count)?;
    index.insert(scope, name, pairs);
    Ok(())
}

fn query(alloc: Global, text: &str) -> Result<Query, Fail> {
    Ok(read_query(alloc, &Text::from_str(alloc, text)?)?)
}

// The names that a query finds, one behind the other, or `-` for none.
fn told(alloc: Global, index: &Index, org: &str, text: &str) -> Result<String, Fail> {
    let scope = scope(alloc, org)?;
    let at = ScopeAt {
        org: &scope.org,
        index: &scope.index,
    };
    let names = index.find(alloc, at, &query(alloc, text)?)?;
    let mut line = String::new(alloc);
    for name in names.as_slice() {
        line.push_str(name.as_str())?;
    }
    if line.is_empty() {
        line.push_str("-")?;
    }
    Ok(line)
}

// The lines whose query finds otherwise.
fn lines_otherwise(alloc: Global, index: &Index, lines: &str) -> Result<String, Fail> {
    let mut otherwise = String::new(alloc);
    for line in lines.lines() {
        let (text, _) = line.split_once(" => ").unwrap_or((line, ""));
        let found = told(alloc, index, "acme", text)?;
        let here = format!(in alloc; "{text} => {found}")?;
        if here.as_str() != line {
            otherwise.push_str(here.as_str())?;
            otherwise.push_str("\n")?;
        }
    }
    Ok(otherwise)
}

// Two scopes with objects of one name and equal pairs, of which one is taken out, and a scope that has nothing.
const SCOPES: &str = r#"save acme x {"normal":{"a":1}}
save beta x {"normal":{"a":1}}
save beta w {"normal":{"a":2}}
find acme *:* => x
find acme a:1 => x
find beta *:* => wx
find beta a:1 => x
find gamma *:* => -
find gamma NOT a:1 => -
drop acme x
drop acme w
drop gamma x
find acme NOT a:2 => -
find acme a:* => -
find beta NOT a:2 => x
find beta a:* => wx
save acme x {"normal":{"a":2}}
find acme a:1 => -
find acme a:2 => x
find beta a:1 => x
"#;

// Objects that share fields and values, of which one is taken out, and then another.
const SHARED: &str = r#"save acme x {"normal":{"a":2}}
save acme y {"normal":{"b":2,"two":"b"}}
find acme b:2 => y
drop acme x
find acme a:* => -
find acme b:2 => y
find acme two:b => y
save acme z {"normal":{"b":"two"}}
drop acme y
find acme b:2 => -
find acme two:* => -
find acme b:two => z
find acme *:* => z
"#;

// What the last of a hundred saves leaves.
const OFTEN: &str = r#"turn:99 => x
turn:98 => -
half:49 => x
half:48 => -
turn:* => x
turn:[0 TO 98] => -
"#;

fn save_line(alloc: Global, index: &mut Index, org: &str, rest: &str) -> Result<(), Fail> {
    let (name, text) = rest.split_once(' ').unwrap_or((rest, ""));
    save(alloc, index, org, name, "node", text)
}

fn drop_line(alloc: Global, index: &mut Index, org: &str, name: &str) -> Result<(), Fail> {
    let scope = scope(alloc, org)?;
    let name = Text::from_str(alloc, name)?;
    let at = ScopeAt {
        org: &scope.org,
        index: &scope.index,
    };
    index.remove(at, &name);
    Ok(())
}

// Whether a query finds what its line says.
fn finds(alloc: Global, index: &Index, org: &str, line: &str) -> Result<bool, Fail> {
    let (text, names) = line.split_once(" => ").unwrap_or((line, ""));
    Ok(told(alloc, index, org, text)?.as_str() == names)
}

// Does what a line says, and tells whether it found what it should.
fn is_done(alloc: Global, index: &mut Index, line: &str) -> Result<bool, Fail> {
    let (word, rest) = line.split_once(' ').unwrap_or((line, ""));
    let (org, rest) = rest.split_once(' ').unwrap_or((rest, ""));
    if word == "find" {
        return finds(alloc, index, org, rest);
    }
    if word == "save" {
        save_line(alloc, index, org, rest)?;
    } else {
        drop_line(alloc, index, org, rest)?;
    }
    Ok(true)
}

// The lines of a script that found otherwise.
fn script_otherwise(alloc: Global, index: &mut Index, lines: &str) -> Result<String, Fail> {
    let mut otherwise = String::new(alloc);
    for line in lines.lines() {
        if !is_done(alloc, index, line)? {
            otherwise.push_str(line)?;
            otherwise.push_str("\n")?;
        }
    }
    Ok(otherwise)
}

fn save_object(alloc: Global, index: &mut Index, line: &str) -> Result<(), Fail> {
    let (name, object) = line.split_once(' ').unwrap_or((line, ""));
    let (kind, text) = object.split_once(' ').unwrap_or((object, ""));
    save(alloc, index, "acme", name, kind, text)
}

fn save_objects(alloc: Global, index: &mut Index) -> Result<(), Fail> {
    for line in OBJECTS.lines() {
        save_object(alloc, index, line)?;
    }
    Ok(())
}

fn save_turn(alloc: Global, index: &mut Index, turn: u8) -> Result<(), Fail> {
    let half = turn / 2;
    let text = format!(in alloc; "{{\"normal\":{{\"turn\":{turn},\"half\":{half}}}}}")?;
    save(alloc, index, "acme", "x", "node", text.as_str())
}

fn save_often(alloc: Global, index: &mut Index) -> Result<(), Fail> {
    for turn in 0..100u8 {
        save_turn(alloc, index, turn)?;
    }
    Ok(())
}

fn worked_in(alloc: Global, index: &mut Index) -> Result<String, Fail> {
    save_objects(alloc, index)?;
    lines_otherwise(alloc, index, QUERIES)
}

fn often_in(alloc: Global, index: &mut Index) -> Result<String, Fail> {
    save_often(alloc, index)?;
    lines_otherwise(alloc, index, OFTEN)
}

// What the worked objects find otherwise.
fn worked_otherwise(alloc: Global, hasher: RandomState) -> Result<String, Fail> {
    let mut index = Index::none(alloc, hasher);
    worked_in(alloc, &mut index)
}

fn often_otherwise(alloc: Global, hasher: RandomState) -> Result<String, Fail> {
    let mut index = Index::none(alloc, hasher);
    often_in(alloc, &mut index)
}

fn scopes_otherwise(alloc: Global, hasher: RandomState) -> Result<String, Fail> {
    let mut index = Index::none(alloc, hasher);
    script_otherwise(alloc, &mut index, SCOPES)
}

fn shared_otherwise(alloc: Global, hasher: RandomState) -> Result<String, Fail> {
    let mut index = Index::none(alloc, hasher);
    script_otherwise(alloc, &mut index, SHARED)
}

#[test]
fn queries_find_what_the_rules_say(rt: HostRuntime) -> Result<(), Fail> {
    let otherwise = worked_otherwise(rt.alloc(), RandomState::new(&rt)?)?;
    assert_eq!(rt; otherwise.as_str(), "");
    Ok(())
}

#[test]
fn objects_of_other_scopes_stay(rt: HostRuntime) -> Result<(), Fail> {
    let otherwise = scopes_otherwise(rt.alloc(), RandomState::new(&rt)?)?;
    assert_eq!(rt; otherwise.as_str(), "");
    Ok(())
}

#[test]
fn fields_and_values_stay_while_an_object_has_them(rt: HostRuntime) -> Result<(), Fail> {
    let otherwise = shared_otherwise(rt.alloc(), RandomState::new(&rt)?)?;
    assert_eq!(rt; otherwise.as_str(), "");
    Ok(())
}

#[test]
fn an_object_that_is_saved_often_has_its_last_pairs(rt: HostRuntime) -> Result<(), Fail> {
    let otherwise = often_otherwise(rt.alloc(), RandomState::new(&rt)?)?;
    assert_eq!(rt; otherwise.as_str(), "");
    Ok(())
}

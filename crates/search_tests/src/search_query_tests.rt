//! What queries find among worked objects.
use doc_tree::{Kind, NoMemory, Text, read_json};
use query_text::{Query, read_query};
use search_query::{Pairs, matches, pairs};
use std::alloc::Global;
use std::test::Fail;

// Objects, each called by a letter: nodes but for the last, which is an environment.
const OBJECTS: &str = r#"a node {"normal":{"a":{"b":"xy"}}}
b node {"normal":{"a":{"b":"xy"},"c":2}}
c node {"normal":{"a":{"b":"xy"},"c":10}}
d node {"name":"d","run_list":["recipe[cb::r@1.0]","role[web]","recipe[n]"],"automatic":{"up":true,"tags":["red","blue"],"none":null,"disks":[{"size":-5},{"size":7}]}}
e node {"name":"\u00e9t\u00e9","default":{"s":"a b","hid":"low"},"override":{"s":"x*y","hid":"high","bare":""},"automatic":5}
f environment {"normal":{"a":1},"run_list":["recipe[n]"]}
"#;

// A query, and the objects that it finds, or `-` for none: worked by hand from the rules.
const QUERIES: &str = r#"a_b:x* AND NOT c:[1 TO 3] => a
b:xy => abc
*:* => abcdef
NOT *:* => -
a_b:xy => abc
normal_a_b:xy => -
a:xy => -
c:2 => b
c:* => bc
NOT c:* => adef
NOT NOT c:* => bc
c:[1 TO 3] => bc
c:[10 TO 2] => bc
c:{10 TO 2} => -
c:{1 TO 2} => c
c:[2 TO *] => b
c:{2 TO *} => -
c:[* TO 10] => c
c:{* TO 10} => -
c:[* TO *] => bc
c:["10" TO "10"] => c
c:2 OR c:10 => bc
c:2 AND c:10 => -
c:2 OR b:xy AND c:10 => bc
(c:2 OR b:xy) AND c:10 => c
NOT (c:2 OR c:10) AND b:xy => a
NOT c:2 AND b:xy => ac
b:xy AND NOT c:2 AND NOT c:10 => a
c:? => b
c:?? => c
c:1? => c
c:1*0 => c
c:10* => c
c:*0* => c
b:*x*y* => abc
b:*y*x* => -
b:"x*" => -
b:"xy" => abc
b:x\y => abc
name:d => d
recipe:cb\:\:r@1.0 => d
recipe:cb::r@1.0 => d
recipe:cb => -
recipe:cb::r => -
recipe:n => d
recipe:n::default => -
recipe:recipe* => -
run_list:"recipe[n]" => df
role:web => d
up:true => d
none:* => -
tags:red => d
tags:blue => d
disks_size:7 => d
size:\-5 => d
name:?t? => e
name:??? => e
name:????? => -
s:a\ b => e
s:x\*y AND s:"x*y" => e
hid:low AND hid:high => e
bare:"" AND bare:* AND NOT bare:?* => e
automatic:* => -
normal_a:1 AND a:1 => f
"#;

fn object_pairs(alloc: Global, kind: &str, text: &str) -> Result<Pairs, Fail> {
    let tree = read_json(alloc, text.as_bytes())?;
    let kind = if kind == "node" {
        Kind::Node
    } else {
        Kind::Environment
    };
    Ok(pairs(alloc, kind, &tree)?)
}

// Whether a query finds the object of a kind and a text.
fn finds(alloc: Global, query: &Query, object: &str) -> Result<bool, Fail> {
    let (kind, text) = object.split_once(' ').unwrap_or((object, ""));
    let pairs = object_pairs(alloc, kind, text)?;
    Ok(matches(query, &pairs))
}

fn found(alloc: Global, query: &Query) -> Result<String, Fail> {
    let mut letters = String::new(alloc);
    for line in OBJECTS.lines() {
        let (letter, object) = line.split_once(' ').unwrap_or((line, ""));
        if finds(alloc, query, object)? {
            letters.push_str(letter)?;
        }
    }
    if letters.is_empty() {
        letters.push_str("-")?;
    }
    Ok(letters)
}

// A line, as its query finds.
fn line_told(alloc: Global, line: &str) -> Result<String, Fail> {
    let (text, _) = line.split_once(" => ").unwrap_or((line, ""));
    let query = read_query(alloc, &Text::from_str(alloc, text)?)?;
    let letters = found(alloc, &query)?;
    Ok(format!(in alloc; "{text} => {letters}")?)
}

// The lines whose query finds otherwise.
fn lines_otherwise(alloc: Global, lines: &str) -> Result<String, Fail> {
    let mut otherwise = String::new(alloc);
    for line in lines.lines() {
        let told = line_told(alloc, line)?;
        if told.as_str() != line {
            otherwise.push_str(told.as_str())?;
            otherwise.push_str("\n")?;
        }
    }
    Ok(otherwise)
}

#[test]
fn queries_find_what_the_rules_say(rt: HostRuntime) -> Result<(), Fail> {
    let otherwise = lines_otherwise(rt.alloc(), QUERIES)?;
    assert_eq!(rt; otherwise.as_str(), "");
    Ok(())
}

// The pairs in one text, a line each.
fn told(alloc: Global, pairs: Pairs) -> Result<String, NoMemory> {
    let mut text = String::new(alloc);
    for pair in pairs.as_slice() {
        text.push_str(str::from_utf8(pair.field()).unwrap_or("no text"))?;
        text.push_str("=")?;
        text.push_str(str::from_utf8(pair.value()).unwrap_or("no text"))?;
        text.push_str(" ")?;
    }
    Ok(text)
}

#[test]
fn pairs_come_in_order_and_once(rt: HostRuntime) -> Result<(), Fail> {
    let pairs = object_pairs(
        rt.alloc(),
        "node",
        r#"{"run_list":["role[w]","recipe[a::b]"],"normal":{"b":[1,1,{"a":"z"}],"a":"z"}}"#,
    )?;
    let count = pairs.as_slice().len();
    let told = told(rt.alloc(), pairs)?;
    assert_eq!(rt;
        told.as_str(),
        "a=z b=1 b_a=z recipe=a::b role=w run_list=recipe[a::b] run_list=role[w] "
    );
    assert_eq!(rt; count, 7);
    Ok(())
}

//! What no clause says: that the calls succeed, and that the definitions are those of RFC 8259 and of `serde_json`.
ghost use Rattle.std.specs.Prelude.{◌≡◌, ◌+◌, ◌<◌};

use doc_tree::{
    Bytes, Fields, Kind, Listed, Name, Names, NoMemory, Number, ReadFault, Steps, Text, Texts,
    Tree, Trees, is_name, is_organisation_name, json_text, one_text, read_json, text_reads_back,
};
use std::alloc::Global;
use std::marker::Brand;
use std::sync::ledger::{Blank, Ledger};
use std::test::Fail;

// What is sent, and how it is written again, or the fault: by RFC 8259 and the rules of documents.
const DOCUMENTS: &str = r#"{"b":1,"a":[],"b":2} => {"a":[],"b":2}
{"a":1.5,"a":1} => {"a":1}
 [ null , true,false ]  => [null,true,false]
[18446744073709551615,-9223372036854775808] => [18446744073709551615,-9223372036854775808]
"\u00e9\/\n\u0001\"" => "é/\n\u0001\""
{"Z":{},"a":0,"":""} => {"":"","Z":{},"a":0}
 => not JSON
[1,] => not JSON
1 2 => not JSON
"\ud800" => not JSON
1e400 => not JSON
1.5 => a number is not whole
1.0 => a number is not whole
1e2 => a number is not whole
-0 => a number is not whole
18446744073709551616 => a number is not whole
-9223372036854775809 => a number is not whole
{"a":1,"a":1.5} => a number is not whole"#;

fn rewritten(alloc: Global, bytes: &[u8]) -> Result<Bytes, ReadFault> {
    let tree = read_json(alloc, bytes)?;
    Ok(json_text(alloc, &tree)?)
}

// How bytes are written again, or the fault.
fn told(alloc: Global, bytes: &[u8]) -> Result<String, Fail> {
    match rewritten(alloc, bytes) {
        Ok(text) => Ok(String::from_utf8_lossy(alloc, text.as_slice())?),
        Err(fault) => Ok(fault.to_string(alloc)?),
    }
}

#[test]
fn documents_are_read_and_written(rt: HostRuntime) -> Result<(), Fail> {
    text_reads_back();
    one_text();
    for line in DOCUMENTS.lines() {
        let (sent, expected) = line.split_once(" => ").ok_or("a row")?;
        let told = told(rt.alloc(), sent.as_bytes())?;
        assert_eq!(rt; told.as_str(), expected, "from {sent}");
    }
    assert_eq!(rt; told(rt.alloc(), b"\"\xff\"")?.as_str(), "not JSON");
    Ok(())
}

// What is told of this many lists, one in the other.
fn nested(alloc: Global, depth: usize) -> Result<String, Fail> {
    let mut bytes = Vec::new(alloc);
    for _ in 0..depth {
        bytes.push(b'[')?;
    }
    for _ in 0..depth {
        bytes.push(b']')?;
    }
    match read_json(alloc, bytes.as_slice()) {
        Ok(_) => Ok(String::from_str(alloc, "read")?),
        Err(fault) => Ok(fault.to_string(alloc)?),
    }
}

#[test]
fn documents_nest_100_deep_and_no_deeper(rt: HostRuntime) -> Result<(), Fail> {
    for (depth, expected) in [
        (100, "read"),
        (101, "nests more than 100 deep"),
        (127, "nests more than 100 deep"),
        (128, "not JSON"),
    ] {
        let told = nested(rt.alloc(), depth)?;
        assert_eq!(rt; told.as_str(), expected, "at {depth}");
    }
    Ok(())
}

fn list(alloc: Global) -> Result<Trees, Fail> {
    let mut list = Trees::new(alloc);
    list.push(Tree::Whole(Number::of(-7).ok_or("a number")?))?;
    list.push(Tree::Bool(true))?;
    Ok(list)
}

fn put_words(alloc: Global, fields: &mut Fields, key: &str, words: &str) -> Result<(), NoMemory> {
    let words = Tree::Words(Text::from_str(alloc, words)?);
    fields.put(Text::from_str(alloc, key)?, words)
}

fn node(alloc: Global) -> Result<Fields, Fail> {
    let mut fields = Fields::new(alloc);
    let key = Text::from_str(alloc, "run_list")?;
    fields.put(key, Tree::List(list(alloc)?))?;
    put_words(alloc, &mut fields, "name", "db")?;
    put_words(alloc, &mut fields, "name", "web1")?;
    Ok(fields)
}

// Whether the dict has these keys, the tree at the one as a path, and copies that are the same.
fn told_of_fields(alloc: Global, fields: Fields) -> Result<String, Fail> {
    let (count, none) = (fields.len(), fields.is_empty());
    let (name, nam) = (fields.get("name").is_some(), fields.get("nam").is_none());
    let copies = fields.copy(alloc)?.same(&fields);
    let moved = fields.into_vec().len();
    Ok(format!(in alloc; "{count} {none} {name} {nam} {copies} {moved}")?)
}

fn told_of_trees(alloc: Global, trees: Trees) -> Result<String, Fail> {
    let (count, none) = (trees.len(), trees.is_empty());
    let copies = trees.copy(alloc)?.same(&trees);
    let moved = trees.into_vec().len();
    Ok(format!(in alloc; "{count} {none} {copies} {moved}")?)
}

// The text of a tree, whether it has a part at this path, and whether a copy is the same and null isn't.
fn told_of_tree(alloc: Global, tree: Tree, path: &[Text]) -> Result<String, Fail> {
    let text = json_text(alloc, &tree)?;
    let text = String::from_utf8_lossy(alloc, text.as_slice())?;
    let part = tree.at(path).is_some();
    let (copied, other) = (tree.copy(alloc)?.same(&tree), tree.same(&Tree::Null));
    Ok(format!(in alloc; "{text} {part} {copied} {other}")?)
}

#[test]
fn trees_are_built_read_and_copied(rt: HostRuntime) -> Result<(), Fail> {
    let alloc = rt.alloc();
    let path = vec![in alloc; Text::from_str(alloc, "run_list")?]?;
    let told = told_of_tree(alloc, Tree::Dict(node(alloc)?), path.as_slice())?;
    assert_eq!(rt;
        told.as_str(),
        "{\"name\":\"web1\",\"run_list\":[-7,true]} true true false"
    );
    assert!(rt; Tree::Null.at(path.as_slice()).is_none());
    assert_eq!(rt;
        told_of_trees(alloc, list(alloc)?)?.as_str(),
        "2 false true 2"
    );
    assert_eq!(rt;
        told_of_fields(alloc, node(alloc)?)?.as_str(),
        "2 false true true true 2"
    );
    Ok(())
}

// Texts, and whether each has the form of a name and of an organisation's.
const NAMES: &str = "web-1 => true true
1a_b => true true
Web => true false
recipe[a] => false false
a:b.c => true false
-a => true false
_a => true false
a b => false false
caf\u{e9} => false false
 => false false";

fn forms(alloc: Global, text: &str) -> Result<String, Fail> {
    let (name, organisation) = (is_name(text), is_organisation_name(text));
    Ok(format!(in alloc; "{name} {organisation}")?)
}

// What is told of a name by its calls.
fn told_of_name(alloc: Global, name: Name) -> Result<String, Fail> {
    let copy = name.copy(alloc)?;
    let alike = copy == name && copy >= name;
    let size = name.as_text().len();
    let mut names = Names::new(alloc);
    names.push(name)?;
    let count = names.len();
    let text = copy.into_text();
    Ok(format!(in alloc; "{alike} {size} {count} {text}")?)
}

fn name(alloc: Global, text: &str) -> Result<Name, Fail> {
    Ok(Name::of(Text::from_str(alloc, text)?).ok().ok_or("a name")?)
}

#[test]
fn names_have_their_forms(rt: HostRuntime) -> Result<(), Fail> {
    let alloc = rt.alloc();
    for line in NAMES.lines() {
        let (text, expected) = line.split_once(" => ").ok_or("a row")?;
        assert_eq!(rt; forms(alloc, text)?.as_str(), expected, "{text}");
    }
    let mut long = String::new(alloc);
    for _ in 0..255 {
        long.push_str("a")?;
    }
    assert_eq!(rt; forms(alloc, long.as_str())?.as_str(), "true true");
    long.push_str("a")?;
    assert_eq!(rt; forms(alloc, long.as_str())?.as_str(), "false false");
    let told = told_of_name(alloc, name(alloc, "web1")?)?;
    assert_eq!(rt; told.as_str(), "true 4 1 web1");
    Ok(())
}

fn told_of_text(alloc: Global, text: Text) -> Result<String, Fail> {
    let (size, none, bytes) = (text.len(), text.is_empty(), text.as_bytes().len());
    let copy = text.copy(alloc)?;
    let alike = copy == text && copy <= text;
    let copy = copy.into_string();
    Ok(format!(in alloc; "{size} {none} {bytes} {alike} {text} {copy}")?)
}

fn told_of_texts(alloc: Global, text: Text) -> Result<String, Fail> {
    let mut texts = Texts::new(alloc);
    texts.push(text)?;
    let (size, none, slice) = (texts.len(), texts.is_empty(), texts.as_slice().len());
    let (first, second) = (texts.get(0).is_some(), texts.get(1).is_some());
    let moved = Listed::of(texts.into_vec()).len();
    Ok(format!(in alloc; "{size} {none} {slice} {first} {second} {moved}")?)
}

fn told_of_bytes(alloc: Global, bytes: Bytes) -> Result<String, Fail> {
    let (size, none) = (bytes.len(), bytes.is_empty());
    let alike = bytes.copy(alloc)? == bytes;
    let other = bytes == Bytes::from_slice(alloc, b"{ }")?;
    Ok(format!(in alloc; "{size} {none} {alike} {other}")?)
}

fn told_of_number(alloc: Global, value: i128) -> Result<String, Fail> {
    match Number::of(value) {
        Some(number) => {
            let value = number.value();
            Ok(format!(in alloc; "{value}")?)
        }
        None => Ok(String::from_str(alloc, "none")?),
    }
}

#[test]
fn texts_bytes_and_lists_hold_what_they_are_given(rt: HostRuntime) -> Result<(), Fail> {
    let alloc = rt.alloc();
    let text = told_of_text(alloc, Text::of(String::from_str(alloc, "caf\u{e9}")?))?;
    assert_eq!(rt; text.as_str(), "5 false 5 true caf\u{e9} caf\u{e9}");
    let texts = told_of_texts(alloc, Text::from_str(alloc, "a")?)?;
    assert_eq!(rt; texts.as_str(), "1 false 1 true false 1");
    let bytes = told_of_bytes(alloc, Bytes::constant(b"{}"))?;
    assert_eq!(rt; bytes.as_str(), "2 false true false");
    Ok(())
}

#[test]
fn numbers_are_those_of_64_bits(rt: HostRuntime) -> Result<(), Fail> {
    let alloc = rt.alloc();
    for (value, expected) in [
        (1 << 64, "none"),
        ((1 << 64) - 1, "18446744073709551615"),
        (0, "0"),
        (-1, "-1"),
        (-(1 << 63), "-9223372036854775808"),
        (-(1 << 63) - 1, "none"),
    ] {
        assert_eq!(rt; told_of_number(alloc, value)?.as_str(), expected);
    }
    assert!(rt;
        Number::from(-5i64) < Number::from(-4i64) && Number::from(-1i64) < Number::from(0u64)
    );
    assert!(rt;
        Number::from(7i64) == Number::from(7u64) && Number::from(-1i64) != Number::from(u64::MAX)
    );
    Ok(())
}

fn crosses<T: Send + Sync>(_value: &T) {}

#[test]
fn values_cross_threads(rt: HostRuntime) -> Result<(), Fail> {
    let name = name(rt.alloc(), "web1")?;
    crosses(&name);
    crosses(&Tree::Words(name.copy(rt.alloc())?.into_text()));
    crosses(&Bytes::constant(b""));
    crosses(&Texts::new(rt.alloc()));
    crosses(&ReadFault::NotJson);
    Ok(())
}

fn two_steps<L: Ledger>(steps: &mut Steps<L>)
    ensures { steps.new ≡ steps.old + 2 }
{
    steps.tick();
    steps.tick();
}

fn counted<L: Ledger>(blank: Blank)
    requires name { blank.name ≡ L.name }
    requires parts { blank.parts ≡ L.parts }
    requires some { 0 < L.parts }
{
    let mut steps: Steps<L> = Steps::begin(blank);
    two_steps(&mut steps);
}

#[test]
fn steps_are_counted_and_kinds_have_words(rt: HostRuntime) -> Result<(), Fail> {
    counted::<Brand>(Blank::new(1));
    assert_eq!(rt; Kind::PolicyGroup.word(), "policy_group");
    Ok(())
}

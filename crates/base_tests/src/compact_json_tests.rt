//! What no clause says: that the calls succeed, and that what is kept is the text that was sent, where that was compact.
use compact_json::CompactJson;
use doc_tree::{Bytes, NoMemory, Text, Texts, Tree, Trees, json_text, read_json};
use std::alloc::Global;
use std::test::Fail;

// Documents in their compact texts, one with values of each kind, of which the least and the greatest number.
const DOCUMENTS: &str = r#"null
false
""
-1
[]
{}
[{"":{}},[[0]]]
{"least":-9223372036854775808,"list":[1,[],{},"a"],"most":18446744073709551615,"none":null,"text":"\"é\\\n\u0001/","yes":true}
"#;

// A document, and the text of its part at each path of keys.
const PARTS: &str =
    r#"{"bag":{"item":{"id":"web1"},"items":0},"list":[1,{"id":2}],"none":null,"text":"\"é\\\n\u0001/"}
bag => {"item":{"id":"web1"},"items":0}
bag/item/id => "web1"
bag/items => 0
none => null
text => "\"é\\\n\u0001/"
ba => no part
bag/id => no part
bag/item/id/web1 => no part
list/0 => no part
none/none => no part
 => no part
"#;

fn kept(alloc: Global, sent: &str) -> Result<CompactJson, Fail> {
    let tree = read_json(alloc, sent.as_bytes())?;
    let kept = CompactJson::of(alloc, &tree);
    drop(tree);
    Ok(kept?)
}

fn string_of(alloc: Global, bytes: Result<Bytes, NoMemory>) -> Result<String, Fail> {
    let bytes = bytes?;
    let string = String::from_utf8_lossy(alloc, bytes.as_slice());
    drop(bytes);
    Ok(string?)
}

fn text_of(alloc: Global, tree: Tree) -> Result<String, Fail> {
    let text = json_text(alloc, &tree);
    drop(tree);
    string_of(alloc, text)
}

// The text of the tree of a copy.
fn read_back(alloc: Global, kept: &CompactJson) -> Result<String, Fail> {
    let copy = kept.copy(alloc)?;
    copy.known();
    let tree = copy.tree(alloc);
    drop(copy);
    text_of(alloc, tree?)
}

// The text that is kept, or that the tree of a copy has another.
fn told_of(alloc: Global, kept: CompactJson) -> Result<String, Fail> {
    let told = read_back(alloc, &kept)?;
    let same = told.as_bytes() == kept.as_bytes();
    drop(told);
    let text = kept.bytes(alloc);
    drop(kept);
    if same {
        string_of(alloc, text)
    } else {
        Ok(String::from_str(alloc, "another")?)
    }
}

fn add_line(told: &mut String, line: String) -> Result<(), Fail> {
    told.push_str(line.as_str())?;
    told.push('\n')?;
    Ok(())
}

// What is kept of each line's document.
fn told_of_each(alloc: Global, documents: &str) -> Result<String, Fail> {
    let mut told = String::new(alloc);
    for sent in documents.lines() {
        add_line(&mut told, told_of(alloc, kept(alloc, sent)?)?)?;
    }
    Ok(told)
}

#[test]
fn documents_are_kept_copied_and_read_back(rt: HostRuntime) -> Result<(), Fail> {
    assert_eq!(rt; told_of_each(rt.alloc(), DOCUMENTS)?.as_str(), DOCUMENTS);
    Ok(())
}

fn path_of(alloc: Global, keys: &str) -> Result<Texts, Fail> {
    let mut path = Texts::new(alloc);
    for key in keys.split('/') {
        path.push(Text::from_str(alloc, key)?)?;
    }
    Ok(path)
}

// The text of a part, or that there is none.
fn part_of(alloc: Global, kept: &CompactJson, path: Texts) -> Result<String, Fail> {
    let part = kept.part(alloc, path.as_slice());
    drop(path);
    match part? {
        Some(tree) => text_of(alloc, tree),
        None => Ok(String::from_str(alloc, "no part")?),
    }
}

// The path of a row, and the part that a document has there, or the document itself where the row has no path.
fn row_of(alloc: Global, kept: &CompactJson, row: &str) -> Result<String, Fail> {
    match row.split_once(" => ") {
        Some((keys, _)) => {
            let part = part_of(alloc, kept, path_of(alloc, keys)?)?;
            Ok(format!(in alloc; "{keys} => {part}")?)
        }
        None => part_of(alloc, kept, Texts::new(alloc)),
    }
}

fn parts_of(alloc: Global, parts: &str) -> Result<String, Fail> {
    let document = parts.lines().next().ok_or("a document")?;
    let kept = kept(alloc, document)?;
    let mut told = String::new(alloc);
    for row in parts.lines() {
        add_line(&mut told, row_of(alloc, &kept, row)?)?;
    }
    Ok(told)
}

#[test]
fn parts_are_found_by_their_paths(rt: HostRuntime) -> Result<(), Fail> {
    assert_eq!(rt; parts_of(rt.alloc(), PARTS)?.as_str(), PARTS);
    Ok(())
}

// This many lists, one in the other.
fn nested(alloc: Global, depth: usize) -> Result<Tree, NoMemory> {
    let mut tree = Tree::Null;
    for _ in 0..depth {
        let mut list = Trees::new(alloc);
        list.push(tree)?;
        tree = Tree::List(list);
    }
    Ok(tree)
}

fn told_of_nested(alloc: Global, depth: usize) -> Result<String, Fail> {
    let tree = nested(alloc, depth)?;
    let kept = CompactJson::of(alloc, &tree);
    drop(tree);
    told_of(alloc, kept?)
}

// Deeper than a document may nest that is read from a request.
#[test]
fn documents_are_kept_at_any_depth(rt: HostRuntime) -> Result<(), Fail> {
    assert_eq!(rt; told_of_nested(rt.alloc(), 300)?.len(), 300 + 4 + 300);
    Ok(())
}

//! What no clause of `search_query` says of rows and pages: that the calls succeed, and that the definitions are those of the product.
use compact_json::CompactJson;
use doc_tree::{Kind, Text, Tree, json_text, read_json};
use search_query::{Partial, PartialFault, RowText, page_text, shown};
use std::alloc::Global;
use std::test::Fail;

// An object with keys of a node's levels and keys of its own.
const OBJECT: &str =
    r#"{"automatic":{"disk":{"size":7},"host":"a","up":null},"default":{"empty":"","list":[],"none":null,"ready":true,"zero":0},"host":"own","name":"web","none":"own","normal":{"count":2,"host":"n","ready":false,"up":"n"},"override":{"count":null,"disk":{"free":3,"size":8},"host":"o","over":"o","ready":null}}"#;

// A kind and the body of a partial search, and the row that it shows of the object, or why it shows none: worked by hand
// from the rules.
const ROWS: &str = r#"node {"v":["host"]} => {"data":{"v":"a"},"url":"/x"}
node {"v":["over"]} => {"data":{"v":"o"},"url":"/x"}
node {"v":["up"]} => {"data":{"v":"n"},"url":"/x"}
node {"v":["count"]} => {"data":{"v":2},"url":"/x"}
node {"v":["ready"]} => {"data":{"v":false},"url":"/x"}
node {"w":["zero"],"v":["empty"],"u":["list"]} => {"data":{"u":[],"v":"","w":0},"url":"/x"}
node {"v":["none"]} => {"data":{"v":"own"},"url":"/x"}
node {"v":["name"]} => {"data":{"v":"web"},"url":"/x"}
node {"v":["missing"]} => {"data":{"v":null},"url":"/x"}
node {"size":["disk","size"],"free":["disk","free"]} => {"data":{"free":3,"size":7},"url":"/x"}
node {"v":["host","name"],"w":["name","host"]} => {"data":{"v":null,"w":null},"url":"/x"}
node {"v":["normal","host"]} => {"data":{"v":"n"},"url":"/x"}
node {"v":[]} => {"data":{"v":{"disk":{"size":7},"host":"a","up":null}},"url":"/x"}
node {} => {"data":{},"url":"/x"}
role {"v":["host"]} => {"data":{"v":"own"},"url":"/x"}
role {"v":["over"]} => {"data":{"v":null},"url":"/x"}
role {"v":["normal","ready"],"w":["override","ready"]} => {"data":{"v":false,"w":null},"url":"/x"}
role {"v":["automatic"]} => {"data":{"v":{"disk":{"size":7},"host":"a","up":null}},"url":"/x"}
role [] => bad field body
role 5 => bad field body
role {"a":1} => bad field a
role {"b":[1],"a":["x"]} => bad field b
role {"c":{},"b":"x","a":[]} => bad field b
role {"a":["x",null]} => bad field a
"#;

// What was found, the place from which on it is shown and how many are, and the page.
const PAGES: &str = r#"a b c / 0 / 10 => {"rows":["a","b","c"],"start":0,"total":3}
a b c / 0 / 2 => {"rows":["a","b"],"start":0,"total":3}
a b c / 1 / 1 => {"rows":["b"],"start":1,"total":3}
a b c / 2 / 5 => {"rows":["c"],"start":2,"total":3}
a b c / 3 / 5 => {"rows":[],"start":3,"total":3}
a b c / 0 / 0 => {"rows":[],"start":0,"total":3}
a b c / 0 / 18446744073709551615 => {"rows":["a","b","c"],"start":0,"total":3}
a b c / 18446744073709551615 / 1 => {"rows":[],"start":18446744073709551615,"total":3}
 / 0 / 5 => {"rows":[],"start":0,"total":0}
"#;

fn written(alloc: Global, tree: &Tree) -> Result<String, Fail> {
    let text = json_text(alloc, tree)?;
    Ok(String::from_utf8_lossy(alloc, text.as_slice())?)
}

fn row_told(alloc: Global, kind: &str, partial: &Partial) -> Result<String, Fail> {
    let object = CompactJson::of(alloc, &read_json(alloc, OBJECT.as_bytes())?)?;
    let kind = if kind == "node" {
        Kind::Node
    } else {
        Kind::Role
    };
    let row = partial.row(alloc, kind, &object, Text::from_str(alloc, "/x")?)?;
    written(alloc, &row)
}

fn told(alloc: Global, kind: &str, partial: Result<Partial, PartialFault>) -> Result<String, Fail> {
    match partial {
        Ok(partial) => row_told(alloc, kind, &partial),
        Err(fault) => Ok(format!(in alloc; "{fault}")?),
    }
}

// A line, as its body is read and shows the object.
fn row_line(alloc: Global, line: &str) -> Result<String, Fail> {
    let (asked, _) = line.split_once(" => ").unwrap_or((line, ""));
    let (kind, body) = asked.split_once(' ').unwrap_or((asked, ""));
    let partial = Partial::read(alloc, &read_json(alloc, body.as_bytes())?);
    let told = told(alloc, kind, partial)?;
    Ok(format!(in alloc; "{asked} => {told}")?)
}

// The objects that a page shows, as they are kept.
fn kept(alloc: Global, words: &[&str]) -> Result<Vec<CompactJson>, Fail> {
    let mut objects = Vec::new(alloc);
    for word in words {
        let tree = Tree::Words(Text::from_str(alloc, word)?);
        objects.push(CompactJson::of(alloc, &tree)?)?;
    }
    Ok(objects)
}

// Every other row is lent, and the others are made.
fn row_text(alloc: Global, index: usize, object: &CompactJson) -> Result<RowText<'_>, Fail> {
    if index % 2 == 0 {
        return Ok(RowText::kept(object));
    }
    Ok(RowText::made(object.bytes(alloc)?))
}

fn page_told(alloc: Global, found: &[&str], start: u64, rows: u64) -> Result<String, Fail> {
    let objects = kept(alloc, shown(found, start, rows))?;
    let mut texts = Vec::new(alloc);
    for (index, object) in objects.iter().enumerate() {
        texts.push(row_text(alloc, index, object)?)?;
    }
    let page = page_text(alloc, &texts, start, found.len())?;
    Ok(String::from_utf8_lossy(alloc, page.as_slice())?)
}

// A line, as its page shows what was found.
fn page_line(alloc: Global, line: &str) -> Result<String, Fail> {
    let (asked, _) = line.split_once(" => ").unwrap_or((line, ""));
    let (words, places) = asked.split_once(" / ").unwrap_or((asked, ""));
    let (start, rows) = places.split_once(" / ").unwrap_or((places, ""));
    let found: Vec<&str> = words.split_whitespace().collect(alloc)?;
    let told = page_told(alloc, found.as_slice(), start.parse()?, rows.parse()?)?;
    Ok(format!(in alloc; "{asked} => {told}")?)
}

#[test]
fn rows_show_what_the_rules_say(rt: HostRuntime) -> Result<(), Fail> {
    for line in ROWS.lines() {
        let told = row_line(rt.alloc(), line)?;
        assert_eq!(rt; told.as_str(), line);
    }
    Ok(())
}

#[test]
fn pages_show_what_the_rules_say(rt: HostRuntime) -> Result<(), Fail> {
    for line in PAGES.lines() {
        let told = page_line(rt.alloc(), line)?;
        assert_eq!(rt; told.as_str(), line);
    }
    Ok(())
}

//! Texts that spell a query, and where others stop to begin one.
use doc_tree::{NoMemory, Text};
use query_text::{QueryFault, read_query};
use std::alloc::Global;
use std::test::Fail;

// Lines of a text and what reading it gives, worked by hand from the grammar.
const TEXTS: &str = r#"a_b:x* AND NOT c:[1 TO 3] => query
*:* => query
b:xy => query
(a:b) => query
( ( a:b ) ) => query
NOT a:b => query
NOT(a:b) => query
NOT NOT a:b => query
NOT:b => query
NOTa:b => query
AND:b AND OR:c => query
(a:b)AND(c:d) => query
(a:b)OR NOT c:d => query
a:b AND(c:d OR e:f) => query
a:"" => query
a:"x \" y" => query
a:[* TO *] => query
a:{1 TO "3 4"} => query
\-a\ b:c\* => query
a-b.c@d/e:x => query
recipe:cb::r@1.0 => query
é:é?* => query
\é:\é => query
a:+x&&!y => query
 => bad query at 0
  => bad query at 1
a => bad query at 1
a: => bad query at 2
a:1 b:2 => bad query at 4
: => bad query at 0
a:b) => bad query at 3
(a:b => bad query at 4
() => bad query at 1
( ) => bad query at 2
a:b AND => bad query at 7
a:b AND  => bad query at 8
a:1 ANDb:2 => bad query at 7
a:b and c:d => bad query at 4
a:b && c:d => bad query at 4
a:b || c:d => bad query at 4
!a:b => bad query at 0
+a:b => bad query at 0
-a:b => bad query at 0
NOT => bad query at 3
NOT  => bad query at 4
NOT NOT => bad query at 7
NOT) => bad query at 3
a:"b => bad query at 4
a:"b"c => bad query at 5
a:"b"AND c:d => bad query at 5
a:[1 TO 3 => bad query at 9
c:[1  TO 3] => bad query at 5
a:[ 1 TO 3] => bad query at 3
a:[1 TO 3 ] => bad query at 9
a:[1 TO 3} => bad query at 9
a:[1 to 3] => bad query at 5
a:[1* TO 3] => bad query at 4
a:[*1 TO 3] => bad query at 4
a:[1 TO] => bad query at 7
a:{1 TO * => bad query at 9
a:[1 TO 3]x => bad query at 10
a:b~ => bad query at 3
a:b^2 => bad query at 3
a:b\ => bad query at 4
a b => bad query at 1
* => bad query at 1
*: => bad query at 2
*:b => bad query at 2
a*:b => bad query at 1
a:b OR OR c:d => bad query at 9
(a:b)) => bad query at 5
a:b AND (c:d => bad query at 12
a:b AND ) => bad query at 8
a:b( => bad query at 3
a:b NOT c:d => bad query at 4
"a":b => bad query at 0
a:b OR => bad query at 6
(a:b) AN => bad query at 8
\NOT (a:b) => bad query at 4
a:(b) => bad query at 2
"#;

// White space of each kind before and behind a query.
const SPACED: &str = " \t\n\u{b}\u{c}\ra:b \t\n\u{b}\u{c}\r";

fn told(alloc: Global, text: &str) -> Result<String, NoMemory> {
    match read_query(alloc, &Text::from_str(alloc, text)?) {
        Ok(_) => Ok(String::from_str(alloc, "query")?),
        Err(QueryFault::NotAQuery { place }) => Ok(format!(in alloc; "bad query at {place}")?),
        Err(QueryFault::NoMemory) => Ok(String::from_str(alloc, "no memory")?),
    }
}

// A line, as reading its text tells it.
fn line_told(alloc: Global, line: &str) -> Result<String, NoMemory> {
    let (text, _) = line.split_once(" => ").unwrap_or((line, ""));
    let told = told(alloc, text)?;
    Ok(format!(in alloc; "{text} => {told}")?)
}

// The lines that reading tells otherwise.
fn lines_otherwise(alloc: Global, lines: &str) -> Result<String, NoMemory> {
    let mut otherwise = String::new(alloc);
    for line in lines.lines() {
        let told = line_told(alloc, line)?;
        if told.as_str() != line {
            otherwise.push_str(told.as_str())?;
            otherwise.push_str("\n")?;
        }
    }
    Ok(otherwise)
}

// A query behind so many fronts and before a hundred backs, as reading tells it.
fn nested_told(alloc: Global, count: usize, front: &str, back: &str) -> Result<String, NoMemory> {
    let mut text = String::new(alloc);
    for _ in 0..count {
        text.push_str(front)?;
    }
    text.push_str("a:b")?;
    for _ in 0..100 {
        text.push_str(back)?;
    }
    told(alloc, text.as_str())
}

#[test]
fn texts_are_read_or_refused_at_their_place(rt: HostRuntime) -> Result<(), Fail> {
    let otherwise = lines_otherwise(rt.alloc(), TEXTS)?;
    assert_eq!(rt; otherwise.as_str(), "");
    assert_eq!(rt; told(rt.alloc(), SPACED)?.as_str(), "query");
    assert_eq!(rt; told(rt.alloc(), "a:b\tc:d")?.as_str(), "bad query at 4");
    Ok(())
}

#[test]
fn a_hundred_nest_and_no_more(rt: HostRuntime) -> Result<(), Fail> {
    let alloc = rt.alloc();
    assert_eq!(rt; nested_told(alloc, 100, "(", ")")?.as_str(), "query");
    assert_eq!(rt;
        nested_told(alloc, 101, "(", ")")?.as_str(),
        "bad query at 100"
    );
    assert_eq!(rt; nested_told(alloc, 100, "NOT ", "")?.as_str(), "query");
    assert_eq!(rt;
        nested_told(alloc, 101, "NOT ", "")?.as_str(),
        "bad query at 403"
    );
    Ok(())
}

use attr_merge::{SourcesFault, explain, read_sources};
use std::alloc::{AllocError, Global};
use std::test::Fail;

// What a sources file explains, with `$` for each line feed; and what is no sources file.
const EXPLAINED: &str = r#"[] => nothing
[{"level":1,"name":"L1","tree":{"a":[1,2]}},{"level":4,"name":"L4","tree":{"a":[2,3]}}] => ["a"] = [1,2,3] <- 1 L1, 4 L4$
[{"level":7,"name":"L7","tree":{"a":[9]}},{"level":1,"name":"L1","tree":{"a":[1,2]}}, {"level":4,"name":"L4","tree":{"a":[2,3]}},{"level":11,"name":"L11","tree":{"a":null}}] => ["a"] = [9] <- 7 L7$
[{"level":1,"name":"L1","tree":{"b":{"c":1}}},{"level":9,"name":"L9","tree":{"b":5}}] => ["b"] = 5 <- 9 L9$
[{"level":1,"name":"L1","tree":{"b":{"c":1}}},{"level":9,"name":"L9","tree":{"b":5}}, {"level":12,"name":"L12","tree":{"b":{"d":2}}}] => ["b","d"] = 2 <- 12 L12$
[{"level":3,"name":"first","tree":{"k":1}},{"level":3,"name":"last","tree":{"k":2}}] => ["k"] = 2 <- 3 last$
[{"level":15,"name":"ohai","tree":{"k":15}},{"level":2,"name":"low","tree":{"k":2,"l":{}},"more":[]}] => ["k"] = 15 <- 15 ohai$["l"] = {} <- 2 low$
[{"level":1,"name":"x","tree":{"a-b":1,"a":{"b":"\n"}}}] => ["a","b"] = "\n" <- 1 x$["a-b"] = 1 <- 1 x$
[{"level":2,"name":"b","tree":{"s":["x"]}},{"level":2,"name":"a","tree":{"s":["y","x"]}}, {"level":2,"name":"c","tree":{"s":["z"]}}] => ["s"] = ["x","y","z"] <- 2 b, 2 a, 2 c$
[{"level":8,"name":"n","tree":{"t":true,"w":-1}}] => ["t"] = true <- 8 n$["w"] = -1 <- 8 n$
 => not sources
{} => not sources
[ => not sources
[1] => not sources
[{"level":1.5,"name":"x","tree":{}}] => not sources
[{"level":0,"name":"x","tree":{}}] => not sources
[{"level":16,"name":"x","tree":{}}] => not sources
[{"level":"1","name":"x","tree":{}}] => not sources
[{"name":"x","tree":{}}] => not sources
[{"level":1,"tree":{}}] => not sources
[{"level":1,"name":"x","tree":[]}] => not sources
[{"level":1,"name":"x","tree":{}},{"level":1,"name":2,"tree":{}}] => not sources
"#;

// What is printed, with `$` for each line feed.
fn on_one_line(alloc: Global, printed: &[u8]) -> Result<String, AllocError> {
    let printed = String::from_utf8_lossy(alloc, printed)?;
    let mut told = String::new(alloc);
    for line in printed.split_inclusive('\n') {
        told.push_str(line.trim_end_matches('\n'))?;
        told.push_str(if line.ends_with('\n') { "$" } else { "" })?;
    }
    if told.is_empty() {
        told.push_str("nothing")?;
    }
    Ok(told)
}

fn told(alloc: Global, file: &str) -> Result<String, AllocError> {
    match explain(alloc, file.as_bytes()) {
        Ok(printed) => on_one_line(alloc, printed.as_slice()),
        Err(SourcesFault::NotSources) => String::from_str(alloc, "not sources"),
        Err(SourcesFault::NoMemory) => String::from_str(alloc, "out of memory"),
    }
}

// A line, as its file is explained.
fn line_told(alloc: Global, line: &str) -> Result<String, AllocError> {
    let (file, _) = line.split_once(" => ").unwrap_or((line, ""));
    let told = told(alloc, file)?;
    format!(in alloc; "{file} => {told}")
}

// The lines whose file is explained otherwise.
fn lines_otherwise(alloc: Global, lines: &str) -> Result<String, AllocError> {
    let mut otherwise = String::new(alloc);
    for line in lines.lines() {
        let told = line_told(alloc, line)?;
        if told.as_str() != line {
            otherwise.push_str(told.as_str())?;
            otherwise.push_str("\n")?;
        }
    }
    Ok(otherwise)
}

#[test]
fn leaves_are_explained(rt: HostRuntime) -> Result<(), Fail> {
    let otherwise = lines_otherwise(rt.alloc(), EXPLAINED)?;
    assert_eq!(rt; otherwise.as_str(), "");
    Ok(())
}

#[test]
fn layers_are_sorted_by_their_levels(rt: HostRuntime) -> Result<(), Fail> {
    let file = r#"[{"level":15,"name":"b","tree":{}},
        {"level":1,"name":"a","tree":{}}]"#;
    let layers = read_sources(rt.alloc(), file.as_bytes())
        .ok()
        .ok_or("sources")?;
    let first = layers.get(0).ok_or("a layer")?;
    assert_eq!(rt; layers.len(), 2);
    assert_eq!(rt; first.level, 1);
    Ok(())
}

use doc_tree::{Tree, json_text, read_json};
use run_lists::{Allowed, by_name_tree, named_run_lists};
use std::alloc::Global;
use std::test::Fail;

// Documents, and what is stored of the run lists that they have under names: where these may hold roles, and where not.
const NAMED: &str = r#"{} => {} / {}
{"dev":["a","recipe[a]"],"prod":["role[r]","b::x"]} => {"dev":["recipe[a]","recipe[a]"],"prod":["role[r]","recipe[b::x]"]} / none
{"b":[],"a":["c@1.0"]} => {"a":["recipe[c@1.0]"],"b":[]} / {"a":["recipe[c@1.0]"],"b":[]}
{"a b":[]} => none / none
{"":[]} => none / none
{"a":["b c"]} => none / none
{"a":["b",1]} => none / none
{"a":"b"} => none / none
["a"] => none / none
null => none / none
"#;

fn stored(alloc: Global, allowed: Allowed, tree: &Tree) -> Result<String, Fail> {
    let Some(lists) = named_run_lists(alloc, allowed, tree)? else {
        return Ok(String::from_str(alloc, "none")?);
    };
    let text = json_text(alloc, &by_name_tree(alloc, &lists)?)?;
    Ok(String::from_utf8_lossy(alloc, text.as_slice())?)
}

// A line, as the run lists of its document are stored.
fn line_told(alloc: Global, line: &str) -> Result<String, Fail> {
    let (json, _) = line.split_once(" => ").unwrap_or((line, ""));
    let tree = read_json(alloc, json.as_bytes()).ok().ok_or("JSON")?;
    let items = stored(alloc, Allowed::Items, &tree)?;
    let recipes = stored(alloc, Allowed::Recipes, &tree)?;
    Ok(format!(in alloc; "{json} => {items} / {recipes}")?)
}

#[test]
fn run_lists_under_names_are_read_and_stored(rt: HostRuntime) -> Result<(), Fail> {
    for line in NAMED.lines() {
        let told = line_told(rt.alloc(), line)?;
        assert_eq!(rt; told.as_str(), line);
    }
    Ok(())
}

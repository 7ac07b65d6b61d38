use doc_tree::{Listed, Name, Names, Text, Tree, read_json};
use run_lists::{
    ExpandFault, Expansion, Item, Items, NamedRunLists, RecipeNames, Roles, RunLists, expand,
    read_item, read_role,
};
use std::alloc::{AllocError, Global};
use std::test::Fail;

// The roles that are there, of which `start` has the run list that is expanded, and what it comes to in `prod`: items,
// recipes and roles, or the roles that are missing.
const EXPANSIONS: &str =
    r#"[{"name":"start","run_list":["recipe[a]","role[r]","a::default"],"env_run_lists":{}}, {"name":"r","run_list":["recipe[b]","role[s]"],"env_run_lists":{}}, {"name":"s","run_list":["recipe[a::x]","role[r]"],"env_run_lists":{}}] => (recipe[a] recipe[b] recipe[a::x]) (a::default b::default a::x) (s r)
[{"name":"start","run_list":["recipe[a]","role[r]","a::default"],"env_run_lists":{}}, {"name":"r","run_list":["recipe[b]","role[s]"],"env_run_lists":{}}] => missing s
[{"name":"start","run_list":[],"env_run_lists":{}}] => () () ()
[{"name":"start","run_list":["role[z]","a","role[y]","role[z]"],"env_run_lists":{}}] => missing z y
[{"name":"start","run_list":["role[r]"],"env_run_lists":{}}, {"name":"r","run_list":["a"],"env_run_lists":{"dev":["b"],"prod":["c"]}}] => (recipe[c]) (c::default) (r)
[{"name":"start","run_list":["role[r]"],"env_run_lists":{}}, {"name":"r","run_list":["a"],"env_run_lists":{"prod":[]}}] => () () (r)
[{"name":"start","run_list":["role[r]"],"env_run_lists":{}}, {"name":"r","run_list":["a"],"env_run_lists":{"dev":["role[z]"]}}] => (recipe[a]) (a::default) (r)
[{"name":"start","run_list":["role[r]"],"env_run_lists":{}}, {"name":"r","run_list":["role[r]","a"],"env_run_lists":{}}] => (recipe[a]) (a::default) (r)
[{"name":"start","run_list":["a","a@1.0","a@1.0.0","a@2.0","recipe[a::default]"],"env_run_lists":{}}] => (recipe[a] recipe[a@1.0] recipe[a@2.0]) (a::default) ()
[{"name":"start","run_list":["role[p]","role[q]"],"env_run_lists":{}}, {"name":"p","run_list":["role[base]","web"],"env_run_lists":{}}, {"name":"q","run_list":["role[base]","db"],"env_run_lists":{}}, {"name":"base","run_list":["ntp"],"env_run_lists":{}}] => (recipe[ntp] recipe[web] recipe[db]) (ntp::default web::default db::default) (base p q)
[{"name":"start","run_list":["role[p]"],"env_run_lists":{}}, {"name":"p","run_list":["role[q]","role[z]"],"env_run_lists":{}}, {"name":"q","run_list":["role[p]","role[x]"],"env_run_lists":{}}] => missing x z
[{"name":"start","run_list":["b::x","a","b"],"env_run_lists":{}}] => (recipe[b::x] recipe[a] recipe[b]) (b::x a::default b::default) ()
"#;

// What is no role's object.
const NO_ROLES: &str = r#"[]
{"name":"r","run_list":[]}
{"name":"r","env_run_lists":{}}
{"run_list":[],"env_run_lists":{}}
{"name":"a b","run_list":[],"env_run_lists":{}}
{"name":"r","run_list":["role["],"env_run_lists":{}}
{"name":"r","run_list":["a"],"env_run_lists":{"a b":[]}}
{"name":"r","run_list":["a"],"env_run_lists":{"dev":[1]}}
"#;

fn name(alloc: Global, text: &str) -> Result<Name, Fail> {
    Ok(Name::of(Text::from_str(alloc, text)?).ok().ok_or("a name")?)
}

fn roles_in(alloc: Global, tree: &Tree) -> Result<Roles, Fail> {
    let mut roles = Roles::new(alloc);
    if let Tree::List(trees) = tree {
        for tree in trees.as_slice() {
            let role = read_role(alloc, tree)?.ok_or("a role")?;
            roles.insert(role.name, role.run_lists)?;
        }
    }
    Ok(roles)
}

fn joined(alloc: Global, names: &Names) -> Result<String, AllocError> {
    let mut text = String::new(alloc);
    for name in names.as_slice() {
        if !text.is_empty() {
            text.push_str(" ")?;
        }
        text.push_str(name.as_str())?;
    }
    Ok(text)
}

fn items_text(alloc: Global, items: &Items) -> Result<String, AllocError> {
    let mut text = String::new(alloc);
    for item in items.as_slice() {
        if !text.is_empty() {
            text.push_str(" ")?;
        }
        text.push_str(item.text().as_str())?;
    }
    Ok(text)
}

fn recipes_text(alloc: Global, recipes: &RecipeNames) -> Result<String, AllocError> {
    let mut text = String::new(alloc);
    for recipe in recipes.as_slice() {
        if !text.is_empty() {
            text.push_str(" ")?;
        }
        text.push_str(recipe.cookbook.as_str())?;
        text.push_str("::")?;
        text.push_str(recipe.recipe.as_str())?;
    }
    Ok(text)
}

fn described(alloc: Global, expansion: &Expansion) -> Result<String, AllocError> {
    let items = items_text(alloc, &expansion.items)?;
    let recipes = recipes_text(alloc, &expansion.recipes)?;
    let roles = joined(alloc, &expansion.roles)?;
    format!(in alloc; "({items}) ({recipes}) ({roles})")
}

fn told(alloc: Global, expanded: Result<Expansion, ExpandFault>) -> Result<String, AllocError> {
    match expanded {
        Ok(expansion) => described(alloc, &expansion),
        Err(ExpandFault::MissingRoles(names)) => {
            let names = joined(alloc, &names)?;
            format!(in alloc; "missing {names}")
        }
        Err(ExpandFault::NoMemory) => format!(in alloc; "out of memory"),
    }
}

fn expanded(alloc: Global, json: &str) -> Result<String, Fail> {
    let tree = read_json(alloc, json.as_bytes()).ok().ok_or("JSON")?;
    let roles = roles_in(alloc, &tree)?;
    let start = name(alloc, "start")?;
    let prod = name(alloc, "prod")?;
    let lists = roles.get(&start).ok_or("start")?;
    Ok(told(alloc, expand(alloc, &lists.run_list, &roles, &prod))?)
}

// A line, as its run list is expanded.
fn line_told(alloc: Global, line: &str) -> Result<String, Fail> {
    let (roles, _) = line.split_once(" => ").unwrap_or((line, ""));
    let told = expanded(alloc, roles)?;
    Ok(format!(in alloc; "{roles} => {told}")?)
}

// The lines whose run list is expanded otherwise.
fn lines_otherwise(alloc: Global, lines: &str) -> Result<String, Fail> {
    let mut otherwise = String::new(alloc);
    for line in lines.lines() {
        let told = line_told(alloc, line)?;
        if told.as_str() != line {
            otherwise.push_str(told.as_str())?;
            otherwise.push_str("\n")?;
        }
    }
    Ok(otherwise)
}

fn is_role(alloc: Global, json: &str) -> Result<bool, Fail> {
    let tree = read_json(alloc, json.as_bytes()).ok().ok_or("JSON")?;
    Ok(read_role(alloc, &tree)?.is_some())
}

// The lines that are roles.
fn roles_among(alloc: Global, lines: &str) -> Result<String, Fail> {
    let mut roles = String::new(alloc);
    for line in lines.lines() {
        if is_role(alloc, line)? {
            roles.push_str(line)?;
            roles.push_str("\n")?;
        }
    }
    Ok(roles)
}

fn item(alloc: Global, text: String) -> Result<Item, Fail> {
    Ok(read_item(alloc, &Text::of(text)).ok().ok_or("an item")?)
}

fn one_item(alloc: Global, text: String) -> Result<Items, Fail> {
    let mut items = Vec::new(alloc);
    items.push(item(alloc, text)?)?;
    Ok(Listed::of(items))
}

#[test]
fn run_lists_are_expanded(rt: HostRuntime) -> Result<(), Fail> {
    let otherwise = lines_otherwise(rt.alloc(), EXPANSIONS)?;
    assert_eq!(rt; otherwise.as_str(), "");
    Ok(())
}

#[test]
fn only_whole_objects_are_roles(rt: HostRuntime) -> Result<(), Fail> {
    let roles = roles_among(rt.alloc(), NO_ROLES)?;
    assert_eq!(rt; roles.as_str(), "");
    Ok(())
}

fn link(alloc: Global, k: u32, roles: &mut Roles) -> Result<(), Fail> {
    let next = k.saturating_add(1) % 10_000;
    let run_list = one_item(alloc, format!(in alloc; "role[r{next}]")?)?;
    let own = format!(in alloc; "r{k}")?;
    let own = name(alloc, own.as_str())?;
    let env_run_lists = NamedRunLists::new(alloc);
    roles.insert(
        own,
        RunLists {
            run_list,
            env_run_lists,
        },
    )?;
    Ok(())
}

fn chain(alloc: Global) -> Result<Roles, Fail> {
    let mut roles = Roles::new(alloc);
    for k in 0..10_000u32 {
        link(alloc, k, &mut roles)?;
    }
    Ok(roles)
}

// How many roles there are, and which is the first.
fn counted(alloc: Global, expanded: Result<Expansion, ExpandFault>) -> Result<String, AllocError> {
    let Ok(expansion) = expanded else {
        return String::from_str(alloc, "no expansion");
    };
    let count = expansion.roles.len();
    match expansion.roles.get(0) {
        Some(first) => format!(in alloc; "{count} {first}"),
        None => format!(in alloc; "{count}"),
    }
}

#[test]
fn a_chain_of_10_000_roles_is_expanded(rt: HostRuntime) -> Result<(), Fail> {
    let alloc = rt.alloc();
    let items = one_item(alloc, format!(in alloc; "role[r0]")?)?;
    let prod = name(alloc, "prod")?;
    let roles = chain(alloc)?;
    let told = counted(alloc, expand(alloc, &items, &roles, &prod))?;
    assert_eq!(rt; told.as_str(), "10000 r9999");
    Ok(())
}

//! Recipes with the plan or the fault that they come to.
use attr_merge::{Layer, Merged, are_layers, merge};
use doc_tree::{NoMemory, Text, Texts, Tree, read_json};
use host_tree::{Mode, Path};
use resource_core::*;
use std::alloc::{AllocError, Global};
use std::test::Fail;

// The resources of one recipe, over the attributes `{"a":{"b":7,"s":"x","t":true,"n":null,"l":[1],"":"e"}}`, and what they
// come to: each resource with its path and what is stated, its own actions, and what it fires (`!` at once).
const CASES: &str = r##"[] => 
[{"type":"file","name":"/f"}] => file[/f] /f create;
[{"type":"file","name":"/etc/x","content":"v=#{node['a']['b']}"}] => file[/etc/x] /etc/x create content v=7;
[{"type":"file","name":"/etc/x","content":"v=#{node[\"a\"]}"}] => 0 missing a
[{"type":"file","name":"/etc/x","content":"v=#{nod"}] => 0 bad content
[{"type":"file","name":"/f","content":"#{node[\"a\"]['s']}#{node['a'][\"t\"]} # {#"}] => file[/f] /f create content xtrue # {#;
[{"type":"file","name":"/f","content":"#{node['a']['']}"}] => file[/f] /f create content e;
[{"type":"file","name":"/f","content":"#{node}"}] => 0 bad content
[{"type":"file","name":"/f","content":"#{node['a']['n']}"}] => 0 missing a n
[{"type":"file","name":"/f","content":"#{node['a']['l']}"}] => 0 missing a l
[{"type":"file","name":"n","path":"/#{node['a']['s']}","mode":"0644","force_unlink":"yes"}] => file[n] /x create mode 420 force;
[{"type":"file","name":"/f","mode":4095,"action":"nothing"}] => file[/f] /f nothing mode 4095;
[{"type":"file","name":"/f","mode":4096}] => 0 bad mode
[{"type":"file","name":"/f","mode":"888"}] => 0 bad mode
[{"type":"file","name":"/f","mode":755}] => file[/f] /f create mode 755;
[{"type":"directory","name":"/d","mode":"755","recursive":true}] => directory[/d] /d create mode 493 recursive;
[{"type":"directory","name":"/d","action":["create","delete"]}] => directory[/d] /d create delete;
[{"type":"directory","name":"/d","action":"create_if_missing"}] => 0 action
[{"type":"directory","name":"/d","action":1}] => 0 action
[{"type":"directory","name":"/d","force_unlink":true}] => 0 property
[{"type":"directory","name":"/d","recursive":"maybe"}] => 0 bad recursive
[{"type":"link","name":"l","target_file":"/l","to":"a","link_type":"symbolic"}] => link[l] /l create to a;
[{"type":"link","name":"/l"}] => 0 bad to
[{"type":"link","name":"/l","action":"delete"}] => link[/l] /l delete;
[{"type":"link","name":"/l","to":"a","link_type":"hard"}] => 0 bad link_type
[{"type":"link","name":"/l","action":"nothing"},{"type":"file","name":"/f","notifies":[{"action":"create","resource":"link[/l]"}]}] => 0 bad to
[{"type":"link","name":"/l","action":"nothing","to":"a"},{"type":"link","name":"/l","action":"nothing"},{"type":"file","name":"/f","notifies":[{"action":"create","resource":"link[/l]"}]}] => link[/l] /l nothing to a;link[/l] /l nothing;file[/f] /f create > create 0;
[{"type":"link","name":"/l","action":"nothing","subscribes":[{"action":"create","resource":"file[/f]"}]},{"type":"file","name":"/f"}] => 0 bad to
[{"type":"user","name":"u"}] => 0 type
[{"name":"u"}] => 0 type
[{"type":"file"}] => 0 bad name
[{"type":"file","name":1,"mode":"9"}] => 0 bad name
[{"type":"file","name":"/a/../b"}] => 0 path
[{"type":"file","name":"/a//b"}] => 0 path
[{"type":"file","name":"/a/"}] => 0 path
[{"type":"file","name":"a"}] => 0 path
[{"type":"file","name":"/"}] => 0 path
[{"type":"file","name":"x","mode":"9"},{"type":"user","name":"u"}] => 0 bad mode
[{"type":"file","name":"/f","notifies":[{"action":"create","resource":"file[/g]","timer":"later"}]}] => 0 bad notifies
[{"type":"file","name":"/f","notifies":[{"action":"create","resource":"file[/g]","why":1}]}] => 0 bad notifies
[{"type":"file","name":"/f","subscribes":{}}] => 0 bad subscribes
[{"type":"file","name":"/f","notifies":[{"action":"create","resource":"file[/g]"}]}] => 0 no file[/g]
[{"type":"directory","name":"/f","subscribes":[{"action":"create_if_missing","resource":"directory[/f]"}]}] => 0 no directory[/f]
[{"type":"file","name":"/f","notifies":[{"action":"create","resource":"file[/g]","timer":"immediately"}]},{"type":"file","name":"/g","notifies":[{"action":"create","resource":"file[/f]","timer":"immediately"}]}] => cycle file[/f] file[/g]
[{"type":"file","name":"/f","notifies":[{"action":"create","resource":"file[/g]","timer":"immediately"}]},{"type":"file","name":"/g","notifies":[{"action":"create","resource":"file[/f]","timer":"delayed"}]}] => file[/f] /f create > create 1!;file[/g] /g create > create 0;
[{"type":"file","name":"/a","notifies":[{"action":"create","resource":"file[/b]","timer":"immediately"}]},{"type":"file","name":"/b","notifies":[{"action":"nothing","resource":"file[/c]","timer":"immediately"}]},{"type":"file","name":"/c","subscribes":[{"action":"delete","resource":"file[/d]","timer":"immediately"}],"notifies":[{"action":"create","resource":"file[/d]","timer":"immediately"}]},{"type":"file","name":"/d"}] => cycle file[/c] file[/d]
[{"type":"file","name":"/a","notifies":[{"action":"delete","resource":"file[/b]"}]},{"type":"file","name":"/b","subscribes":[{"action":"create","resource":"file[/a]","timer":"immediately"}]},{"type":"file","name":"/c","subscribes":[{"action":"nothing","resource":"file[/a]"}]}] => file[/a] /a create > delete 1 create 1! nothing 2;file[/b] /b create;file[/c] /c create;
"##;

// What is no recipe.
const NO_RECIPES: &str = r#"[]
{}
{"resources":{}}
{"resources":[1]}
"#;

const ATTRIBUTES: &str = r#"{"a":{"b":7,"s":"x","t":true,"n":null,"l":[1],"":"e"}}"#;

fn tree(alloc: Global, json: &str) -> Result<Tree, Fail> {
    Ok(read_json(alloc, json.as_bytes())?)
}

// Attributes of one layer.
fn merged(alloc: Global) -> Result<Merged, Fail> {
    let mut layers = Vec::new(alloc);
    layers.push(Layer {
        level: 1,
        name: Text::from_str(alloc, "a")?,
        tree: tree(alloc, ATTRIBUTES)?,
    })?;
    let merged = if are_layers(&layers) {
        merge(alloc, &layers).ok()
    } else {
        None
    };
    Ok(merged.ok_or("layers")?)
}

// A recipe of these resources.
fn recipes(alloc: Global, resources: &str) -> Result<Recipes, Fail> {
    let text = format!(in alloc; "{{\"resources\":{resources}}}")?;
    let mut recipes = Recipes::new(alloc);
    recipes.push(tree(alloc, text.as_str())?)?;
    Ok(recipes)
}

// Texts, each behind a space.
fn tell_texts(told: &mut String, texts: &Texts) -> Result<(), AllocError> {
    for text in texts.as_slice() {
        told.push_str(" ")?;
        told.push_str(text.as_str())?;
    }
    Ok(())
}

fn tell_stated(alloc: Global, told: &mut String, resource: &Resource) -> Result<(), AllocError> {
    if let Some(content) = &resource.content {
        told.push_str(format!(in alloc; " content {content}")?.as_str())?;
    }
    if let Some(mode) = resource.mode {
        let bits = mode.bits();
        told.push_str(format!(in alloc; " mode {bits}")?.as_str())?;
    }
    if let Some(to) = &resource.to {
        told.push_str(format!(in alloc; " to {to}")?.as_str())?;
    }
    told.push_str(if resource.force_unlink { " force" } else { "" })?;
    told.push_str(if resource.recursive { " recursive" } else { "" })
}

fn tell_fires(alloc: Global, told: &mut String, fires: &Notifications) -> Result<(), AllocError> {
    told.push_str(if fires.is_empty() { "" } else { " >" })?;
    for fire in fires.as_slice() {
        let word = fire.action.word();
        let target = fire.target;
        let sign = if fire.timer == Timer::Immediately {
            "!"
        } else {
            ""
        };
        told.push_str(format!(in alloc; " {word} {target}{sign}")?.as_str())?;
    }
    Ok(())
}

fn tell_resource(
    alloc: Global,
    told: &mut String,
    plan: &RunPlan,
    place: usize,
    resource: &Resource,
) -> Result<(), NoMemory> {
    told.push_str(resource.title(alloc)?.as_str())?;
    told.push_str(" ")?;
    told.push_str(resource.path.as_str())?;
    for action in resource.actions.as_slice() {
        told.push_str(" ")?;
        told.push_str(action.word())?;
    }
    tell_stated(alloc, told, resource)?;
    if let Some(fires) = plan.fires().get(place) {
        tell_fires(alloc, told, fires)?;
    }
    told.push_str(";")?;
    Ok(())
}

fn plan_told(alloc: Global, plan: &RunPlan) -> Result<String, NoMemory> {
    let mut told = String::new(alloc);
    for (place, resource) in plan.resources().iter().enumerate() {
        tell_resource(alloc, &mut told, plan, place, resource)?;
    }
    Ok(told)
}

fn fault_told(alloc: Global, fault: CompileFault) -> Result<String, AllocError> {
    match fault {
        CompileFault::UnknownType(place) => format!(in alloc; "{place} type"),
        CompileFault::UnknownAction(place) => format!(in alloc; "{place} action"),
        CompileFault::UnknownProperty(place) => format!(in alloc; "{place} property"),
        CompileFault::BadValue(place, property) => format!(in alloc; "{place} bad {property}"),
        CompileFault::PathNotNormal(place) => format!(in alloc; "{place} path"),
        CompileFault::NoSuchResource(place, title) => format!(in alloc; "{place} no {title}"),
        CompileFault::MissingAttribute(place, path) => {
            let mut told = format!(in alloc; "{place} missing")?;
            tell_texts(&mut told, &path)?;
            Ok(told)
        }
        CompileFault::ImmediateCycle(names) => {
            let mut told = String::from_str(alloc, "cycle")?;
            tell_texts(&mut told, &names)?;
            Ok(told)
        }
        CompileFault::NoMemory => String::from_str(alloc, "out of memory"),
    }
}

fn compiled(alloc: Global, recipes: &Recipes, merged: &Merged) -> Result<String, NoMemory> {
    if !are_recipes(recipes) {
        return Ok(String::from_str(alloc, "no recipes")?);
    }
    match compile(alloc, recipes, merged) {
        Ok(plan) => plan_told(alloc, &plan),
        Err(fault) => Ok(fault_told(alloc, fault)?),
    }
}

// A line, as its resources are compiled.
fn line_told(alloc: Global, merged: &Merged, line: &str) -> Result<String, Fail> {
    let (resources, _) = line.split_once(" => ").unwrap_or((line, ""));
    let recipes = recipes(alloc, resources)?;
    let told = compiled(alloc, &recipes, merged)?;
    Ok(format!(in alloc; "{resources} => {told}")?)
}

// The lines whose resources are compiled otherwise.
fn lines_otherwise(alloc: Global, lines: &str) -> Result<String, Fail> {
    let merged = merged(alloc)?;
    let mut otherwise = String::new(alloc);
    for line in lines.lines() {
        let told = line_told(alloc, &merged, line)?;
        if told.as_str() != line {
            otherwise.push_str(told.as_str())?;
            otherwise.push_str("\n")?;
        }
    }
    Ok(otherwise)
}

#[test]
fn recipes_are_compiled(rt: HostRuntime) -> Result<(), Fail> {
    let otherwise = lines_otherwise(rt.alloc(), CASES)?;
    assert_eq!(rt; otherwise.as_str(), "");
    Ok(())
}

// The lines that are recipes.
fn recipes_among(alloc: Global, lines: &str) -> Result<String, Fail> {
    let mut found = String::new(alloc);
    for line in lines.lines() {
        let mut recipes = Recipes::new(alloc);
        recipes.push(tree(alloc, line)?)?;
        if are_recipes(&recipes) {
            found.push_str(line)?;
        }
    }
    Ok(found)
}

#[test]
fn only_dicts_with_resources_are_recipes(rt: HostRuntime) -> Result<(), Fail> {
    let found = recipes_among(rt.alloc(), NO_RECIPES)?;
    assert_eq!(rt; found.as_str(), "");
    Ok(())
}

// So many files, of which each notifies the next immediately.
fn chain(alloc: Global, count: u32) -> Result<String, AllocError> {
    let mut text = String::from_str(alloc, "[")?;
    for k in 0..count {
        let next = k.saturating_add(1);
        let link = format!(in alloc;
            "{{\"type\":\"file\",\"name\":\"/{k}\",\"notifies\":[{{\"action\":\"create\",\"resource\":\"file[/{next}]\",\"timer\":\"immediately\"}}]}},"
        )?;
        text.push_str(link.as_str())?;
    }
    text.push_str(format!(in alloc; "{{\"type\":\"file\",\"name\":\"/{count}\"}}]")?.as_str())?;
    Ok(text)
}

// How deep the first resource of a plan lies.
fn first_depth(alloc: Global, recipes: &Recipes, merged: &Merged) -> Option<usize> {
    if !are_recipes(recipes) {
        return None;
    }
    match compile(alloc, recipes, merged) {
        Ok(plan) => plan.depths().first().copied(),
        Err(_) => None,
    }
}

#[test]
fn a_chain_of_10_000_immediate_notifications_is_compiled(rt: HostRuntime) -> Result<(), Fail> {
    let alloc = rt.alloc();
    let text = chain(alloc, 10_000)?;
    let recipes = recipes(alloc, text.as_str())?;
    let merged = merged(alloc)?;
    let depth = first_depth(alloc, &recipes, &merged);
    assert_eq!(rt; depth.unwrap_or(0), 10_000);
    Ok(())
}

#[test]
fn modes_and_paths_are_made(rt: HostRuntime) -> Result<(), Fail> {
    let alloc = rt.alloc();
    let path = Path::of(Text::from_str(alloc, "/a/b")?).ok_or("a path")?;
    let mode = Mode::of(0o755).ok_or("a mode")?;
    let bits = mode.bits();
    let word = ResourceType::Link.word();
    let first = ResourceType::File
        .actions()
        .first()
        .copied()
        .ok_or("an action")?;
    let deleted = ResourceType::File
        .action_named("delete")
        .ok_or("an action")?;
    let told = format!(in alloc;
        "{} {bits} {word} {} {}",
        path.as_str(),
        first.word(),
        deleted.word()
    )?;
    assert_eq!(rt; told.as_str(), "/a/b 493 link create delete");
    Ok(())
}

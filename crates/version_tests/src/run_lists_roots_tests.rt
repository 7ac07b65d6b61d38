use dep_solver::Roots;
use doc_tree::{NoMemory, Text, Tree, Trees};
use run_lists::{Item, names_a_role, recipes_of, roots_of, run_list_of};
use std::alloc::{AllocError, Global};
use std::test::Fail;

// Items, the names of their roots, the pins, and whether one of them is a role.
const ROOTS: &str = " =>  /  / no role
b a => b a /  / no role
z::x a z recipe[a::y] b => z a b /  / no role
role[b] a role[a] c => a c /  / a role
role[a] =>  /  / a role
a@1.0.0 b a@2.0 => a b / a 1.0.0, a 2.0.0 / no role
b@1.2 recipe[a::x@0.1.0] b => b a / b 1.2.0, a 0.1.0 / no role
a recipe[ => no run list
a@1 b => no run list
";

// These texts as a document says them.
fn list_of(alloc: Global, texts: &str) -> Result<Tree, NoMemory> {
    let mut trees = Trees::new(alloc);
    for text in texts.split_whitespace() {
        trees.push(Tree::Words(Text::from_str(alloc, text)?))?;
    }
    Ok(Tree::List(trees))
}

fn described(alloc: Global, roots: &Roots) -> Result<String, AllocError> {
    let mut told = String::new(alloc);
    let mut between = "";
    for name in roots.names.as_slice() {
        told.push_str(between)?;
        told.push_str(name.as_str())?;
        between = " ";
    }
    told.push_str(" / ")?;
    between = "";
    for pin in roots.pins.as_slice() {
        let (name, version) = (&pin.name, &pin.version);
        told.push_str(format!(in alloc; "{between}{name} {version}")?.as_str())?;
        between = ", ";
    }
    Ok(told)
}

// What items ask, and whether one of them is a role.
fn asked_by(alloc: Global, items: &[Item]) -> Result<String, Fail> {
    let mut told = described(alloc, &roots_of(alloc, items)?)?;
    told.push_str(if names_a_role(items) {
        " / a role"
    } else {
        " / no role"
    })?;
    Ok(told)
}

// A line, as its items are read.
fn line_told(alloc: Global, line: &str) -> Result<String, Fail> {
    let (texts, _) = line.split_once(" => ").unwrap_or((line, ""));
    let told = match run_list_of(alloc, &list_of(alloc, texts)?)? {
        Some(items) => asked_by(alloc, items.as_slice())?,
        None => String::from_str(alloc, "no run list")?,
    };
    Ok(format!(in alloc; "{texts} => {told}")?)
}

#[test]
fn run_lists_give_their_roots(rt: HostRuntime) -> Result<(), Fail> {
    for line in ROOTS.lines() {
        let told = line_told(rt.alloc(), line)?;
        assert_eq!(rt; told.as_str(), line);
    }
    Ok(())
}

#[test]
fn a_run_list_with_a_role_gives_no_recipes(rt: HostRuntime) -> Result<(), Fail> {
    let recipes = recipes_of(rt.alloc(), &list_of(rt.alloc(), "a b")?)?;
    assert!(rt; recipes.is_some_and(|items| items.len() == 2));
    let roles = recipes_of(rt.alloc(), &list_of(rt.alloc(), "a role[b]")?)?;
    assert!(rt; roles.is_none());
    Ok(())
}

use doc_tree::{Name, Text};
use run_lists::{Item, ItemFault, Named, RecipeName, read_item};
use std::alloc::{AllocError, Global};
use std::test::Fail;

// What was sent, and what it is: the text that is stored and what it names, or the fault.
const ITEMS: &str = "recipe[a] => recipe[a]: a default
recipe[a::x] => recipe[a::x]: a x
recipe[a::x@1.2.3] => recipe[a::x@1.2.3]: a x 1.2.3
recipe[a@1.2.3] => recipe[a@1.2.3]: a default 1.2.3
a => recipe[a]: a default
a::x => recipe[a::x]: a x
a@01.2.3 => recipe[a@01.2.3]: a default 1.2.3
a::x@2.0 => recipe[a::x@2.0]: a x 2.0.0
My-a_2.x::in.st => recipe[My-a_2.x::in.st]: My-a_2.x in.st
role => recipe[role]: role default
recipe::role => recipe[recipe::role]: recipe role
role[web.s-1_A] => role[web.s-1_A]: role web.s-1_A
role[recipe] => role[recipe]: role recipe
role[ => not an item
recipe[ => not an item
 => not an item
recipe[] => not an item
role[] => not an item
recipe[a => not an item
role[a => not an item
a] => not an item
recipe[a]] => not an item
recipe[a]x => not an item
recipe[a]  => not an item
role[a::b] => not an item
role[a@1.0.0] => not an item
a:: => not an item
::a => not an item
a::b::c => not an item
a:b => not an item
a:::b => not an item
a b => not an item
 a => not an item
recipe[ a ] => not an item
Recipe[a] => not an item
@1.0.0 => not an item
recipe[@1.0] => not an item
recipe[a@1 => not an item
recipe[a@1.0.0 => not an item
a b@1.0.0 => not an item
é => not an item
recipe[a@1] => not a version behind @
recipe[a@] => not a version behind @
a@ => not a version behind @
a::x@1.2.3.4 => not a version behind @
a@1.0@2.0 => not a version behind @
a@ 1.0 => not a version behind @
a@1.0] => not a version behind @
recipe[a::b@1.18446744073709551616] => not a version behind @
";

fn described(alloc: Global, item: &Item) -> Result<String, AllocError> {
    let text = item.text();
    match item.named() {
        Named::Recipe(name, version) => {
            let (cookbook, recipe) = (&name.cookbook, &name.recipe);
            match version {
                None => format!(in alloc; "{text}: {cookbook} {recipe}"),
                Some(version) => format!(in alloc; "{text}: {cookbook} {recipe} {version}"),
            }
        }
        Named::Role(role) => format!(in alloc; "{text}: role {role}"),
    }
}

fn told(alloc: Global, sent: &str) -> Result<String, AllocError> {
    let text = Text::of(String::from_str(alloc, sent)?);
    match read_item(alloc, &text) {
        Ok(item) => described(alloc, &item),
        Err(fault) => fault.to_string(alloc),
    }
}

// A line, as what was sent is read.
fn line_told(alloc: Global, line: &str) -> Result<String, AllocError> {
    let (sent, _) = line.split_once(" => ").unwrap_or((line, ""));
    let told = told(alloc, sent)?;
    format!(in alloc; "{sent} => {told}")
}

// The lines that are read otherwise.
fn lines_otherwise(alloc: Global, lines: &str) -> Result<String, AllocError> {
    let mut otherwise = String::new(alloc);
    for line in lines.lines() {
        let told = line_told(alloc, line)?;
        if told.as_str() != line {
            otherwise.push_str(told.as_str())?;
            otherwise.push_str("\n")?;
        }
    }
    Ok(otherwise)
}

fn letters(alloc: Global, count: usize) -> Result<String, AllocError> {
    let mut name = String::new(alloc);
    for _ in 0..count {
        name.push('a')?;
    }
    Ok(name)
}

fn is_item(alloc: Global, sent: String) -> bool {
    read_item(alloc, &Text::of(sent)).is_ok()
}

fn read(alloc: Global, sent: &str) -> Result<Item, ItemFault> {
    read_item(alloc, &Text::from_str(alloc, sent)?)
}

#[test]
fn items_are_read_and_stored(rt: HostRuntime) -> Result<(), Fail> {
    let otherwise = lines_otherwise(rt.alloc(), ITEMS)?;
    assert_eq!(rt; otherwise.as_str(), "");
    Ok(())
}

#[test]
fn names_have_at_most_255_bytes(rt: HostRuntime) -> Result<(), Fail> {
    let longest = letters(rt.alloc(), 255)?;
    assert!(rt;
        is_item(
            rt.alloc(),
            format!(in rt.alloc(); "{longest}::{longest}@1.0.0")?
        )
    );
    assert!(rt; is_item(rt.alloc(), format!(in rt.alloc(); "role[{longest}]")?));
    let longer = letters(rt.alloc(), 256)?;
    assert!(rt; !is_item(rt.alloc(), format!(in rt.alloc(); "{longer}::a")?));
    assert!(rt; !is_item(rt.alloc(), format!(in rt.alloc(); "a::{longer}")?));
    assert!(rt; !is_item(rt.alloc(), format!(in rt.alloc(); "role[{longer}]")?));
    Ok(())
}

#[test]
fn an_item_gives_its_parts(rt: HostRuntime) -> Result<(), Fail> {
    let item = read(rt.alloc(), "a::x@1.2")?.copy(rt.alloc())?;
    let recipe = item.recipe().ok_or("no recipe")?;
    assert_eq!(rt; recipe.cookbook.as_str(), "a");
    assert_eq!(rt; recipe.recipe.as_str(), "x");
    assert_eq!(rt; item.version().ok_or("no version")?.minor, 2);
    assert!(rt; item.role().is_none());
    let item = read(rt.alloc(), "role[web]")?;
    assert_eq!(rt; item.role().ok_or("no role")?.as_str(), "web");
    assert!(rt; item.recipe().is_none() && item.version().is_none());
    Ok(())
}

#[test]
fn recipe_names_are_copied(rt: HostRuntime) -> Result<(), Fail> {
    let alloc = rt.alloc();
    let name = RecipeName {
        cookbook: Name::of(Text::from_str(alloc, "a")?).ok().ok_or("a name")?,
        recipe: Name::of(Text::from_str(alloc, "b")?).ok().ok_or("a name")?,
    };
    assert_eq!(rt; name.copy(alloc)?, name);
    Ok(())
}

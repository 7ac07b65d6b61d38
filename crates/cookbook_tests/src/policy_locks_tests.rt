//! What no clause says: that the calls succeed, and that the definitions are those of the product.
use crate::policy_locks_rows::{LOCKS, LOCKS_OF_BASE, MADE, REVISIONS};
use dep_solver::{Cookbook, Cookbooks, Release, Releases, Universe};
use doc_tree::{Field, Fields, Name, Names, Text, Tree, json_text, read_json};
use policy_locks::{
    Identified, Identifiers, Lock, LockFault, MakeFault, PolicySource, locks_read_back, make_lock,
    read_lock, read_lock_of, read_source, revision_id,
};
use std::alloc::{AllocError, Global};
use std::test::Fail;
use version_rules::{Need, Needs, Version, parse_constraint, parse_version};

fn name(alloc: Global, text: &str) -> Result<Name, Fail> {
    Ok(Name::of(Text::from_str(alloc, text)?).ok().ok_or("a name")?)
}

fn version(text: &str) -> Result<Version, Fail> {
    Ok(parse_version(text).ok().ok_or("a version")?)
}

fn words(tree: &Tree) -> &str {
    match tree {
        Tree::Words(text) => text.as_str(),
        Tree::Null | Tree::Bool(_) | Tree::Whole(_) | Tree::List(_) | Tree::Dict(_) => "",
    }
}

fn fields(tree: &Tree) -> Result<&Fields, Fail> {
    match tree {
        Tree::Dict(fields) => Ok(fields),
        Tree::Null | Tree::Bool(_) | Tree::Whole(_) | Tree::Words(_) | Tree::List(_) => {
            Err("a dict")?
        }
    }
}

fn part(tree: &Tree, index: usize) -> Result<&Tree, Fail> {
    match tree {
        Tree::List(trees) => Ok(trees.as_slice().get(index).ok_or("a part")?),
        Tree::Null | Tree::Bool(_) | Tree::Whole(_) | Tree::Words(_) | Tree::Dict(_) => {
            Err("a list")?
        }
    }
}

fn need_in(alloc: Global, field: &Field) -> Result<Need, Fail> {
    let constraint = parse_constraint(words(&field.tree))
        .ok()
        .ok_or("a constraint")?;
    Ok(Need {
        name: name(alloc, field.key.as_str())?,
        constraint,
    })
}

fn needs_in(alloc: Global, tree: &Tree) -> Result<Needs, Fail> {
    let mut needs = Needs::new(alloc);
    for field in fields(tree)?.as_slice() {
        needs.push(need_in(alloc, field)?)?;
    }
    Ok(needs)
}

fn release_in(alloc: Global, field: &Field) -> Result<Release, Fail> {
    let version = version(field.key.as_str())?;
    let release = Release::of(version, needs_in(alloc, &field.tree)?);
    Ok(release.ok_or("a release")?)
}

fn releases_in(alloc: Global, tree: &Tree) -> Result<Releases, Fail> {
    let mut releases = Releases::new(alloc);
    for field in fields(tree)?.as_slice() {
        releases.push(release_in(alloc, field)?)?;
    }
    Ok(releases)
}

fn cookbook_in(alloc: Global, named: &str, tree: &Tree) -> Result<Cookbook, Fail> {
    let name = name(alloc, named)?;
    let cookbook = Cookbook::of(name, releases_in(alloc, tree)?);
    Ok(cookbook.ok_or("a cookbook")?)
}

fn universe_in(alloc: Global, tree: &Tree) -> Result<Universe, Fail> {
    let mut cookbooks = Cookbooks::new(alloc);
    for field in fields(tree)?.as_slice() {
        cookbooks.push(cookbook_in(alloc, field.key.as_str(), &field.tree)?)?;
    }
    Ok(Universe::of(cookbooks).ok_or("a universe")?)
}

fn identified(alloc: Global, named: &str, field: &Field) -> Result<Identified, Fail> {
    let version = version(field.key.as_str())?;
    let name = name(alloc, named)?;
    Ok(Identified {
        name,
        version,
        identifier: Text::from_str(alloc, words(&field.tree))?,
    })
}

fn add_identified(
    alloc: Global,
    identifiers: &mut Identifiers,
    cookbook: &Field,
) -> Result<(), Fail> {
    for field in fields(&cookbook.tree)?.as_slice() {
        identifiers.push(identified(alloc, cookbook.key.as_str(), field)?)?;
    }
    Ok(())
}

fn identifiers_in(alloc: Global, tree: &Tree) -> Result<Identifiers, Fail> {
    let mut identifiers = Identifiers::new(alloc);
    for cookbook in fields(tree)?.as_slice() {
        add_identified(alloc, &mut identifiers, cookbook)?;
    }
    Ok(identifiers)
}

fn written(alloc: Global, tree: &Tree) -> Result<String, Fail> {
    let text = json_text(alloc, tree)?;
    Ok(String::from_utf8_lossy(alloc, text.as_slice())?)
}

/// The stored object or the fault.
fn stored(alloc: Global, read: &Result<Lock, LockFault>) -> Result<String, Fail> {
    match read {
        Ok(lock) => written(alloc, &lock.whole),
        Err(fault) => Ok(fault.to_string(alloc)?),
    }
}

/// The revision or the fault.
fn revision(alloc: Global, read: &Result<Lock, LockFault>) -> Result<String, Fail> {
    match read {
        Ok(lock) => Ok(revision_id(alloc, lock)?.into_string()),
        Err(fault) => Ok(fault.to_string(alloc)?),
    }
}

fn joined(alloc: Global, names: &Names) -> Result<String, AllocError> {
    let mut text = String::new(alloc);
    for name in names.as_slice() {
        if !text.is_empty() {
            text.push_str(" ")?;
        }
        text.push_str(name.as_str())?;
    }
    Ok(text)
}

fn fault_told(alloc: Global, fault: &MakeFault) -> Result<String, Fail> {
    match fault {
        MakeFault::Unsolvable {
            no_cookbook,
            no_version,
        } => {
            let no_cookbook = joined(alloc, no_cookbook)?;
            let no_version = joined(alloc, no_version)?;
            Ok(format!(in alloc; "none ({no_cookbook}) ({no_version})")?)
        }
        MakeFault::NoIdentifier(_) | MakeFault::NoMemory => Ok(fault.to_string(alloc)?),
    }
}

/// The stored object of a lock that is read again, which has the revision that was made.
fn told_again(alloc: Global, made: &Lock, again: &Lock) -> Result<String, Fail> {
    if revision_id(alloc, again)?.as_str() != made.revision_id.as_str() {
        Err("its revision")?;
    }
    written(alloc, &again.whole)
}

fn read_told(alloc: Global, made: &Lock, read: &Result<Lock, LockFault>) -> Result<String, Fail> {
    match read {
        Ok(again) => told_again(alloc, made, again),
        Err(fault) => Ok(fault.to_string(alloc)?),
    }
}

/// What a lock stores reads as what it is.
fn lock_told(alloc: Global, source: &PolicySource, made: &Lock) -> Result<String, Fail> {
    read_told(alloc, made, &read_lock_of(alloc, &made.whole, &source.name))
}

/// The stored object of a lock that is made of a source, or the fault.
fn made_told(
    alloc: Global,
    source: &PolicySource,
    made: &Result<Lock, MakeFault>,
) -> Result<String, Fail> {
    match made {
        Ok(lock) => lock_told(alloc, source, lock),
        Err(fault) => fault_told(alloc, fault),
    }
}

fn made_in(
    alloc: Global,
    source: &PolicySource,
    universe: &Universe,
    tree: &Tree,
) -> Result<String, Fail> {
    let identifiers = identifiers_in(alloc, part(tree, 2)?)?;
    made_told(
        alloc,
        source,
        &make_lock(alloc, source, universe, &identifiers),
    )
}

fn made(alloc: Global, source: &PolicySource, tree: &Tree) -> Result<String, Fail> {
    let universe = universe_in(alloc, part(tree, 0)?)?;
    made_in(alloc, source, &universe, tree)
}

fn made_of(
    alloc: Global,
    read: &Result<PolicySource, LockFault>,
    tree: &Tree,
) -> Result<String, Fail> {
    match read {
        Ok(source) => made(alloc, source, tree),
        Err(fault) => Ok(fault.to_string(alloc)?),
    }
}

/// What is read or made of a body.
#[derive(Clone, Copy)]
enum Telling {
    Stored,
    StoredOfBase,
    Revision,
    Made,
}

fn told(alloc: Global, telling: Telling, tree: &Tree) -> Result<String, Fail> {
    match telling {
        Telling::Stored => stored(alloc, &read_lock(alloc, tree)),
        Telling::StoredOfBase => stored(alloc, &read_lock_of(alloc, tree, &name(alloc, "base")?)),
        Telling::Revision => revision(alloc, &read_lock(alloc, tree)),
        Telling::Made => made_of(alloc, &read_source(alloc, part(tree, 1)?), tree),
    }
}

/// A line, as reading its body tells it.
fn line_told(alloc: Global, telling: Telling, line: &str) -> Result<String, Fail> {
    let (body, _) = line.split_once(" => ").unwrap_or((line, ""));
    let tree = read_json(alloc, body.as_bytes())?;
    let told = told(alloc, telling, &tree)?;
    Ok(format!(in alloc; "{body} => {told}")?)
}

/// The lines that reading tells otherwise.
fn lines_otherwise(alloc: Global, telling: Telling, lines: &str) -> Result<String, Fail> {
    let mut otherwise = String::new(alloc);
    for line in lines.lines() {
        let told = line_told(alloc, telling, line)?;
        if told.as_str() != line {
            otherwise.push_str(told.as_str())?;
            otherwise.push_str("\n")?;
        }
    }
    Ok(otherwise)
}

#[test]
fn locks_are_read_and_stored(rt: HostRuntime) -> Result<(), Fail> {
    locks_read_back();
    let otherwise = lines_otherwise(rt.alloc(), Telling::Stored, LOCKS)?;
    assert_eq!(rt; otherwise.as_str(), "");
    let otherwise = lines_otherwise(rt.alloc(), Telling::StoredOfBase, LOCKS_OF_BASE)?;
    assert_eq!(rt; otherwise.as_str(), "");
    Ok(())
}

#[test]
fn locks_have_a_revision(rt: HostRuntime) -> Result<(), Fail> {
    let otherwise = lines_otherwise(rt.alloc(), Telling::Revision, REVISIONS)?;
    assert_eq!(rt; otherwise.as_str(), "");
    Ok(())
}

#[test]
fn locks_are_made_of_sources(rt: HostRuntime) -> Result<(), Fail> {
    let otherwise = lines_otherwise(rt.alloc(), Telling::Made, MADE)?;
    assert_eq!(rt; otherwise.as_str(), "");
    Ok(())
}

//! Small lists of layers, each with its leaves, their values and where these come from.
use attr_merge::*;
use doc_tree::{NoMemory, Text, Tree, Trees, json_text, read_json};
use std::alloc::Global;
use std::test::Fail;

// Layers, lowest first, each as its level, its name and its attributes; and the leaves that they make.
const CASES: &str = r#"[] => no leaf
[[1,"a",{}]] => no leaf
[[1,"a",{"k":1}]] => ["k"] = 1 <- 1 a
[[1,"a",{"k":null}]] => no leaf
[[1,"a",{"k":{}}]] => ["k"] = {} <- 1 a
[[1,"a",{"k":{"x":null}}]] => ["k"] = {} <- 1 a
[[1,"a",{"k":[]}]] => ["k"] = [] <- 1 a
[[1,"a",{"k":[1,1,2]}]] => ["k"] = [1,1,2] <- 1 a
[[1,"a",{"a":"x","b":-1,"c":false,"d":0}]] => ["a"] = "x" <- 1 a; ["b"] = -1 <- 1 a; ["c"] = false <- 1 a; ["d"] = 0 <- 1 a
[[1,"a",{"b":1,"a":2,"B":3}]] => ["B"] = 3 <- 1 a; ["a"] = 2 <- 1 a; ["b"] = 1 <- 1 a
# Paths compare key by key: the text of the second would come first.
[[1,"a",{"a":{"z":1},"a!":2}]] => ["a","z"] = 1 <- 1 a; ["a!"] = 2 <- 1 a
[[1,"a",{"":{"":1}}]] => ["",""] = 1 <- 1 a
# A later layer of one level stands higher.
[[1,"a",{"k":true}],[1,"b",{"k":false}]] => ["k"] = false <- 1 b
[[4,"a",{"k":"role"}],[5,"b",{"k":"force"}]] => ["k"] = "force" <- 5 b
[[11,"a",{"k":"role"}],[12,"b",{"k":"environment"}]] => ["k"] = "environment" <- 12 b
# Null is no value.
[[1,"a",{"k":1}],[15,"b",{"k":null}]] => ["k"] = 1 <- 1 a
[[1,"a",{"k":{"x":1}}],[2,"b",{"k":null}]] => ["k","x"] = 1 <- 1 a
[[1,"a",{"k":{"x":1}}],[2,"b",{"k":{"x":null}}]] => ["k","x"] = 1 <- 1 a
[[1,"a",{"k":{"a":{"b":null}}}]] => ["k","a"] = {} <- 1 a
[[1,"a",{"k":{"a":{}}}],[2,"b",{"k":{"a":{"b":null}}}]] => ["k","a"] = {} <- 2 b
[[4,"a",{"k":[1]}],[9,"b",{"k":null}]] => ["k"] = [1] <- 4 a
# Dicts are merged, and cut by what is neither a dict nor null.
[[1,"a",{"k":{"x":1}}],[2,"b",{"k":{"y":2}}]] => ["k","x"] = 1 <- 1 a; ["k","y"] = 2 <- 2 b
[[1,"a",{"k":{"x":1}}],[2,"b",{"k":{"x":2}}]] => ["k","x"] = 2 <- 2 b
[[1,"a",{"k":{"x":1}}],[2,"b",{"k":5}]] => ["k"] = 5 <- 2 b
[[1,"a",{"k":5}],[2,"b",{"k":{"x":1}}]] => ["k","x"] = 1 <- 2 b
[[1,"a",{"k":{"a":1}}],[2,"b",{"k":5}],[3,"c",{"k":{"b":2}}]] => ["k","b"] = 2 <- 3 c
[[1,"a",{"k":5}],[2,"b",{"k":{}}]] => ["k"] = {} <- 2 b
[[1,"a",{"k":{"a":1}}],[2,"b",{"k":{}}]] => ["k","a"] = 1 <- 1 a
[[1,"a",{"k":{}}],[2,"b",{"k":{}}]] => ["k"] = {} <- 2 b
[[1,"a",{"k":{"a":1}}],[2,"b",{"k":5}],[3,"c",{"k":{}}]] => ["k"] = {} <- 3 c
[[1,"a",{"k":{"a":1}}],[2,"b",{"k":[]}]] => ["k"] = [] <- 2 b
[[1,"a",{"k":[1]}],[2,"b",{"k":{"a":[2]}}]] => ["k","a"] = [2] <- 2 b
[[1,"a",{"k":{"a":[1]}}],[2,"b",{"k":7}],[3,"c",{"k":{"a":[2]}}]] => ["k","a"] = [2] <- 3 c
[[1,"a",{"a":{"b":{"c":1}}}],[2,"b",{"a":{"b":{"d":2}}}],[3,"c",{"a":{"e":3}}]] => ["a","b","c"] = 1 <- 1 a; ["a","b","d"] = 2 <- 2 b; ["a","e"] = 3 <- 3 c
[[1,"a",{"a":{"b":{"c":1}}}],[2,"b",{"a":{"b":2}}],[3,"c",{"a":{"d":3}}]] => ["a","b"] = 2 <- 2 b; ["a","d"] = 3 <- 3 c
[[1,"a",{"a":{"b":1,"c":2}}],[2,"b",{"a":false}],[3,"c",{"a":{"c":3}}]] => ["a","c"] = 3 <- 3 c
# Arrays of one family are joined, lowest first, each element at its first occurrence.
[[1,"a",{"k":[1]}],[1,"b",{"k":[2]}]] => ["k"] = [1,2] <- 1 a, 1 b
[[1,"n",{"k":[1]}],[2,"n",{"k":[2]}]] => ["k"] = [1,2] <- 1 n, 2 n
[[1,"a",{"k":[1,2]}],[2,"b",{"k":[2,3]}],[6,"c",{"k":[3,1,4]}]] => ["k"] = [1,2,3,4] <- 1 a, 2 b, 6 c
[[1,"a",{"k":[1,1]}],[2,"b",{"k":[2,2]}]] => ["k"] = [1,2] <- 1 a, 2 b
[[1,"a",{"k":[]}],[2,"b",{"k":[1,1]}]] => ["k"] = [1] <- 1 a, 2 b
[[1,"a",{"k":[]}],[2,"b",{"k":[]}]] => ["k"] = [] <- 1 a, 2 b
[[9,"a",{"k":[1]}],[14,"b",{"k":[2]}]] => ["k"] = [1,2] <- 9 a, 14 b
[[1,"a",{"k":[{"x":1}]}],[2,"b",{"k":[{"x":1},{"x":2}]}]] => ["k"] = [{"x":1},{"x":2}] <- 1 a, 2 b
[[1,"a",{"k":[null,1]}],[2,"b",{"k":[null,2]}]] => ["k"] = [null,1,2] <- 1 a, 2 b
[[1,"a",{"k":[[1]]}],[2,"b",{"k":[[1],[2]]}]] => ["k"] = [[1],[2]] <- 1 a, 2 b
[[1,"a",{"k":["1"]}],[2,"b",{"k":[1]}]] => ["k"] = ["1",1] <- 1 a, 2 b
[[1,"a",{"k":[{"y":1,"x":2}]}],[2,"b",{"k":[{"x":2,"y":1}]}]] => ["k"] = [{"x":2,"y":1}] <- 1 a, 2 b
[[1,"a",{"d":{"k":[1]}}],[3,"b",{"d":{"k":[2]}}]] => ["d","k"] = [1,2] <- 1 a, 3 b
# Only those above the family's highest value that is no array.
[[1,"a",{"k":[1]}],[2,"b",{"k":5}],[3,"c",{"k":[2]}],[4,"d",{"k":[3]}]] => ["k"] = [2,3] <- 3 c, 4 d
[[1,"a",{"k":[1]}],[2,"b",{"k":{"x":1}}],[3,"c",{"k":[2]}]] => ["k"] = [2] <- 3 c
[[1,"a",{"k":[1]}],[2,"b",{"k":null}],[3,"c",{"k":[2]}]] => ["k"] = [1,2] <- 1 a, 3 c
[[1,"a",{"k":[1]}],[2,"b",{"k":[2]}],[3,"c",{"k":5}]] => ["k"] = 5 <- 3 c
[[1,"a",{"k":5}],[2,"b",{"k":[1,1]}]] => ["k"] = [1,1] <- 2 b
[[1,"a",{"k":5}],[9,"b",{"k":[1]}],[10,"c",{"k":[1,2]}]] => ["k"] = [1,2] <- 9 b, 10 c
# Never across families, and in normal and automatic the highest alone.
[[6,"a",{"k":[1]}],[7,"b",{"k":[2]}]] => ["k"] = [2] <- 7 b
[[1,"a",{"k":[1]}],[9,"b",{"k":[2]}]] => ["k"] = [2] <- 9 b
[[1,"a",{"k":[1]}],[7,"b",{"k":[2]}],[9,"c",{"k":[3]}],[12,"d",{"k":[4]}]] => ["k"] = [3,4] <- 9 c, 12 d
[[7,"a",{"k":[1]}],[8,"b",{"k":[2]}]] => ["k"] = [2] <- 8 b
[[15,"a",{"k":[1]}],[15,"b",{"k":[2]}]] => ["k"] = [2] <- 15 b
[[7,"a",{"k":[1,1]}]] => ["k"] = [1,1] <- 7 a
[[14,"a",{"k":[1]}],[15,"b",{"k":[2]}]] => ["k"] = [2] <- 15 b
[[1,"a",{"k":[1]}],[7,"b",{"k":[2]}],[9,"c",{"k":5}]] => ["k"] = 5 <- 9 c
# The rows of the rule.
[[1,"L1",{"a":[1,2]}],[4,"L4",{"a":[2,3]}]] => ["a"] = [1,2,3] <- 1 L1, 4 L4
[[1,"L1",{"a":[1,2]}],[4,"L4",{"a":[2,3]}],[7,"L7",{"a":[9]}]] => ["a"] = [9] <- 7 L7
[[1,"L1",{"a":[1,2]}],[4,"L4",{"a":[2,3]}],[7,"L7",{"a":[9]}],[11,"L11",{"a":null}]] => ["a"] = [9] <- 7 L7
[[1,"L1",{"b":{"c":1}}],[9,"L9",{"b":5}]] => ["b"] = 5 <- 9 L9
[[1,"L1",{"b":{"c":1}}],[9,"L9",{"b":5}],[12,"L12",{"b":{"d":2}}]] => ["b","d"] = 2 <- 12 L12
[[1,"w",{"n":{"p":[2,1],"q":null}}],[4,"r",{"os":"y","n":{"p":[1]}}],[15,"f",{"os":"x"}]] => ["n","p"] = [2,1] <- 1 w, 4 r; ["os"] = "x" <- 15 f
# What are no layers.
[[2,"a",{}],[1,"b",{}]] => no layers
[[1,"a",[]]] => no layers
"#;

// Fifteen layers, of which the one of level n has n at one key.
const FIFTEEN: &str =
    r#"[[1,"L1",{"k":1}],[2,"L2",{"k":2}],[3,"L3",{"k":3}],[4,"L4",{"k":4}],[5,"L5",{"k":5}],[6,"L6",{"k":6}],[7,"L7",{"k":7}],[8,"L8",{"k":8}],[9,"L9",{"k":9}],[10,"L10",{"k":10}],[11,"L11",{"k":11}],[12,"L12",{"k":12}],[13,"L13",{"k":13}],[14,"L14",{"k":14}],[15,"L15",{"k":15}]]"#;

// What shows where so many of them are there, from one on.
const SHOWN: &str = r#"["k"] = 1 <- 1 L1
["k"] = 2 <- 2 L2
["k"] = 3 <- 3 L3
["k"] = 4 <- 4 L4
["k"] = 5 <- 5 L5
["k"] = 6 <- 6 L6
["k"] = 7 <- 7 L7
["k"] = 8 <- 8 L8
["k"] = 9 <- 9 L9
["k"] = 10 <- 10 L10
["k"] = 11 <- 11 L11
["k"] = 12 <- 12 L12
["k"] = 13 <- 13 L13
["k"] = 14 <- 14 L14
["k"] = 15 <- 15 L15
"#;

// Values at the path of "a", "b" and "x", and at those that it begins with.
const ABOVE: &str = r#"[[1,"a",{"a":{"b":[1],"c":null}}],[2,"b",{"a":{"b":[2]},"d":{}}]]"#;

const VALUES: &str = r#"{"a":{"b":[1,2]},"d":{}} of 0
{"b":[1,2]} of 0
[1,2] of 2
none of 0
"#;

// Adds the layer that a list of a level, a name and a tree tells.
fn add_layer(alloc: Global, layers: &mut Vec<Layer>, parts: &[Tree]) -> Result<(), NoMemory> {
    if let [Tree::Whole(level), Tree::Words(name), tree] = parts {
        let layer = Layer {
            level: u8::try_from(level.value()).unwrap_or(0),
            name: name.copy(alloc)?,
            tree: tree.copy(alloc)?,
        };
        layers.push(layer)?;
    }
    Ok(())
}

fn layers_of(alloc: Global, trees: &Tree) -> Result<Vec<Layer>, NoMemory> {
    let mut layers = Vec::new(alloc);
    if let Tree::List(trees) = trees {
        for tree in trees.as_slice() {
            if let Tree::List(parts) = tree {
                add_layer(alloc, &mut layers, parts.as_slice())?;
            }
        }
    }
    Ok(layers)
}

fn layers(alloc: Global, text: &str) -> Result<Vec<Layer>, Fail> {
    let trees = read_json(alloc, text.as_bytes())?;
    Ok(layers_of(alloc, &trees)?)
}

fn tell(alloc: Global, told: &mut String, tree: &Tree) -> Result<(), NoMemory> {
    let bytes = json_text(alloc, tree)?;
    told.push_str(std::str::from_utf8(bytes.as_slice()).unwrap_or("no text"))?;
    Ok(())
}

fn path_tree(alloc: Global, path: &[Text]) -> Result<Tree, NoMemory> {
    let mut keys = Trees::new(alloc);
    for key in path {
        keys.push(Tree::Words(key.copy(alloc)?))?;
    }
    Ok(Tree::List(keys))
}

// Tells the layers at these positions, by level and name.
fn tell_sources(
    alloc: Global,
    told: &mut String,
    layers: &[Layer],
    positions: &[usize],
) -> Result<(), NoMemory> {
    let mut sign = " <- ";
    for position in positions {
        if let Some(layer) = layers.get(*position) {
            let (level, name) = (layer.level, layer.name.as_str());
            told.push_str(format!(in alloc; "{sign}{level} {name}")?.as_str())?;
            sign = ", ";
        }
    }
    Ok(())
}

fn tell_leaf(
    alloc: Global,
    told: &mut String,
    layers: &[Layer],
    merged: &Merged,
    path: &[Text],
) -> Result<(), NoMemory> {
    tell(alloc, told, &path_tree(alloc, path)?)?;
    if let Some(value) = merged.value(path) {
        told.push_str(" = ")?;
        tell(alloc, told, value)?;
    }
    tell_sources(alloc, told, layers, merged.origin(path).unwrap_or(&[]))
}

fn tell_leaves(
    alloc: Global,
    told: &mut String,
    layers: &[Layer],
    merged: &Merged,
) -> Result<(), NoMemory> {
    let paths = merged.leaves(alloc)?;
    for path in paths.as_slice() {
        if !told.is_empty() {
            told.push_str("; ")?;
        }
        tell_leaf(alloc, told, layers, merged, path.as_slice())?;
    }
    Ok(())
}

// The leaves of a merge with their values and sources.
fn leaves(alloc: Global, layers: &[Layer]) -> Result<String, NoMemory> {
    let mut told = String::new(alloc);
    if are_layers(layers) {
        let merged = merge(alloc, layers)?;
        tell_leaves(alloc, &mut told, layers, &merged)?;
    } else {
        told.push_str("no layers")?;
    }
    if told.is_empty() {
        told.push_str("no leaf")?;
    }
    Ok(told)
}

// A line, as the merge of its layers tells it; one that begins with `#` is a heading.
fn line_told(alloc: Global, line: &str) -> Result<String, Fail> {
    if line.starts_with('#') {
        return Ok(String::from_str(alloc, line)?);
    }
    let (text, _) = line.split_once(" => ").unwrap_or((line, ""));
    let layers = layers(alloc, text)?;
    let leaves = leaves(alloc, &layers)?;
    Ok(format!(in alloc; "{text} => {leaves}")?)
}

// The lines that the merge tells otherwise.
fn lines_otherwise(alloc: Global, lines: &str) -> Result<String, Fail> {
    let mut otherwise = String::new(alloc);
    for line in lines.lines() {
        let told = line_told(alloc, line)?;
        if told.as_str() != line {
            otherwise.push_str(told.as_str())?;
            otherwise.push_str("\n")?;
        }
    }
    Ok(otherwise)
}

#[test]
fn each_list_of_layers_has_its_leaves(rt: HostRuntime) -> Result<(), Fail> {
    let otherwise = lines_otherwise(rt.alloc(), CASES)?;
    assert_eq!(rt; otherwise.as_str(), "");
    Ok(())
}

// The leaves of the lowest layers, of one, of two and so on, a line each.
fn shown(alloc: Global, layers: &[Layer]) -> Result<String, NoMemory> {
    let mut told = String::new(alloc);
    for n in 0..layers.len() {
        let lowest = layers.get(..=n).unwrap_or(&[]);
        told.push_str(leaves(alloc, lowest)?.as_str())?;
        told.push_str("\n")?;
    }
    Ok(told)
}

#[test]
fn the_highest_of_fifteen_layers_shows(rt: HostRuntime) -> Result<(), Fail> {
    let layers = layers(rt.alloc(), FIFTEEN)?;
    assert_eq!(rt; shown(rt.alloc(), &layers)?.as_str(), SHOWN);
    Ok(())
}

// The value at a path, and of how many layers it is where it is a leaf.
fn value(alloc: Global, layers: &[Layer], path: &[Text]) -> Result<String, NoMemory> {
    let mut told = String::new(alloc);
    if are_layers(layers) {
        let merged = merge(alloc, layers)?;
        match merged.value(path) {
            Some(value) => tell(alloc, &mut told, value)?,
            None => told.push_str("none")?,
        }
        let count = merged.origin(path).unwrap_or(&[]).len();
        told.push_str(format!(in alloc; " of {count}")?.as_str())?;
    }
    Ok(told)
}

// The values at a path and at those that it begins with, the shortest first, a line each.
fn values(alloc: Global, layers: &[Layer], path: &[Text]) -> Result<String, NoMemory> {
    let mut told = String::new(alloc);
    for n in 0..=path.len() {
        let first = path.get(..n).unwrap_or(&[]);
        told.push_str(value(alloc, layers, first)?.as_str())?;
        told.push_str("\n")?;
    }
    Ok(told)
}

fn path(alloc: Global) -> Result<Vec<Text>, NoMemory> {
    let mut keys = Vec::new(alloc);
    for key in ["a", "b", "x"] {
        keys.push(Text::from_str(alloc, key)?)?;
    }
    Ok(keys)
}

#[test]
fn a_dict_of_leaves_is_the_value_above_them(rt: HostRuntime) -> Result<(), Fail> {
    let layers = layers(rt.alloc(), ABOVE)?;
    let path = path(rt.alloc())?;
    assert_eq!(rt; values(rt.alloc(), &layers, &path)?.as_str(), VALUES);
    Ok(())
}

use dep_solver::{
    Cookbook, Cookbooks, EnvRules, NoSolution, Pin, Pins, Release, Releases, Roots, Solved,
    Universe, solve,
};
use doc_tree::{Field, Name, Names, Text, Tree, read_json};
use std::alloc::{AllocError, Global};
use std::test::Fail;
use version_rules::{Constraint, Need, Needs, Version, parse_constraint, parse_version};

// The cookbooks with their versions and needs, the environment's rules and the roots, some of them pinned, and what is
// chosen, in byte order of names, or the roots that are lacking and those without a version.
const SOLUTIONS: &str =
    r#"[{"a":{"1.0.0":{"b":"~> 1.0"},"2.0.0":{"b":">= 2.0.0"}},"b":{"1.0.0":{},"1.5.0":{}}}, {}, ["a"]] => a 1.0.0, b 1.5.0
[{"a":{"1.0.0":{"b":"~> 1.0"},"2.0.0":{"b":">= 2.0.0"}},"b":{"1.0.0":{},"1.5.0":{}}}, {}, ["a@2.0.0"]] => none () ()
[{"a":{"1.0.0":{"b":"~> 1.0"},"2.0.0":{"b":">= 2.0.0"}},"b":{"1.0.0":{},"1.5.0":{}}}, {}, ["z"]] => none (z) ()
[{"c":{"1.0.0":{"c":"= 1.0.0"},"2.0.0":{"c":"= 1.0.0"}}}, {}, ["c"]] => c 1.0.0
[{"d":{"1.0.0":{"e":">= 0.0.0"}},"e":{"1.0.0":{"d":"= 1.0.0"}}}, {}, ["d"]] => d 1.0.0, e 1.0.0
[{"p":{"1.0.0":{},"2.0.0":{"q":"< 2.0.0"}},"q":{"1.0.0":{},"2.0.0":{}},"x":{"1.0.0":{"p":">= 0.0","q":">= 0.0"}}}, {}, ["x"]] => p 2.0.0, q 1.0.0, x 1.0.0
[{"p":{"1.0.0":{},"2.0.0":{"q":"< 2.0.0"}},"q":{"1.0.0":{},"2.0.0":{}},"x":{"1.0.0":{"p":">= 0.0","q":">= 0.0"}}}, {}, ["q","x"]] => p 1.0.0, q 2.0.0, x 1.0.0
[{"a":{"1.0.0":{"b":"~> 1.0"},"2.0.0":{"b":">= 2.0.0"}},"b":{"1.0.0":{},"1.5.0":{}}}, {"b":"= 1.0.0"}, ["a"]] => a 1.0.0, b 1.0.0
[{"a":{"1.0.0":{"b":"~> 1.0"},"2.0.0":{"b":">= 2.0.0"}},"b":{"1.0.0":{},"1.5.0":{}}}, {"a":">= 2.0.0"}, ["a"]] => none () ()
[{"a":{"1.0.0":{"b":"~> 1.0"},"2.0.0":{"b":">= 2.0.0"}},"b":{"1.0.0":{},"1.5.0":{}}}, {"a":"> 2.0.0"}, ["a"]] => none () (a)
[{"a":{"1.0.0":{"b":"~> 1.0"},"2.0.0":{"b":">= 2.0.0"}},"b":{"1.0.0":{},"1.5.0":{}}}, {}, []] => 
[{"a":{"1.0.0":{"b":"~> 1.0"},"2.0.0":{"b":">= 2.0.0"}},"b":{"1.0.0":{},"1.5.0":{}}}, {"z":"= 9.0.0"}, ["b"]] => b 1.5.0
[{"b":{"1.0.0":{},"1.5.0":{}}}, {}, ["b@1.0.0"]] => b 1.0.0
[{"b":{"1.0.0":{},"1.5.0":{}}}, {}, ["b@1.0.0","b@1.5.0"]] => none () (b)
[{"a":{"1.0.0":{},"2.0.0":{"c":"= 1.0.0"}},"b":{"1.0.0":{"c":"= 2.0.0"}},"c":{"1.0.0":{},"2.0.0":{}}}, {}, ["a","b"]] => a 1.0.0, b 1.0.0, c 2.0.0
[{"a":{"1.0.0":{"b":"= 1.0.0","c":"= 1.0.0"}},"b":{"1.0.0":{"c":"= 2.0.0"}},"c":{"1.0.0":{},"2.0.0":{}}}, {}, ["a"]] => none () ()
[{"v":{}}, {}, ["v"]] => none () (v)
[{"m":{},"n":{"1.0.0":{}}}, {}, ["z","n","m","y"]] => none (y z) (m)
[{"k":{"1.1.9":{},"1.2.0":{},"1.9.0":{},"2.0.0":{}},"r":{"1.0.0":{"k":"~> 1.2"}}}, {}, ["r"]] => k 1.9.0, r 1.0.0
[{"k":{"1.1.9":{},"1.2.0":{},"1.9.0":{},"2.0.0":{}},"r":{"1.0.0":{"k":"~> 1.2"}}}, {"k":"< 1.9.0"}, ["r"]] => k 1.2.0, r 1.0.0
[{"k":{"1.1.9":{},"1.2.0":{},"1.9.0":{},"2.0.0":{}},"r":{"1.0.0":{"k":"~> 1.2"}}}, {"k":"< 1.2.0"}, ["r"]] => none () ()
[{"k":{"1.2.2":{},"1.2.3":{},"1.2.9":{},"1.3.0":{}},"r":{"1.0.0":{"k":"~> 1.2.3"}}}, {}, ["r"]] => k 1.2.9, r 1.0.0
[{"k":{"1.2.2":{},"1.2.3":{},"1.2.9":{},"1.3.0":{}},"r":{"1.0.0":{"k":"~> 1.2.3"}}}, {"k":"< 1.2.9"}, ["r"]] => k 1.2.3, r 1.0.0
[{"k":{"1.2.2":{},"1.2.3":{},"1.2.9":{},"1.3.0":{}},"r":{"1.0.0":{"k":"~> 1.2.3"}}}, {"k":"< 1.2.3"}, ["r"]] => none () ()
"#;

// Twice cookbooks, an environment's rules and roots, and which of the three are the same.
const PAIRS: &str =
    r#"[[{"a":{"1.0.0":{"b":"~> 1.2"}}}, {"b":"= 1.0.0"}, ["a","b@1.0.0"]], [{"a":{"1.0.0":{"b":"~> 1.2"}}}, {"b":"= 1.0.0"}, ["a","b@1.0.0"]]] => true true true
[[{"a":{"1.0.0":{"b":"~> 1.2"}}}, {"b":"= 1.0.0"}, ["a","b@1.0.0"]], [{"a":{"1.0.0":{"b":"~> 1.2.0"}}}, {"b":"< 1.0.0"}, ["a","b@1.0.1"]]] => false false false
[[{"a":{"1.0.0":{}}}, {}, ["a","b"]], [{"a":{"1.0.0":{},"2.0.0":{}}}, {"b":"= 1.0.0"}, ["b","a"]]] => false false false
[[{"a":{"1.0.0":{}}}, {"b":"= 1.0.0"}, ["a"]], [{"a":{"1.0.1":{}}}, {"b":"= 1.0.0"}, ["a"]]] => false true true
[[{}, {"b":"= 1.0.0"}, []], [{}, {"c":"= 1.0.0"}, []]] => true false true
"#;

fn name(alloc: Global, text: &str) -> Result<Name, Fail> {
    Ok(Name::of(Text::from_str(alloc, text)?).ok().ok_or("a name")?)
}

fn version(text: &str) -> Result<Version, Fail> {
    Ok(parse_version(text).ok().ok_or("a version")?)
}

fn constraint(text: &str) -> Result<Constraint, Fail> {
    Ok(parse_constraint(text).ok().ok_or("a constraint")?)
}

fn tree_in(alloc: Global, json: &str) -> Result<Tree, Fail> {
    Ok(read_json(alloc, json.as_bytes()).ok().ok_or("JSON")?)
}

fn words(tree: &Tree) -> &str {
    match tree {
        Tree::Words(text) => text.as_str(),
        Tree::Null | Tree::Bool(_) | Tree::Whole(_) | Tree::List(_) | Tree::Dict(_) => "",
    }
}

fn parts_in(tree: &Tree) -> &[Tree] {
    match tree {
        Tree::List(parts) => parts.as_slice(),
        Tree::Null | Tree::Bool(_) | Tree::Whole(_) | Tree::Words(_) | Tree::Dict(_) => &[],
    }
}

fn fields_in(tree: &Tree) -> &[Field] {
    match tree {
        Tree::Dict(fields) => fields.as_slice(),
        Tree::Null | Tree::Bool(_) | Tree::Whole(_) | Tree::Words(_) | Tree::List(_) => &[],
    }
}

fn need_in(alloc: Global, field: &Field) -> Result<Need, Fail> {
    let constraint = constraint(words(&field.tree))?;
    Ok(Need {
        name: name(alloc, field.key.as_str())?,
        constraint,
    })
}

fn needs_in(alloc: Global, tree: &Tree) -> Result<Needs, Fail> {
    let mut needs = Needs::new(alloc);
    for field in fields_in(tree) {
        needs.push(need_in(alloc, field)?)?;
    }
    Ok(needs)
}

fn release(version: Version, needs: Needs) -> Result<Release, Fail> {
    Ok(Release::of(version, needs).ok_or("a release")?)
}

fn release_in(alloc: Global, field: &Field) -> Result<Release, Fail> {
    let version = version(field.key.as_str())?;
    release(version, needs_in(alloc, &field.tree)?)
}

fn releases_in(alloc: Global, tree: &Tree) -> Result<Releases, Fail> {
    let mut releases = Releases::new(alloc);
    for field in fields_in(tree) {
        releases.push(release_in(alloc, field)?)?;
    }
    Ok(releases)
}

fn cookbook(name: Name, releases: Releases) -> Result<Cookbook, Fail> {
    Ok(Cookbook::of(name, releases).ok_or("a cookbook")?)
}

fn cookbook_in(alloc: Global, field: &Field) -> Result<Cookbook, Fail> {
    let name = name(alloc, field.key.as_str())?;
    cookbook(name, releases_in(alloc, &field.tree)?)
}

fn cookbooks_in(alloc: Global, tree: &Tree) -> Result<Cookbooks, Fail> {
    let mut cookbooks = Cookbooks::new(alloc);
    for field in fields_in(tree) {
        cookbooks.push(cookbook_in(alloc, field)?)?;
    }
    Ok(cookbooks)
}

fn universe(cookbooks: Cookbooks) -> Result<Universe, Fail> {
    Ok(Universe::of(cookbooks).ok_or("a universe")?)
}

fn universe_in(alloc: Global, tree: &Tree) -> Result<Universe, Fail> {
    universe(cookbooks_in(alloc, tree)?)
}

fn rules_in(alloc: Global, tree: &Tree) -> Result<EnvRules, Fail> {
    Ok(EnvRules {
        rules: needs_in(alloc, tree)?,
    })
}

fn is_among(names: &Names, text: &str) -> bool {
    names.as_slice().iter().any(|name| name.as_str() == text)
}

fn add_root(alloc: Global, names: &mut Names, named: &str) -> Result<(), Fail> {
    if !is_among(names, named) {
        names.push(name(alloc, named)?)?;
    }
    Ok(())
}

fn pin(alloc: Global, named: &str, pinned: &str) -> Result<Pin, Fail> {
    let version = version(pinned)?;
    Ok(Pin {
        name: name(alloc, named)?,
        version,
    })
}

fn add_pin(alloc: Global, pins: &mut Pins, named: &str, pinned: &str) -> Result<(), Fail> {
    if !pinned.is_empty() {
        pins.push(pin(alloc, named, pinned)?)?;
    }
    Ok(())
}

// A root, and the version to which it may be pinned.
fn root_and_pin(text: &str) -> (&str, &str) {
    text.split_once("@").unwrap_or((text, ""))
}

// The roots that a list names, each once.
fn names_in(alloc: Global, trees: &[Tree]) -> Result<Names, Fail> {
    let mut names = Names::new(alloc);
    for tree in trees {
        let (named, _) = root_and_pin(words(tree));
        add_root(alloc, &mut names, named)?;
    }
    Ok(names)
}

fn pins_in(alloc: Global, trees: &[Tree]) -> Result<Pins, Fail> {
    let mut pins = Pins::new(alloc);
    for tree in trees {
        let (named, pinned) = root_and_pin(words(tree));
        add_pin(alloc, &mut pins, named, pinned)?;
    }
    Ok(pins)
}

fn roots(names: Names, pins: Pins) -> Result<Roots, Fail> {
    Ok(Roots::of(names, pins).ok_or("roots")?)
}

fn roots_in(alloc: Global, trees: &[Tree]) -> Result<Roots, Fail> {
    let names = names_in(alloc, trees)?;
    roots(names, pins_in(alloc, trees)?)
}

fn add_names(told: &mut String, names: &Names) -> Result<(), Fail> {
    let mut between = "";
    for name in names.as_slice() {
        told.push_str(between)?;
        told.push_str(name.as_str())?;
        between = " ";
    }
    Ok(())
}

fn add_chosen(told: &mut String, chosen: &Pins) -> Result<(), Fail> {
    let mut between = "";
    for Pin { name, version } in chosen.as_slice() {
        write!(told, "{between}{name} {version}")?;
        between = ", ";
    }
    Ok(())
}

fn add_refusal(told: &mut String, lacking: &Names, without: &Names) -> Result<(), Fail> {
    told.push_str("none (")?;
    add_names(told, lacking)?;
    told.push_str(") (")?;
    add_names(told, without)?;
    Ok(told.push_str(")")?)
}

fn add_answer(told: &mut String, answer: &Result<Solved, NoSolution>) -> Result<(), Fail> {
    match answer {
        Ok(solved) => {
            solved.is_best();
            add_chosen(told, &solved.chosen)
        }
        Err(
            NoSolution::Unsolvable {
                no_cookbook,
                no_version,
            },
        ) => add_refusal(told, no_cookbook, no_version),
        Err(NoSolution::NoMemory) => Err(Fail::from("out of memory")),
    }
}

fn add_solved_in(
    alloc: Global,
    told: &mut String,
    universe: &Universe,
    rules: &Tree,
    roots: &[Tree],
) -> Result<(), Fail> {
    let rules = rules_in(alloc, rules)?;
    let roots = roots_in(alloc, roots)?;
    let answer = solve(alloc, universe, &rules, &roots);
    add_answer(told, &answer)
}

fn add_solved(
    alloc: Global,
    told: &mut String,
    cookbooks: &Tree,
    rules: &Tree,
    roots: &[Tree],
) -> Result<(), Fail> {
    let universe = universe_in(alloc, cookbooks)?;
    add_solved_in(alloc, told, &universe, rules, roots)
}

// What is asked: the cookbooks, the environment's rules and the roots.
fn add_solution(alloc: Global, told: &mut String, json: &str) -> Result<(), Fail> {
    let tree = tree_in(alloc, json)?;
    match parts_in(&tree) {
        [cookbooks, rules, Tree::List(roots)] => {
            add_solved(alloc, told, cookbooks, rules, roots.as_slice())
        }
        _ => Err(Fail::from("three parts")),
    }
}

fn are_same_universes(alloc: Global, one: &Tree, other: &Tree) -> Result<bool, Fail> {
    let one = universe_in(alloc, one)?;
    let other = universe_in(alloc, other)?;
    Ok(one.same(&other))
}

fn are_same_rules(alloc: Global, one: &Tree, other: &Tree) -> Result<bool, Fail> {
    let one = rules_in(alloc, one)?;
    let other = rules_in(alloc, other)?;
    Ok(one.same(&other))
}

fn are_same_roots(alloc: Global, one: &Tree, other: &Tree) -> Result<bool, Fail> {
    let one = roots_in(alloc, parts_in(one))?;
    let other = roots_in(alloc, parts_in(other))?;
    Ok(one.same(&other))
}

fn add_pair(alloc: Global, told: &mut String, one: &Tree, other: &Tree) -> Result<(), Fail> {
    let ([one, rules, roots], [other, other_rules, other_roots]) = (parts_in(one), parts_in(other))
    else {
        return Err(Fail::from("three parts"));
    };
    write!(told, "{} ", are_same_universes(alloc, one, other)?)?;
    write!(told, "{} ", are_same_rules(alloc, rules, other_rules)?)?;
    Ok(write!(told, "{}", are_same_roots(alloc, roots, other_roots)?)?)
}

fn add_comparison(alloc: Global, told: &mut String, json: &str) -> Result<(), Fail> {
    let tree = tree_in(alloc, json)?;
    match parts_in(&tree) {
        [one, other] => add_pair(alloc, told, one, other),
        _ => Err(Fail::from("two parts")),
    }
}

// What a line asks.
fn question(line: &str) -> &str {
    match line.split_once(" => ") {
        Some((asked, _)) => asked,
        None => line,
    }
}

fn add_solved_line(alloc: Global, told: &mut String, line: &str) -> Result<(), Fail> {
    write!(told, "{} => ", question(line))?;
    add_solution(alloc, told, question(line))?;
    Ok(told.push_str("\n")?)
}

fn solutions(alloc: Global) -> Result<String, Fail> {
    let mut told = String::new(alloc);
    for line in SOLUTIONS.lines() {
        add_solved_line(alloc, &mut told, line)?;
    }
    Ok(told)
}

#[test]
fn roots_are_solved(rt: HostRuntime) -> Result<(), Fail> {
    let told = solutions(rt.alloc())?;
    assert_eq!(rt; told.as_str(), SOLUTIONS);
    Ok(())
}

fn add_compared_line(alloc: Global, told: &mut String, line: &str) -> Result<(), Fail> {
    write!(told, "{} => ", question(line))?;
    add_comparison(alloc, told, question(line))?;
    Ok(told.push_str("\n")?)
}

fn comparisons(alloc: Global) -> Result<String, Fail> {
    let mut told = String::new(alloc);
    for line in PAIRS.lines() {
        add_compared_line(alloc, &mut told, line)?;
    }
    Ok(told)
}

#[test]
fn what_is_asked_is_compared(rt: HostRuntime) -> Result<(), Fail> {
    let told = comparisons(rt.alloc())?;
    assert_eq!(rt; told.as_str(), PAIRS);
    Ok(())
}

// The versions 1.0.0 to 1.199.0.
fn many_releases(alloc: Global) -> Result<Releases, Fail> {
    let mut releases = Releases::new(alloc);
    for minor in 0..200u64 {
        let version = Version {
            major: 1,
            minor,
            patch: 0,
        };
        releases.push(release(version, Needs::new(alloc))?)?;
    }
    Ok(releases)
}

// A cookbook `w` of 200 versions.
fn many_versions(alloc: Global) -> Result<Cookbook, Fail> {
    let name = name(alloc, "w")?;
    cookbook(name, many_releases(alloc)?)
}

fn universe_of_many(alloc: Global) -> Result<Universe, Fail> {
    let mut cookbooks = Cookbooks::new(alloc);
    cookbooks.push(many_versions(alloc)?)?;
    universe(cookbooks)
}

// A root `a` that needs `b`, 20 cookbooks of three versions, and `z`, where the newer `b` and `z` need versions of `t`
// that clash.
fn add_far_apart(json: &mut String) -> Result<(), AllocError> {
    json.push_str(r#"[{"a":{"1.0.0":{"b":">= 1.0""#)?;
    add_between(json, r#"">= 1.0""#)?;
    json.push_str(r#","z":">= 1.0"}},"b":{"1.0.0":{},"1.1.0":{"t":"< 1.1"}}"#)?;
    add_between(json, r#"{"1.0.0":{},"1.1.0":{},"1.2.0":{}}"#)?;
    json.push_str(r#","t":{"1.0.0":{},"1.1.0":{}},"z":{"1.0.0":{"t":">= 1.1"}}}, {}, ["a"]]"#)
}

fn add_between(json: &mut String, tree: &str) -> Result<(), AllocError> {
    for index in 100..120u64 {
        write!(json, r#","m{index}":{tree}"#)?;
    }
    Ok(())
}

fn far_apart(alloc: Global) -> Result<String, AllocError> {
    let mut json = String::new(alloc);
    add_far_apart(&mut json)?;
    Ok(json)
}

fn solved_far_apart(alloc: Global) -> Result<String, Fail> {
    let mut told = String::new(alloc);
    let json = far_apart(alloc)?;
    add_solution(alloc, &mut told, json.as_str())?;
    Ok(told)
}

#[test]
fn a_clash_with_20_cookbooks_between_ends(rt: HostRuntime) -> Result<(), Fail> {
    let told = solved_far_apart(rt.alloc())?;
    assert!(rt; told.starts_with("a 1.0.0, b 1.0.0, m100 1.2.0, "));
    assert!(rt; told.ends_with("m119 1.2.0, t 1.1.0, z 1.0.0"));
    Ok(())
}

fn add_solved_of_many(alloc: Global, told: &mut String, universe: &Universe) -> Result<(), Fail> {
    let tree = tree_in(alloc, r#"[{"w":"< 1.150"}, ["w"]]"#)?;
    match parts_in(&tree) {
        [rules, Tree::List(roots)] => {
            add_solved_in(alloc, told, universe, rules, roots.as_slice())
        }
        _ => Err(Fail::from("two parts")),
    }
}

fn solved_of_many(alloc: Global) -> Result<String, Fail> {
    let universe = universe_of_many(alloc)?;
    let mut told = String::new(alloc);
    add_solved_of_many(alloc, &mut told, &universe)?;
    Ok(told)
}

#[test]
fn one_of_200_versions_is_chosen(rt: HostRuntime) -> Result<(), Fail> {
    let told = solved_of_many(rt.alloc())?;
    assert_eq!(rt; told.as_str(), "w 1.149.0");
    Ok(())
}

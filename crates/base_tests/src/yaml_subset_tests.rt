//! Texts of YAML and the trees that they spell or the lines at which they stop, worked by hand from the table of forms.
use doc_tree::{NoMemory, Text, json_text, read_json};
use std::alloc::Global;
use std::test::Fail;
use yaml_subset::{YamlFault, read_yaml, yaml_text};

// Texts, `/` between their lines, `^` for a tab and `BAR` for `|`, and what reading them gives.
const TEXTS: &str =
    r#"- type: file/  name: etc/  mode: 0644 => [{"mode":"0644","name":"etc","type":"file"}]
- type: file/  name: etc/^mode: 0644 => line 3: a tab stands in the indent
a: &x 1 => line 1: a form of YAML that is left out
a: 1/a: 1 => line 2: not of the form of YAML
 => null
# only a comment => null
--- => null
---/a: 1 => {"a":1}
a: 1/--- => line 2: a form of YAML that is left out
... => line 1: a form of YAML that is left out
--- a => "--- a"
null => null
Null => null
NULL => null
~ => null
true => true
True => true
TRUE => true
false => false
False => false
FALSE => false
yes => "yes"
no => "no"
on => "on"
0 => 0
-0 => 0
+5 => 5
-7 => -7
0644 => "0644"
-012 => "-012"
0o17 => 15
0xfF => 255
0o8 => "0o8"
-0x1 => "-0x1"
18446744073709551615 => 18446744073709551615
18446744073709551616 => line 1: a form of YAML that is left out
-9223372036854775808 => -9223372036854775808
-9223372036854775809 => line 1: a form of YAML that is left out
1.5 => line 1: a form of YAML that is left out
.5 => line 1: a form of YAML that is left out
1. => line 1: a form of YAML that is left out
1e3 => line 1: a form of YAML that is left out
-1.5E-3 => line 1: a form of YAML that is left out
.inf => line 1: a form of YAML that is left out
-.INF => line 1: a form of YAML that is left out
.NaN => line 1: a form of YAML that is left out
1.2.3 => "1.2.3"
a b => "a b"
a#b => "a#b"
a #b => "a"
-x => "-x"
?x => "?x"
*x => line 1: a form of YAML that is left out
!x => line 1: a form of YAML that is left out
> => line 1: a form of YAML that is left out
%x => line 1: a form of YAML that is left out
@x => line 1: a form of YAML that is left out
,x => line 1: not of the form of YAML
'it''s' => "it's"
'a => line 1: not of the form of YAML
"a\n\"\\\u0041\t" => "a\n\"\\A\t"
"\x41" => line 1: not of the form of YAML
"\ud800" => line 1: not of the form of YAML
"a"b => line 1: not of the form of YAML
"a" # b => "a"
- a/- b => ["a","b"]
-/- b => [null,"b"]
- - a/  - b/- c => [["a","b"],"c"]
-/  a: 1/  b: 2 => [{"a":1,"b":2}]
a:/- x/- y/b: true # c => {"a":["x","y"],"b":true}
a:/  b:/    c: 1/  d: 2 => {"a":{"b":{"c":1},"d":2}}
a:/  b => line 2: not of the form of YAML
a: 1/  b: 2 => line 2: not of the form of YAML
  a: 1/b: 2 => line 2: not of the form of YAML
a: b: c => line 1: not of the form of YAML
a:b: c => {"a:b":"c"}
a : 1 => {"a":1}
"a" : 1 => line 1: not of the form of YAML
"a b": 1 => {"a b":1}
1: x => {"1":"x"}
a: => {"a":null}
[a, [b], {c: d},] => ["a",["b"],{"c":"d"}]
{a: 1, b: [], c: {}} => {"a":1,"b":[],"c":{}}
{a: 1, a: 2} => line 1: not of the form of YAML
[a/b] => line 1: not of the form of YAML
[a: b] => line 1: not of the form of YAML
{a} => line 1: not of the form of YAML
{a:b} => line 1: not of the form of YAML
[,] => line 1: not of the form of YAML
a: [x] y => line 1: not of the form of YAML
a: BAR/  x/   y//b: 1 => {"a":"x\n y\n","b":1}
a: BAR-/  x//  y/ => {"a":"x\n\ny"}
a: BAR+/  x => line 1: a form of YAML that is left out
a: BAR/b: 1 => {"a":"","b":1}
- BAR/  x/ y => line 3: not of the form of YAML
BAR/x/# y => "x\n# y\n"
"#;

// Documents as JSON, each with its YAML, `/` between the lines.
const TREES: &str = r#"{"a":[1,{"b":"x y"}],"c":{}} => a:/  - 1/  -/    b: "x y"/c: {}/
null => null/
"" => ""/
"true" => "true"/
"~" => "~"/
"etc" => etc/
"a-b_c.d" => a-b_c.d/
"1" => "1"/
"a\nb" => "a\nb"/
"\u0001" => "\u0001"/
[] => []/
[[],[null,true,-5]] => - []/-/  - null/  - true/  - -5/
"#;

fn told(alloc: Global, text: &str) -> Result<String, NoMemory> {
    match read_yaml(alloc, &Text::from_str(alloc, text)?) {
        Ok(tree) => {
            let bytes = json_text(alloc, &tree)?;
            match str::from_utf8(bytes.as_slice()) {
                Ok(text) => Ok(String::from_str(alloc, text)?),
                Err(_) => Ok(String::from_str(alloc, "no text")?),
            }
        }
        Err(YamlFault::Refused { line, kind }) => Ok(format!(in alloc; "line {line}: {kind}")?),
        Err(YamlFault::NoMemory) => Ok(String::from_str(alloc, "no memory")?),
    }
}

// A text of the tables, with its lines and signs.
fn meant(alloc: Global, text: &str) -> Result<String, NoMemory> {
    let mut meant = String::new(alloc);
    for character in text.chars() {
        match character {
            '/' => meant.push_str("\n")?,
            '^' => meant.push_str("\t")?,
            other => meant.push(other)?,
        }
    }
    Ok(meant.replace(alloc, "BAR", "|")?)
}

fn line_told(alloc: Global, line: &str) -> Result<String, NoMemory> {
    let (text, _) = line.split_once(" => ").unwrap_or((line, ""));
    let meant = meant(alloc, text)?;
    let told = told(alloc, meant.as_str())?;
    Ok(format!(in alloc; "{text} => {told}")?)
}

fn written(alloc: Global, json: &str) -> Result<String, NoMemory> {
    match read_json(alloc, json.as_bytes()) {
        Ok(tree) => Ok(yaml_text(alloc, &tree)?.into_string()),
        Err(_) => Ok(String::from_str(alloc, "no tree")?),
    }
}

fn tree_told(alloc: Global, line: &str) -> Result<String, NoMemory> {
    let (json, _) = line.split_once(" => ").unwrap_or((line, ""));
    let text = written(alloc, json)?;
    let shown = text.replace(alloc, "\n", "/")?;
    let again = told(alloc, text.as_str())?;
    if again.as_str() == json {
        Ok(format!(in alloc; "{json} => {shown}")?)
    } else {
        Ok(format!(in alloc; "{json} reads back as {again}")?)
    }
}

#[test]
fn texts_are_read_or_refused_at_their_line(rt: HostRuntime) -> Result<(), Fail> {
    let alloc = rt.alloc();
    let mut otherwise = String::new(alloc);
    for line in TEXTS.lines() {
        let told = line_told(alloc, line)?;
        if told.as_str() != line {
            otherwise.push_str(told.as_str())?;
            otherwise.push_str("\n")?;
        }
    }
    assert_eq!(rt; otherwise.as_str(), "");
    Ok(())
}

#[test]
fn trees_are_written_and_read_back(rt: HostRuntime) -> Result<(), Fail> {
    let alloc = rt.alloc();
    let mut otherwise = String::new(alloc);
    for line in TREES.lines() {
        let told = tree_told(alloc, line)?;
        if told.as_str() != line {
            otherwise.push_str(told.as_str())?;
            otherwise.push_str("\n")?;
        }
    }
    assert_eq!(rt; otherwise.as_str(), "");
    Ok(())
}

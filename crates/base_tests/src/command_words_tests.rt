// The rows of the grammar: words, and the command that they are.
use command_words::{Command, KnifeWords, command_of};
use doc_tree::{NoMemory, Text};
use std::alloc::Global;
use std::test::Fail;

// Words with a space between two, and the command's word with its file or its size.
const ROWS: [(&str, &str); 38] = [
    ("", "none"),
    ("answer", "answer"),
    ("answer ", "none"),
    ("answer --", "none"),
    ("answer -", "none"),
    ("answer --help", "none"),
    ("answer answer", "none"),
    ("explain --sources a.json", "explain a.json"),
    ("explain --sources=a.json", "explain a.json"),
    ("explain --sources ", "explain "),
    ("explain --sources=", "explain "),
    ("explain --sources=-", "explain -"),
    ("explain --sources=--sources=a", "explain --sources=a"),
    ("explain --sources -", "none"),
    ("explain --sources -a", "none"),
    ("explain --sources --", "none"),
    ("explain --sources", "none"),
    ("explain", "none"),
    ("explain a.json", "none"),
    ("explain -- --sources=a", "none"),
    ("explain --sources=a --", "none"),
    ("explain --sources a --", "none"),
    ("explain --sources=a --sources=b", "none"),
    ("explain --sources a --sources b", "none"),
    ("explain --source a", "none"),
    ("explain --help", "none"),
    ("explain -h", "none"),
    ("explain --version", "none"),
    ("demo --size 1", "demo 1"),
    ("demo --size=200", "demo 200"),
    ("demo --size 0", "none"),
    ("demo --size=201", "none"),
    ("demo --size 007", "none"),
    ("demo --size +7", "none"),
    ("demo --size=10000000000", "none"),
    ("demo --size= 7", "none"),
    ("demo --sources a", "none"),
    ("unknown", "none"),
];

// Words behind `knife`, and the host, the port, the organisation, the user and the WORDs, each with `|` in front.
const KNIFE_ROWS: [(&str, &str); 18] = [
    (
        "--server http://h --org o --user u node list",
        "h 80 o u|node|list",
    ),
    (
        "--server=http://h --org=o --user=u node list",
        "h 80 o u|node|list",
    ),
    (
        "--user u --server=http://h/ --org o status",
        "h 80 o u|status",
    ),
    (
        "node --org o list --user=u --server http://h",
        "h 80 o u|node|list",
    ),
    (
        "--server http://h --org o --user u -- node -x --org",
        "h 80 o u|node|-x|--org",
    ),
    (
        "--server http://h --org o --user u node -- -x --",
        "h 80 o u|node|-x|--",
    ),
    ("--server http://h --org=-o --user=-- x", "h 80 -o --|x"),
    ("--server http://h --org= --user  x", "h 80  |x"),
    ("--server http://h --org o --user u ", "h 80 o u|"),
    ("--server http://h --org ö/% --user u x", "h 80 ö/% u|x"),
    ("--server http://h:8889 --org o --user u x", "h 8889 o u|x"),
    (
        "--server http://h:65535/ --org o --user u x",
        "h 65535 o u|x",
    ),
    ("--server http://h:80 --org o --user u x", "h 80 o u|x"),
    (
        "--server http://Chef.Example --org o --user u x",
        "chef.example 80 o u|x",
    ),
    (
        "--server http://bücher.example --org o --user u x",
        "xn--bcher-kva.example 80 o u|x",
    ),
    (
        "--server http://127.0.0.1:1 --org o --user u x",
        "127.0.0.1 1 o u|x",
    ),
    ("--server http://[::1] --org o --user u x", "[::1] 80 o u|x"),
    (
        "--server http://[::1]:8889/ --org o --user u x",
        "[::1] 8889 o u|x",
    ),
];

// Words that `knife` doesn't take.
const NOT_FOR_KNIFE: [&str; 20] = [
    "-- node",
    "",
    "x",
    "--server http://h --org o --user u",
    "--server http://h --org o --user u --",
    "--org o --user u x",
    "--server http://h --user u x",
    "--server http://h --org o x",
    "--server http://h --org o --org o --user u x",
    "--server http://h --server=http://h --org o --user u x",
    "--server http://h --org o --user u --user=v x",
    "--server http://h --org -o --user u x",
    "--server http://h --org o x --user --",
    "--server http://h --org o x --user",
    "--server http://h --org o --user u -x",
    "--server http://h --org o --user u x -",
    "--server http://h --org o --user u x --help",
    "--server http://h --org o --user u --port 1 x",
    "--server http://h --organisation o --user u x",
    "-server http://h --org o --user u x",
];

// Words that are no URL of a server.
const NO_URLS: [&str; 24] = [
    "h",
    "h:80",
    "http://",
    "http:///",
    "http:/h",
    "https://h",
    "HTTP://h",
    "http://h:",
    "http://h:0",
    "http://h:65536",
    "http://h:080",
    "http://h:+1",
    "http://h//",
    "http://h/x",
    "http://h/.",
    "http://h?q",
    "http://h#f",
    "http://u@h",
    "http://h\\",
    "http://[::1",
    "http://::1",
    "http://h\tx",
    "http://1.2.3.4.5",
    "http://h%2fx",
];

fn words_of(alloc: Global, line: &str) -> Result<Vec<Text>, NoMemory> {
    let mut words = Vec::new(alloc);
    for word in line.split(' ') {
        words.push(Text::from_str(alloc, word)?)?;
    }
    Ok(words)
}

fn shown(alloc: Global, command: Option<Command>) -> Result<String, NoMemory> {
    let text = match command {
        Some(Command::Answer) => String::from_str(alloc, "answer")?,
        Some(Command::Explain(file)) => format!(in alloc; "explain {}", file.as_str())?,
        Some(Command::Demo(size)) => format!(in alloc; "demo {size}")?,
        Some(Command::Knife(told)) => shown_knife(alloc, &told)?,
        None => String::from_str(alloc, "none")?,
    };
    Ok(text)
}

fn shown_knife(alloc: Global, told: &KnifeWords) -> Result<String, NoMemory> {
    let (host, org, user) = (told.host.as_str(), told.org.as_str(), told.user.as_str());
    let mut text = format!(in alloc; "{host} {} {org} {user}", told.port)?;
    for word in &told.words {
        text.push_str("|")?;
        text.push_str(word.as_str())?;
    }
    Ok(text)
}

fn told_to_knife(alloc: Global, line: &str) -> Result<String, NoMemory> {
    let line = format!(in alloc; "knife {line}")?;
    let words = words_of(alloc, line.as_str())?;
    shown(alloc, command_of(alloc, words.as_slice())?)
}

#[test]
fn reads_each_row_of_the_grammar(rt: HostRuntime) -> Result<(), Fail> {
    let alloc = rt.alloc();
    assert!(rt; command_of(alloc, &[])?.is_none());
    for (line, expected) in &ROWS {
        let words = words_of(alloc, line)?;
        let told = shown(alloc, command_of(alloc, words.as_slice())?)?;
        assert!(rt; told.as_str() == *expected, "{line}: {told}");
    }
    Ok(())
}

#[test]
fn reads_the_words_of_knife(rt: HostRuntime) -> Result<(), Fail> {
    let alloc = rt.alloc();
    assert!(rt; command_of(alloc, words_of(alloc, "knife")?.as_slice())?.is_none());
    for (line, expected) in &KNIFE_ROWS {
        let told = told_to_knife(alloc, line)?;
        assert!(rt; told.as_str() == *expected, "{line}: {told}");
    }
    for line in &NOT_FOR_KNIFE {
        let told = told_to_knife(alloc, line)?;
        assert!(rt; told.as_str() == "none", "{line}: {told}");
    }
    for url in &NO_URLS {
        let line = format!(in alloc; "--server {url} --org o --user u x")?;
        let told = told_to_knife(alloc, line.as_str())?;
        assert!(rt; told.as_str() == "none", "{url}: {told}");
    }
    Ok(())
}

// Whole lines of words: whom the server takes the caller for, where it is, and what it is asked.
use command_words::{Command, KnifeWords, command_of};
use doc_tree::{NoMemory, Text};
use knife_errands::{Errand, KnifeFault, node_request, read_words, request_of};
use peer_wire::{Ask, Whom};
use std::alloc::Global;
use std::test::Fail;

// Words with a bar between two, and who asks what of whom.
const LINES: [(&str, &str); 10] = [
    (
        "knife|--server|http://chef.example:4000|--org|acme|--user|pivotal|node|list",
        "pivotal asks chef.example:4000 GET /organizations/acme/nodes",
    ),
    (
        "knife|--user=a b|--server=http://LOCALHOST/|--org=o/p|--|raw|-x",
        "a b asks localhost:80 GET /organizations/o%2Fp/-x",
    ),
    (
        "knife|--server=http://[::1]:65535|--org=o|--user=u|user|list",
        "u asks [::1]:65535 GET /organizations/o/users",
    ),
    (
        "knife|--server=http://10.0.0.1|--org=o|--user=u|node|run_list|add|n|x",
        "u asks 10.0.0.1:80 GET /organizations/o/nodes/n",
    ),
    (
        "knife|--server=http://h|--org=o|--user=u|user|show|a",
        "no errand",
    ),
    ("knife|--server=http://h|--org=o|user|list", "no command"),
    (
        "knife|--server=http://h|--org=o|--user=u|--user=u|user|list",
        "no command",
    ),
    (
        "knife|--server=http://h|--org=o|--user|-u|user|list",
        "no command",
    ),
    (
        "knife|--server=https://h|--org=o|--user=u|user|list",
        "no command",
    ),
    (
        "knife|--server=http://h:0|--org=o|--user=u|user|list",
        "no command",
    ),
];

fn words_of(alloc: Global, line: &str) -> Result<Vec<Text>, NoMemory> {
    let mut words = Vec::new(alloc);
    for word in line.split('|') {
        words.push(Text::from_str(alloc, word)?)?;
    }
    Ok(words)
}

fn told(alloc: Global, whom: &Whom, ask: &Ask) -> Result<String, NoMemory> {
    let caller = whom.caller.as_str();
    let host = whom.host.as_str();
    let port = whom.port;
    let verb = ask.verb.as_str();
    let target = ask.target.as_str();
    Ok(format!(in alloc; "{caller} asks {host}:{port} {verb} {target}")?)
}

fn asked(alloc: Global, knife: KnifeWords) -> Result<String, NoMemory> {
    let KnifeWords {
        host,
        port,
        org,
        user,
        words,
    } = knife;
    let whom = Whom {
        org,
        caller: user,
        host,
        port,
    };
    match read_words(alloc, words.as_slice()) {
        Ok(Errand::One(step)) => told(alloc, &whom, &request_of(alloc, &step, &whom)?),
        Ok(Errand::RunList { node, .. }) => told(alloc, &whom, &node_request(alloc, &node, &whom)?),
        Ok(Errand::FromFile(_, file)) => Ok(file.into_string()),
        Err(KnifeFault::NotACommand) => Ok(String::from_str(alloc, "no errand")?),
        Err(KnifeFault::NoMemory) => Err(NoMemory),
    }
}

fn of_line(alloc: Global, line: &str) -> Result<String, NoMemory> {
    let words = words_of(alloc, line)?;
    match command_of(alloc, words.as_slice())? {
        Some(Command::Knife(knife)) => asked(alloc, knife),
        Some(Command::Answer | Command::Explain(_) | Command::Demo(_)) => {
            Ok(String::from_str(alloc, "another command")?)
        }
        None => Ok(String::from_str(alloc, "no command")?),
    }
}

#[test]
fn reads_whole_lines(rt: HostRuntime) -> Result<(), Fail> {
    let alloc = rt.alloc();
    for (line, expected) in &LINES {
        let told = of_line(alloc, line)?;
        assert!(rt; told.as_str() == *expected, "{line}: {told}");
    }
    Ok(())
}

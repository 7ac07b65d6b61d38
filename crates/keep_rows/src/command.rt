//! The lines of the input, as commands.

/// A command.
#[derive(Clone, Copy)]
pub(crate) enum Command<'l> {
    /// Opens the file of a shard among so many shards, in a folder. The keeper before it is given back.
    Open {
        shard: u32,
        shards: u32,
        folder: &'l str,
    },
    /// Prints all rows.
    Load,
    /// Adds a row that is put to the changes.
    Put {
        key: KeyWords<'l>,
        body: &'l str,
    },
    /// Adds a row that is erased to the changes.
    Erase {
        key: KeyWords<'l>,
    },
    /// Makes all the changes since the last commit, or none.
    Commit,
    /// Prints how many openings and how many calls of the keeper have failed.
    Faults,
    /// Gives the keeper back.
    Close,
}

/// What a row is kept by.
#[derive(Clone, Copy)]
pub(crate) struct KeyWords<'l> {
    pub org: &'l str,
    pub kind: &'l str,
    pub name: &'l str,
}

/// The command of a line: a word, and behind it what this word takes, each part behind one space. The last part goes up to the
/// end of the line.
pub(crate) fn command_of(line: &str) -> Option<Command<'_>> {
    let (word, rest) = line.split_once(" ").unwrap_or((line, ""));
    match word {
        "open" => open_of(rest),
        "put" => put_of(rest),
        "erase" => erase_of(rest),
        "load" => Some(Command::Load),
        "commit" => Some(Command::Commit),
        "faults" => Some(Command::Faults),
        "close" => Some(Command::Close),
        _ => None,
    }
}

// K N FOLDER
fn open_of(rest: &str) -> Option<Command<'_>> {
    let (shard, rest) = rest.split_once(" ")?;
    let (shards, folder) = rest.split_once(" ")?;
    Some(Command::Open {
        shard: shard.parse::<u32>().ok()?,
        shards: shards.parse::<u32>().ok()?,
        folder,
    })
}

// ORG KIND NAME BODY
fn put_of(rest: &str) -> Option<Command<'_>> {
    let (org, rest) = rest.split_once(" ")?;
    let (kind, rest) = rest.split_once(" ")?;
    let (name, body) = rest.split_once(" ")?;
    Some(Command::Put {
        key: KeyWords { org, kind, name },
        body,
    })
}

// ORG KIND NAME
fn erase_of(rest: &str) -> Option<Command<'_>> {
    let (org, rest) = rest.split_once(" ")?;
    let (kind, name) = rest.split_once(" ")?;
    Some(Command::Erase {
        key: KeyWords { org, kind, name },
    })
}

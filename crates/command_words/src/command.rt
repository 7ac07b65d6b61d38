//! The commands of the program.

use doc_tree::Text;

/// What `knife` is told.
#[derive(Drop)]
pub struct KnifeWords {
    /// The server's host, as a URL writes it: a domain in lower case and in ASCII, an IPv4 address, or an
    /// IPv6 address between brackets.
    pub host: Text,
    /// The server's port, which is 1 to 65535, and 80 where the URL has none.
    pub port: u16,
    /// The organisation: any text.
    pub org: Text,
    /// The user who asks: any text.
    pub user: Text,
    /// The words that say what is asked, in their order, of which there is one at least.
    pub words: Vec<Text>,
}

/// A command, as its words spell it.
#[derive(Drop)]
pub enum Command {
    /// `answer`: requests are read from the input and answered on the output.
    Answer,
    /// `explain --sources FILE`: the layers of a file are merged, and each leaf is printed. FILE is any
    /// text.
    Explain(Text),
    /// `demo --size N`: a demonstration of a size, which is 1 to 200.
    Demo(u64),
    /// `knife --server URL --org O --user U WORD..`: requests are sent to a server, and what it tells is
    /// printed.
    Knife(KnifeWords),
}

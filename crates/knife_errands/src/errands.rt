//! Errands, typed as their words spell them.

use doc_tree::Text;

/// The kinds of what has a name of its own in an organisation.
#[derive(Clone, Copy, Debug, PartialEq, Eq, Drop)]
pub enum Kind {
    Node,
    Role,
    Environment,
    Client,
    Group,
    DataBag,
}

/// What names are listed.
#[derive(Drop)]
pub enum Listing {
    /// The names of a kind.
    Of(Kind),
    /// The ids of a data bag's items.
    Bag(Text),
    Users,
    /// The cookbooks with their versions.
    Cookbooks,
}

/// What is shown or removed.
#[derive(Drop)]
pub enum Thing {
    Named(Kind, Text),
    /// An item of a data bag.
    Item { bag: Text, id: Text },
    /// A version of a cookbook.
    Cookbook { name: Text, version: Text },
}

/// An errand of one request.
#[derive(Drop)]
pub enum Step {
    List(Listing),
    Show(Thing),
    /// A new one of a kind, by its name.
    Create(Kind, Text),
    Delete(Thing),
    Search { index: Text, query: Text },
    /// A GET of any path.
    Raw(Text),
}

/// What is done to a run list with an item.
#[derive(Clone, Copy, Debug, PartialEq, Eq, Drop)]
pub enum RunListChange {
    Add,
    Remove,
}

/// What a file holds.
#[derive(Drop)]
pub enum FileKind {
    Object(Kind),
    /// An item of this data bag.
    Item(Text),
}

/// What `knife` is told to do.
#[derive(Drop)]
pub enum Errand {
    One(Step),
    /// The run list of a node is changed by an item.
    RunList {
        node: Text,
        change: RunListChange,
        item: Text,
    },
    /// What a file holds is put, or posted where it isn't there yet.
    FromFile(FileKind, Text),
}

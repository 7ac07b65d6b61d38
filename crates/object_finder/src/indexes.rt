//! The indexes of an organisation by their words, the objects of each, and where the object of a key is found.
ghost use Rattle.std.specs.Prelude.{◌≡◌, ◌+◌, IfOk, option_copied, option_map};
ghost use Rattle.doc_tree.specs.Valid.{InOrder};
ghost use Rattle.object_finder.specs.Indexes as spec;

use compact_json::CompactJson;
use doc_tree::{Kind, NoMemory, Steps, Text, Texts};
use object_store::{Key, Objects};
use std::alloc::Global;
use std::sync::ledger::Ledger;

/// What a search goes through: the objects of a kind, or the items of a data bag.
#[derive(Drop)]
pub enum Index {
    /// The nodes.
    Nodes,
    /// The roles.
    Roles,
    /// The environments.
    Environments,
    /// The API clients.
    Clients,
    /// The items of the data bag of this name, by their ids.
    Bag(Text),
}

static INDEXED: [Kind; 4] = [Kind::Client, Kind::Environment, Kind::Node, Kind::Role];

/// The kinds whose objects have an index each, under the kind's word, in the order of the bytes of these words.
pub fn indexed() -> &'static [Kind]
    ensures { result.now ≡ spec.indexed }
{
    &INDEXED
}

/// The index of this word: that of one of these four kinds, or else the data bag of this name. Want of memory is the one
/// refusal.
pub fn index_of(alloc: Global, word: &Text) -> Result<Index, NoMemory>
    ensures { IfOk result (λ index. index ≡ spec.index_of word.now) }
{
    match kinds_index(word.as_str()) {
        Some(index) => Ok(index),
        None => Ok(Index::Bag(word.copy(alloc)?)),
    }
}

// The one of the four that has this word, if one has.
fn kinds_index(word: &str) -> Option<Index>
    ensures { result ≡ spec.kinds_index word.now }
{
    if word == Kind::Node.word() {
        Some(Index::Nodes)
    } else if word == Kind::Role.word() {
        Some(Index::Roles)
    } else if word == Kind::Environment.word() {
        Some(Index::Environments)
    } else if word == Kind::Client.word() {
        Some(Index::Clients)
    } else {
        None
    }
}

fn is_kinds(word: &str) -> bool
    ensures { result ≡ spec.is_kinds word.now }
{
    kinds_index(word).is_some()
}

impl Index {
    /// The kind of its objects.
    pub fn kind(&self) -> Kind
        ensures { result ≡ spec.kind_of self.now }
    {
        match self {
            Index::Nodes => Kind::Node,
            Index::Roles => Kind::Role,
            Index::Environments => Kind::Environment,
            Index::Clients => Kind::Client,
            Index::Bag(_) => Kind::Item,
        }
    }
}

/// The names of the objects of an index, in the order of their bytes: of a bag the ids of its items. It looks at no
/// object. Want of memory is the one refusal.
pub fn names_of(alloc: Global, objects: &Objects, index: &Index) -> Result<Texts, NoMemory>
    ensures names { IfOk result (λ names. names ≡ spec.names_of index.now objects.now.objects) }
    ensures order { IfOk result InOrder }
{
    match index {
        Index::Nodes => objects.names(alloc, Kind::Node),
        Index::Roles => objects.names(alloc, Kind::Role),
        Index::Environments => objects.names(alloc, Kind::Environment),
        Index::Clients => objects.names(alloc, Kind::Client),
        Index::Bag(bag) => objects.ids(alloc, bag.as_str()),
    }
}

/// The object of this name in an index, if there is one, which is not copied. It counts one step.
pub fn look_up<'a, L: Ledger>(
    objects: &'a Objects,
    index: &Index,
    name: &str,
    steps: &mut Steps<L>,
) -> Option<&'a CompactJson>
    ensures object { option_copied result ≡ spec.object_at index.now objects.now.objects name.now }
    ensures ticks { steps.new ≡ steps.old + 1 }
{
    match index {
        Index::Nodes => objects.look_up(Kind::Node, name, steps),
        Index::Roles => objects.look_up(Kind::Role, name, steps),
        Index::Environments => objects.look_up(Kind::Environment, name, steps),
        Index::Clients => objects.look_up(Kind::Client, name, steps),
        Index::Bag(bag) => objects.item(bag.as_str(), name, steps),
    }
}

/// The word of the index in which the object of a key is found, and its name in it: of an item its bag and its id, where
/// the bag isn't named like one of the four indexes. `None` where no search finds it. It takes no memory.
pub fn entry_of(key: &Key) -> Option<(&str, &str)>
    ensures { option_map (λ entry. (entry.0.now, entry.1.now)) result ≡ spec.entry_of key.now }
{
    match key.kind {
        Kind::Node => Some((Kind::Node.word(), key.name.as_str())),
        Kind::Role => Some((Kind::Role.word(), key.name.as_str())),
        Kind::Environment => Some((Kind::Environment.word(), key.name.as_str())),
        Kind::Client => Some((Kind::Client.word(), key.name.as_str())),
        Kind::Item => item_entry(key.name.as_str()),
        Kind::Org
        | Kind::Bag
        | Kind::User
        | Kind::Group
        | Kind::Container
        | Kind::Cookbook
        | Kind::Artifact
        | Kind::Policy
        | Kind::PolicyGroup
        | Kind::Acl
        | Kind::Sandbox
        | Kind::File => None,
    }
}

// Of an item the bag and the id, where the bag isn't named like one of the four indexes.
fn item_entry(name: &str) -> Option<(&str, &str)>
    ensures { option_map (λ entry. (entry.0.now, entry.1.now)) result ≡ spec.item_entry name.now }
{
    match name.split_once('/') {
        Some((bag, id)) if !is_kinds(bag) => Some((bag, id)),
        _ => None,
    }
}

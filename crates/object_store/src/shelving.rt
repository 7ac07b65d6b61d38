//! Where objects are kept: each kind has a shelf, and so has each bag, for its items.
ghost use Rattle.std.specs.Prelude.{◌≡◌, ◌↔◌, IfOk, IsTrue};
ghost use Rattle.object_store.specs.Items.{item_name};
ghost use Rattle.object_store.specs.Keys.{key};
ghost use Rattle.object_store.specs.Shelving.{has_slash, holds_items, is_word, name_on, shelf_of, word_of};

use doc_tree::{Kind, NoMemory, Text};
use std::alloc::Global;

/// The word of the shelf on which the object of this kind and name is kept, and its name there.
pub(crate) fn shelved(kind: Kind, name: &str) -> (&str, &str)
    ensures shelf { result.0.now ≡ shelf_of (key kind name.now) }
    ensures name { result.1.now ≡ name_on (key kind name.now) }
{
    match kind {
        Kind::Item => shelved_item(name),
        _ => (word_of(kind), name),
    }
}

// An item stands on its bag's shelf by its id. What is no item's name stands on the kind's shelf.
fn shelved_item(name: &str) -> (&str, &str)
    ensures shelf { result.0.now ≡ shelf_of (key Kind.Item name.now) }
    ensures name { result.1.now ≡ name_on (key Kind.Item name.now) }
{
    match name.split_once('/') {
        Some((bag, id)) => (bag, id),
        None => (word_of(Kind::Item), name),
    }
}

/// The word of a kind's shelf.
pub(crate) fn word_of(kind: Kind) -> &'static str
    ensures { result.now ≡ word_of kind }
{
    match kind {
        Kind::Org => "/org",
        Kind::Node => "/node",
        Kind::Role => "/role",
        Kind::Environment => "/environment",
        Kind::Bag => "/bag",
        Kind::Client => "/client",
        Kind::User => "/user",
        Kind::Group => "/group",
        Kind::Container => "/container",
        Kind::Item => "/item",
        Kind::Cookbook => "/cookbook",
        Kind::Artifact => "/artifact",
        Kind::Policy => "/policy",
        Kind::PolicyGroup => "/policy_group",
        Kind::Acl => "/acl",
        Kind::Sandbox => "/sandbox",
        Kind::File => "/file",
    }
}

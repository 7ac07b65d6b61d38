//! What an object is kept by.
ghost use Rattle.std.specs.Prelude.{◌≡◌, ◌++◌, IfOk, Some, refl};
ghost use Rattle.std.specs.Cmp.{partial_equiv_from_equiv, eq_by_cmp_equiv, partial_order_from_total};
ghost use Rattle.std.specs.Hash as fed;
ghost use Rattle.object_store.specs.Items.{item_name};
ghost use Rattle.object_store.specs.Keys.{key, same_key, key_cmp, key_cmp_total, is_of, position_of, hashed, hashed_alike};

use crate::item::is_item;
use doc_tree::{Kind, NoMemory, Text};
use std::alloc::Global;
use std::cmp::Ordering;
use std::hash::{Hash, Hasher};

/// What an object is kept by: its kind, and its name within the kind. Keys compare by their kinds,
/// in the order of `Kind`, and then by the bytes of their names.
#[derive(Debug, Drop)]
pub struct Key {
    /// The kind of the object.
    pub kind: Kind,
    /// The name, which no other object of the kind has.
    pub name: Text,
}

impl Key {
    /// An equal key with memory of its own.
    pub fn copy(&self, alloc: Global) -> Result<Key, NoMemory>
        ensures { IfOk result (λ key. key ≡ self.now) }
    {
        Ok(Key {
            kind: self.kind,
            name: self.name.copy(alloc)?,
        })
    }

    /// Whether it is of this kind.
    pub fn is_of(&self, kind: Kind) -> bool
        ensures { result ≡ is_of kind self.now }
    {
        position_of(kind) == position_of(self.kind)
    }

    /// Whether it is of this kind and has this name.
    pub(crate) fn is_named(&self, kind: Kind, name: &str) -> bool
        ensures { result ≡ same_key (key kind name.now) self.now }
    {
        self.is_of(kind) && name == self.name.as_str()
    }

    /// Whether it is that of the bag's item of this id.
    pub(crate) fn is_item(&self, bag: &str, id: &str) -> bool
        ensures { result ≡ same_key (key Kind.Item (item_name bag.now id.now)) self.now }
    {
        self.is_of(Kind::Item) && is_item(self.name.as_str(), bag, id)
    }
}

fn position_of(kind: Kind) -> u8
    ensures { result ≡ position_of kind }
{
    match kind {
        Kind::Org => 0,
        Kind::Node => 1,
        Kind::Role => 2,
        Kind::Environment => 3,
        Kind::Bag => 4,
        Kind::Client => 5,
        Kind::User => 6,
        Kind::Group => 7,
        Kind::Container => 8,
        Kind::Item => 9,
        Kind::Cookbook => 10,
        Kind::Artifact => 11,
        Kind::Policy => 12,
        Kind::PolicyGroup => 13,
        Kind::Acl => 14,
        Kind::Sandbox => 15,
        Kind::File => 16,
    }
}

impl PartialEq for Key {
    ghost eq = { same_key };

    ghost laws = { partial_equiv_from_equiv (eq_by_cmp_equiv key_cmp_total) };

    fn eq(&self, other: &Self) -> bool {
        self.cmp(other) == Ordering::Equal
    }
}

impl Eq for Key {
    ghost laws = { eq_by_cmp_equiv key_cmp_total };
}

impl PartialOrd for Key {
    ghost partial_cmp = { λ x y. Some (key_cmp x y) };

    ghost laws = { partial_order_from_total key_cmp_total };

    fn partial_cmp(&self, other: &Self) -> Option<Ordering> {
        Some(self.cmp(other))
    }
}

impl Ord for Key {
    ghost cmp = { key_cmp };

    ghost total = { key_cmp_total };

    ghost matches_partial_cmp = { λ x y. refl };

    ghost matches_eq = { λ x y. refl };

    fn cmp(&self, other: &Self) -> Ordering {
        position_of(self.kind)
            .cmp(&position_of(other.kind))
            .then(self.name.cmp(&other.name))
    }
}

impl Hash for Key {
    ghost hash_input = { hashed };

    ghost respects_eq = { hashed_alike };

    fn hash<H: Hasher>(&self, state: &mut H) {
        position_of(self.kind).hash(state);
        self.name.hash(state);
    }
}

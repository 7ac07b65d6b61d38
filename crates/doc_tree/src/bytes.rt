//! Bytes that are either a constant of the program or owned.
ghost use Rattle.std.specs.Prelude.{◌≡◌, ◌==◌, ◌↔◌, IfOk, IsTrue, [], length};
ghost use Rattle.std.specs.Cmp.{partial_equiv_from_equiv};
ghost use Rattle.std.specs.Cmp.Lexicographic.{pointwise, nat_list_eq_equiv};

use crate::no_memory::NoMemory;
use std::alloc::Global;
use std::marker::Model;

/// Bytes: a constant, which takes no memory to make, or a vector of their own. Contracts see the list of them.
#[derive(Drop)]
pub struct Bytes {
    held: Held,
}

#[derive(Drop)]
enum Held {
    Constant(&'static [u8]),
    Owned(Vec<u8>),
}

impl Model for Bytes {
    ghost use Rattle.std.specs.Prelude.{List, ℕ};

    ghost Value = { List ℕ };

    ghost use Rattle.doc_tree.specs.Bytes.{held_bytes};

    ghost view = { λ b. held_bytes b.held };
}

impl Bytes {
    /// The bytes of a constant, without memory.
    pub fn constant(bytes: &'static [u8]) -> Bytes
        ensures { result ≡ bytes.now }
    {
        Bytes {
            held: Held::Constant(bytes),
        }
    }

    /// The bytes of a vector, which is moved.
    pub fn of(bytes: Vec<u8>) -> Bytes
        ensures { result ≡ bytes.items }
    {
        Bytes {
            held: Held::Owned(bytes),
        }
    }

    /// Bytes of their own, equal to `bytes`.
    pub fn from_slice(alloc: Global, bytes: &[u8]) -> Result<Bytes, NoMemory>
        ensures { IfOk result (λ b. b ≡ bytes.now) }
    {
        Ok(Bytes::of(Vec::from_slice(alloc, bytes)?))
    }

    /// The bytes as a slice that borrows them.
    pub fn as_slice(&self) -> &[u8]
        ensures { result.now ≡ self.now }
    {
        match &self.held {
            Held::Constant(bytes) => bytes,
            Held::Owned(bytes) => bytes.as_slice(),
        }
    }

    /// How many bytes there are.
    pub fn len(&self) -> usize
        ensures { result ≡ length self.now }
    {
        self.as_slice().len()
    }

    /// Whether there are no bytes.
    pub fn is_empty(&self) -> bool
        ensures { IsTrue result ↔ (self.now ≡ []) }
    {
        self.as_slice().is_empty()
    }

    /// Equal bytes of their own.
    pub fn copy(&self, alloc: Global) -> Result<Bytes, NoMemory>
        ensures { IfOk result (λ b. b ≡ self.now) }
    {
        Bytes::from_slice(alloc, self.as_slice())
    }
}

impl PartialEq for Bytes {
    ghost eq = { pointwise ◌==◌ };

    ghost laws = { partial_equiv_from_equiv nat_list_eq_equiv };

    fn eq(&self, other: &Self) -> bool {
        self.as_slice() == other.as_slice()
    }
}

impl Eq for Bytes {
    ghost laws = { nat_list_eq_equiv };
}

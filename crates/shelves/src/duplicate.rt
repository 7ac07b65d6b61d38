//! Values that are copied with memory of their own.
ghost use Rattle.std.specs.Prelude.{◌≡◌, IfOk};

use doc_tree::{NoMemory, Text};
use std::alloc::Global;
use version_rules::Version;

/// A value that can be copied with memory of its own.
pub trait Duplicate {
    /// An equal value, unless memory is wanting.
    fn duplicate(&self, alloc: Global) -> Result<Self, NoMemory>
        ensures { IfOk result (λ copy. copy ≡ self.now) };
}

impl Duplicate for Text {
    fn duplicate(&self, alloc: Global) -> Result<Text, NoMemory> {
        self.copy(alloc)
    }
}

impl Duplicate for Version {
    /// It takes no memory.
    fn duplicate(&self, _alloc: Global) -> Result<Version, NoMemory> {
        Ok(*self)
    }
}

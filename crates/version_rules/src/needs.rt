//! What a cookbook needs: other cookbooks, each by name and with a constraint on its version.
ghost use Rattle.std.specs.Prelude.{◌≡◌, IfOk};

use crate::constraints::Constraint;
use doc_tree::{Listed, Name, NoMemory};
use std::alloc::Global;

/// A cookbook that is needed, and the constraint that its version has to meet.
#[derive(Debug, PartialEq, Eq, Drop)]
pub struct Need {
    pub name: Name,
    pub constraint: Constraint,
}

/// Needs, in order: contracts see the list of them.
pub type Needs = Listed<Need>;

impl Need {
    /// An equal need of its own.
    pub fn copy(&self, alloc: Global) -> Result<Need, NoMemory>
        ensures { IfOk result (λ need. need ≡ self.now) }
    {
        Ok(Need {
            name: self.name.copy(alloc)?,
            constraint: self.constraint,
        })
    }
}

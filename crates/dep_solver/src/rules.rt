//! What an environment asks of the versions of cookbooks.
ghost use Rattle.std.specs.Prelude.{◌≡◌, IfOk};

use crate::universe::copy_needs;
use doc_tree::NoMemory;
use std::alloc::Global;
use version_rules::Needs;

/// The rules of an environment: names, and the constraint that the chosen version of each has to meet. A rule on a name
/// that isn't chosen asks nothing, and of one name there may be several rules.
#[derive(Drop)]
pub struct EnvRules {
    pub rules: Needs,
}

impl EnvRules {
    /// Equal rules of their own.
    pub fn copy(&self, alloc: Global) -> Result<EnvRules, NoMemory>
        ensures { IfOk result (λ rules. rules ≡ self.now) }
    {
        Ok(EnvRules {
            rules: copy_needs(alloc, &self.rules)?,
        })
    }
}

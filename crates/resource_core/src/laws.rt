//! Laws: what depths that fall say.
ghost use Rattle.std.specs.Prelude.{ℕ, List};
ghost use Rattle.resource_core.specs.Graph.{Falls, IsOnCycle};

/// Where depths fall, nothing lies on a cycle.
pub fn depths_rule_out_cycles()
    ensures { (nexts : List (List ℕ)) (depths : List ℕ) → Falls nexts depths → (place : ℕ) → IsOnCycle nexts place → ⊥ }
{}

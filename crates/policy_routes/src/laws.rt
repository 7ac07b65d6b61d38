//! Laws of the definitions, which need no code.

ghost use Rattle.org_core.specs.Keeping.{Someone};
ghost use Rattle.org_core.specs.Lawful.{IsLawful};
ghost use Rattle.policy_routes.specs.PolicyRules.{policy_rules};

/// These routes are lawful for a caller whom the organisation knows: they keep that each assigned revision is there, and
/// that each file which an artifact names is there and committed.
pub fn policies_are_lawful()
    ensures { IsLawful Someone policy_rules }
{}

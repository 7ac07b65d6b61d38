//! Laws of the definitions, which need no code.

ghost use Rattle.org_core.specs.Keeping.{Someone};
ghost use Rattle.org_core.specs.Lawful.{IsLawful};
ghost use Rattle.cookbook_routes.specs.CookbookRules.{cookbook_rules};

/// These routes are lawful for a caller whom the organisation knows; of its files they keep that each which a cookbook
/// version names is there and committed.
pub fn cookbooks_are_lawful()
    ensures { IsLawful Someone cookbook_rules }
{}

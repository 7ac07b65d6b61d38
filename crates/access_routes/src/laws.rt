//! Laws of the definitions, which need no code.

ghost use Rattle.org_core.specs.Keeping.{NeverShelves, Someone};
ghost use Rattle.org_core.specs.Lawful.{IsLawful};
ghost use Rattle.access_routes.specs.AccessRules.{access_rules};

/// These routes are lawful for a caller whom the organisation knows. They put nothing on a shelf.
pub fn access_is_lawful()
    ensures lawful { IsLawful Someone access_rules }
    ensures shelfless { NeverShelves access_rules }
{}

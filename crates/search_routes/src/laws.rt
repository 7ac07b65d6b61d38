//! Laws of the definitions, which need no code.

ghost use Rattle.org_core.specs.Keeping.{NeverShelves, Someone};
ghost use Rattle.org_core.specs.Lawful.{IsLawful};
ghost use Rattle.search_routes.specs.SearchRules.{search_rules};

/// These routes are lawful for a caller whom the organisation knows. They put nothing on a shelf.
pub fn searches_are_lawful()
    ensures lawful { IsLawful Someone search_rules }
    ensures shelfless { NeverShelves search_rules }
{}

//! Laws of the groups' definitions, which need no code.

ghost use Rattle.std.specs.Prelude.{◌≡◌, None, Ok, codes};
ghost use Rattle.doc_tree.specs.Doc.{words};
ghost use Rattle.doc_tree.specs.declared.kind.Kind.TheVariants as kinds;
ghost use Rattle.object_forms.specs.Objects.{object_from};
ghost use Rattle.org_core.specs.Conditions.{MeetsConditions};
ghost use Rattle.org_core.specs.Keeping.{Anyone, NeverShelves, Someone};
ghost use Rattle.org_core.specs.Lawful.{IsLawful};
ghost use Rattle.org_core.specs.Moves.{after_moves};
ghost use Rattle.org_requests.specs.Replies.{one_key};
ghost use Rattle.org_requests.specs.declared.collections.Collection as collections;
ghost use Rattle.object_routes.specs.DataBags.{data_rules};
ghost use Rattle.object_routes.specs.Objects.{objects_rules};
ghost use Rattle.object_routes.specs.Organisations.{creation, default_environment, organisation_rules};

/// The environment that every organisation has is what the body `{"name":"_default"}` gives.
pub fn default_environment_is_read()
    ensures { object_from kinds.Environment None (one_key (codes "name") (words (codes "_default"))) ≡ Ok default_environment }
{}

/// A new organisation meets the conditions of every organisation's state.
pub fn new_organisations_meet_conditions()
    ensures { MeetsConditions (after_moves creation None) }
{}

/// These groups are lawful: that of organisations whoever asks, and the others for a caller whom the organisation
/// knows. They put nothing on a shelf.
pub fn groups_are_lawful()
    ensures organisations { IsLawful Anyone organisation_rules }
    ensures objects { (collection : collections.Collection) → IsLawful Someone (objects_rules collection) }
    ensures data_bags { IsLawful Someone data_rules }
    ensures shelfless { NeverShelves organisation_rules × ((collection : collections.Collection) → NeverShelves (objects_rules collection)) × NeverShelves data_rules }
{}

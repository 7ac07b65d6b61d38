//! Identifiers that are handed in for versions of cookbooks.
ghost use Rattle.std.specs.Prelude.{◌≡◌, IfOk, option_map, option_copied};
ghost use Rattle.policy_locks.specs.Making as spec;

use dep_solver::Pin;
use doc_tree::{Listed, Name, Text};
use version_rules::Version;

/// A version of a cookbook, and the identifier of its artifact.
#[derive(Debug, PartialEq, Eq, Drop)]
pub struct Identified {
    pub name: Name,
    pub version: Version,
    pub identifier: Text,
}

/// Identifiers of versions of cookbooks: contracts see the list of them. Of one version the first counts.
pub type Identifiers = Listed<Identified>;

/// The identifier that was handed in for a version of a cookbook.
pub(crate) fn identifier_for<'a>(identifiers: &'a Identifiers, pin: &Pin) -> Option<&'a Text>
    ensures { option_copied result ≡ spec.identifier_for identifiers.now pin.now }
{
    let found = identifiers
        .as_slice()
        .iter()
        .find(|identified| is_of(identified, pin));
    match found {
        Some(identified) => Some(&identified.identifier),
        None => None,
    }
}

ghost use Rattle.std.specs.Prelude.{◌&&◌};
ghost use Rattle.dep_solver.specs.Names.{same_name};
ghost use Rattle.dep_solver.specs.Universes.{same_version};

fn is_of(identified: &Identified, pin: &Pin) -> bool
    ensures { result ≡ (same_name identified.now.name pin.now.name && same_version identified.now.version pin.now.version) }
{
    identified.name == pin.name && identified.version == pin.version
}

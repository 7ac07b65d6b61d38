//! Who comes to an organisation and joins a group of it.

ghost use Rattle.std.specs.Prelude.{◌≡◌, IfOk};

use doc_tree::{NoMemory, Text};
use std::alloc::Global;
use std::marker::Model;

/// A new user or client, and the group that he joins. The name is there for both places that keep it:
/// among the users or clients of the organisation, and among the members of the group. Contracts see the
/// one name, and the group's.
#[derive(Drop)]
pub struct Comer {
    name: Text,
    member: Text,
    group: Text,
}

impl Model for Comer {
    ghost use Rattle.std.specs.Prelude.{◌≡◌};
    ghost use Rattle.org_core.specs.Comers.{Coming, coming_code};

    ghost Value = { Coming };

    ghost coded = { coming_code };

    ghost view = { λ c. record { name = c.name; group = c.group } };

    // The member's name is the one.
    ghost invariant = { λ c. c.member ≡ c.name };
}

impl Comer {
    /// Who has this name and joins this group.
    pub fn of(alloc: Global, name: &str, group: &str) -> Result<Comer, NoMemory>
        ensures { IfOk result (λ comer. comer ≡ record { name = name.now; group = group.now }) }
    {
        Ok(Comer {
            name: Text::from_str(alloc, name)?,
            member: Text::from_str(alloc, name)?,
            group: Text::from_str(alloc, group)?,
        })
    }

    /// The group that is joined.
    pub(crate) fn group(&self) -> &Text
        ensures { result.now ≡ self.now.group }
    {
        &self.group
    }

    /// The name, twice, and the group.
    pub(crate) fn into_parts(self) -> (Text, Text, Text)
        ensures name { result.0 ≡ self.name }
        ensures member { result.1 ≡ self.name }
        ensures group { result.2 ≡ self.group }
    {
        let Comer {
            name,
            member,
            group,
        } = self;
        (name, member, group)
    }
}

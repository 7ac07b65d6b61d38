//! The members of a group that is put in.

ghost use Rattle.std.specs.Prelude.{◌≡◌};

use membership::Group;
use std::marker::Model;

/// The members of a group. Contracts see them, and not the room for more.
#[derive(Drop)]
pub struct GroupMembers {
    group: Group,
}

impl Model for GroupMembers {
    ghost use Rattle.membership.specs.Members.{Members, members_code};

    ghost Value = { Members };

    ghost coded = { members_code };

    ghost view = { λ m. m.group.members };
}

impl GroupMembers {
    /// The members of this group, which is moved.
    pub fn of(group: Group) -> GroupMembers
        ensures { result ≡ group.members }
    {
        GroupMembers { group }
    }

    /// The group, which is moved out.
    pub(crate) fn into_group(self) -> Group
        ensures { result.members ≡ self }
    {
        let GroupMembers { group } = self;
        group
    }
}

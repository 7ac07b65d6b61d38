//! Laws.
ghost use Rattle.std.specs.Prelude.{ℕ, List};
ghost use Rattle.membership.specs.declared.lists.GroupLists.{GroupLists as TheLists};
ghost use Rattle.membership.specs.declared.lists.GroupRow.{GroupRow as ARow};
ghost use Rattle.membership.specs.Belonging.{TellsWhoBelongs};
ghost use Rattle.membership.specs.Laws.{FollowsLists, FollowsRow, TakesTheLast};
ghost use Rattle.membership.specs.Members.{Membership};

/// What a change of `Groups` leaves is what `build` makes of lists that are changed alike: with a user or
/// client more or fewer, with a member of a group more or fewer, and with a group's row put behind the
/// others, where it takes the place of one of its name.
pub fn changes_follow_the_lists()
    ensures organisation { (lists : TheLists) → (name : List ℕ) → FollowsLists lists name }
    ensures members { (row : ARow) → (name : List ℕ) → FollowsRow row name }
    ensures groups { (lists : TheLists) → (row : ARow) → TakesTheLast lists row }
{}

/// The test `belongs`, which looks through no more groups than there are, is true just where the caller
/// belongs to the group: of the least set that holds each user and client of a group with that group
/// and that, where a caller belongs to a group which another group lists, holds him with that other.
pub fn belonging_is_decided()
    ensures { (membership : Membership) → (caller group : List ℕ) → TellsWhoBelongs membership caller group }
{}

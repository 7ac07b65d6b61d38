//! Laws: what rows say of the states that they are of.

ghost use Rattle.org_rows.specs.Laws.{BodiesSayContents, ContentsGiveBodies, FirstBadTells, GoodRowsAreOf, KindsHaveWords, RowsAreGood, RowsNamePlaces, RowsTellStates};

/// Each kind is told by its word, and by no other.
pub fn kinds_have_words()
    ensures { KindsHaveWords }
{}

/// The row of a place is of that place, and a row that is of a place is the row of it.
pub fn rows_name_places()
    ensures { RowsNamePlaces }
{}

/// Two different maps of organisations to states that they can have, have different rows.
pub fn rows_tell_states()
    ensures { RowsTellStates }
{}

/// The rows of states that organisations can have are good: none has a reason.
pub fn rows_are_good()
    ensures { RowsAreGood }
{}

/// The body that a state has at a place says what stands there.
pub fn bodies_say_contents()
    ensures { BodiesSayContents }
{}

/// Where a body says what stands at a place, it is the body that the state has there.
pub fn contents_give_bodies()
    ensures { ContentsGiveBodies }
{}

/// Good rows are those of the states that hold what the rows say.
pub fn good_rows_are_of()
    ensures { GoodRowsAreOf }
{}

/// All rows are good exactly where there is no first bad one.
pub fn first_bad_tells()
    ensures { FirstBadTells }
{}

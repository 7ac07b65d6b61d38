//! Laws: what holds of the objects that queries find.
ghost use Rattle.object_finder.specs.Laws.{FoundAreThoseThatMatch, MeetingIsTold};

/// A name is found exactly where it is one of the index's and the pairs of its object meet the query.
pub fn found_are_those_that_match()
    ensures { FoundAreThoseThatMatch }
{}

/// The test by which the definitions tell whether pairs meet a query is true exactly where they do.
pub fn meeting_is_told()
    ensures { MeetingIsTold }
{}

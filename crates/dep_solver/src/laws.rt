//! Laws: what a walk fixes, and that of two solutions one is better.
ghost use Rattle.dep_solver.specs.Laws.{BestIsNoneBetter, BestOfIsTheBest, ListsOfARefusal, OneIsBetter, PlacesFixTheNext, SolutionsHaveWalks, TestOfAllowed};

/// The first places of a walk fix the name at the next place, or that the walk ends there.
pub fn places_fix_the_next()
    ensures { PlacesFixTheNext }
{}

/// Each solution has a walk.
pub fn solutions_have_walks()
    ensures { SolutionsHaveWalks }
{}

/// Two solutions are one, or one of them is better than the other.
pub fn one_is_better()
    ensures { OneIsBetter }
{}

/// The best solution is the one than which none is better.
pub fn best_is_none_better()
    ensures { BestIsNoneBetter }
{}

/// The function `best_of` gives the best solution in the byte order of its names, and nothing exactly where there is no
/// solution.
pub fn best_of_is_the_best()
    ensures { BestOfIsTheBest }
{}

/// The test `is_allowed` says whether a version is released and meets the pins and the rules.
pub fn test_of_allowed()
    ensures { TestOfAllowed }
{}

/// The functions `lacking` and `without_version` give the roots that the universe lacks, and those that it has and of which
/// no version is allowed.
pub fn lists_of_a_refusal()
    ensures { ListsOfARefusal }
{}

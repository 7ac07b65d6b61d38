//! The versions of cookbooks that meet all that is asked of them, and the best choice among these.
#![tactic(auto)]

mod candidates;
mod clashes;
mod conflicts;
mod dead;
mod finding;
mod keys;
mod laws;
mod learning;
mod no_solution;
mod refusing;
mod roots;
mod rules;
mod same;
mod search;
mod solved;
mod store;
mod straight;
mod trail;
mod universe;
mod values;

pub use laws::{
    best_is_none_better, best_of_is_the_best, lists_of_a_refusal, one_is_better,
    places_fix_the_next, solutions_have_walks, test_of_allowed,
};
pub use no_solution::NoSolution;
pub use roots::{Pin, Pins, Roots};
pub use rules::EnvRules;
pub use solved::{Solved, best_pins, solve};
pub use universe::{Cookbook, Cookbooks, Release, Releases, Universe};

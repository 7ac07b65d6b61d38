//! The rows of organisations: what each row is of, its body, what it says back, and which rows are bad.
#![tactic(auto)]

mod laws;
mod reason;

pub use laws::{
    bodies_say_contents, contents_give_bodies, first_bad_tells, good_rows_are_of, kinds_have_words,
    rows_are_good, rows_name_places, rows_tell_states,
};
pub use reason::Reason;

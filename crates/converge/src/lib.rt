//! Runs of a plan on a host: each act in order, with what it notifies, and what a run comes to.
#![tactic(auto)]

mod chains;
mod converging;
mod deeds;
mod firing;
mod laws;
mod lines;
mod log;
mod needs;
mod outcome;
mod report;
mod runs;

pub use converging::converge;
pub use laws::{
    plans_that_agree_by_table_agree, runs_are_determined, settled_hosts_stay, well_runs_settle,
};
pub use outcome::{Cap, Outcome};
pub use report::Report;

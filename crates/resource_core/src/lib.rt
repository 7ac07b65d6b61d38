//! Recipes compiled to a plan: resources with their attributes filled in, and what the update of each fires.
#![tactic(auto)]

mod created;
mod depths;
mod drafting;
mod entries;
mod fault;
mod graph;
mod laws;
mod linking;
mod links;
mod modes;
mod plans;
mod recipes;
mod resources;
mod templates;
mod types;
mod values;

pub use entries::{Entries, Entry, Timer};
pub use fault::CompileFault;
pub use laws::depths_rule_out_cycles;
pub use links::{Notification, Notifications};
pub use plans::{RunPlan, compile};
pub use recipes::{Recipes, are_recipes};
pub use resources::{Actions, Resource};
pub use types::{Action, ResourceType};

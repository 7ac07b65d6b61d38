//! Run lists: their items, which documents are run lists, what they come to through roles, and what their items ask of the
//! solver.
#![tactic(auto)]

mod asking;
mod by_name;
mod expand_fault;
mod expansion;
mod item_fault;
mod items;
mod keys;
mod laws;
mod listing;
mod names;
mod reading;
mod role_reading;
mod roles;
mod spelling;
mod storing;
mod walk;

pub use asking::{names_a_role, roots_of};
pub use by_name::{NamedRunList, NamedRunLists, named_run_lists};
pub use expand_fault::ExpandFault;
pub use expansion::{Expansion, RecipeNames, expand};
pub use item_fault::ItemFault;
pub use items::{Item, Items, read_item};
pub use laws::{one_visit, run_lists_read_back, stored_items_read_back};
pub use names::{Named, RecipeName};
pub use reading::{Allowed, items_read, recipes_of, run_list_of};
pub use role_reading::read_role;
pub use roles::{Role, Roles, RunLists};
pub use storing::{by_name_tree, run_list_tree};

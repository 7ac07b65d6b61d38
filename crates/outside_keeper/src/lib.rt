//! Keepers: rows by their organisation, kind and name, loaded whole and changed all at once or not at all.
#![tactic(auto)]

mod change;
mod keep_fault;
mod keeper;
mod memory_keeper;
mod open_fault;
mod row_key;
mod rows;

pub use change::{Change, Changes};
pub use keep_fault::KeepFault;
pub use keeper::Keeper;
pub use memory_keeper::{MemKeeper, NeverFailingKeeper};
pub use open_fault::OpenFault;
pub use row_key::RowKey;
pub use rows::{Row, Rows};

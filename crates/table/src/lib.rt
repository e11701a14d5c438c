//! The inner table: people and slots, with their labels and values. It knows no scheme.
#![tactic(auto)]

mod table;
mod words;

pub use table::{Slot, Table};
pub use words::puts_change_one_value;

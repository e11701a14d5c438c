//! The judge: before a sheet runs, every row of it is judged by the labels alone.
#![tactic(auto)]

mod control;
mod sheet;
mod theorems;
mod verdict;

pub use sheet::judge;
pub use theorems::{examples_stand, judged_exactly, lower_control, order_alone, sequence_rule};

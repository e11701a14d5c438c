//! Runs a sheet over the inner table. It knows no scheme.
#![tactic(auto)]

mod entry;
mod laws;
mod runner;
mod simple;

pub use entry::{Cut, run};
pub use laws::{
    loops_unfold, more_turns_change_nothing, rules_agree, runs_keep_labels_and_turns,
    sequences_run_in_order,
};

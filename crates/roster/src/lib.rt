//! The roster: a text that lists people and slots with their labels, one to a line.
#![tactic(auto)]

mod fault;
mod kind;
mod line;
mod listing;
mod place;
mod reader;

pub use fault::{LineReason, RosterFault};
pub use reader::{read_roster, reading_stands};

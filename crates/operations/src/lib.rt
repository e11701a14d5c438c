//! What a row may compute of two values.
#![tactic(auto)]

mod operation;
mod share;
pub mod words;

pub use operation::{Operation, UnknownOperation};

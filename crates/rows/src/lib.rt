//! The rows of a sheet: what each means, its bytes, and the faults of a row.
#![tactic(auto)]

mod complaint;
mod fault;
mod kind;
mod reader;
mod row;

pub use fault::{RowFault, RowReason};
pub use reader::{read_row, rows_are_read, rows_are_refused};
pub use row::Row;

//! Sheets: rows with their blocks, read from bytes and checked before anything else is done with them.
#![tactic(auto)]

mod fault;
mod meaning;
mod reading;
mod sheet;
mod walker;

pub use fault::SheetFault;
pub use meaning::{listings_are_parsed, listings_are_unique, sheets_are_read, sheets_are_refused};
pub use sheet::Sheet;
pub use walker::{Open, Walker, walk_is_exact};

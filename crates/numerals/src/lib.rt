//! Numbers in decimal digits, of any length: recognised, and read as far as 64 bits hold them; and the fields of a text.
#![tactic(auto)]

mod fields;
mod numeral;

pub use fields::cut_at;
pub use numeral::{NumeralError, number, numbers_stand};

//! Label schemes: a trait with its laws, and five schemes that keep them.
#![tactic(auto)]

mod cap;
mod counted;
mod fault;
mod house;
mod ladder;
mod pair;
mod scheme;
mod topics;
mod words;

pub use cap::Cap;
pub use counted::Counted;
pub use fault::SchemeFault;
pub use house::House;
pub use ladder::Ladder;
pub use pair::Pair;
pub use scheme::Scheme;
pub use topics::Topics;
pub use words::{
    cap_in_words, cap_is_defined, house_is_bitwise, house_is_defined, ladder_in_words,
    ladder_is_defined, pair_in_words, pair_is_defined, topics_are_bitwise, topics_are_defined,
};

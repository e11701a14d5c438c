//! Tests of the window's text as a whole: what is printed for an entire input. The expected bytes are worked out by hand.
#![tactic(auto)]

#[cfg(test)]
mod tests;

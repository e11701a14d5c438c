//! Tests of the schemes at their edges: the smallest and largest sizes, codes and widths. The expected values are worked out by hand.
#![tactic(auto)]

#[cfg(test)]
mod tests;

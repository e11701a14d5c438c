//! Worked cases of operations, sheets and schemes, over the definitions that the box is held to.
#![tactic(auto)]

ghost use Rattle.cases.specs.Cases.{WorkedCases};

/// The fourteen worked cases hold. It does nothing: its contract is the list of them.
pub fn cases_hold()
    ensures { WorkedCases }
{}

ghost use Rattle.judging.specs.Examples.{Examples};
ghost use Rattle.judging.specs.Theorems.{JudgedExactly, LowerControl, OrderAlone, SequenceRule};

/// Every row of a block has a verdict, and all pass exactly when the block has a derivation by the typing rules.
pub fn judged_exactly()
    ensures { JudgedExactly }
{}

/// What has a derivation under a control label has one under each that is at or below it.
pub fn lower_control()
    ensures { LowerControl }
{}

/// The verdicts depend on the order of the labels alone, and not on which least joins a scheme gives.
pub fn order_alone()
    ensures { OrderAlone }
{}

/// One block after another has a derivation exactly when each has one under the same control label.
pub fn sequence_rule()
    ensures { SequenceRule }
{}

/// Small blocks, each with what stands against it.
pub fn examples_stand()
    ensures { Examples }
{}

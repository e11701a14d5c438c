//! The theorems about judged sheets and about calls: whoever sees only what is at or below a label learns nothing of the rest.
//! Each is the contract of a function, stated over the definitions in specs/.
#![tactic(auto)]

ghost use Rattle.noninterference.specs.Examples.{Examples};
ghost use Rattle.noninterference.specs.Monitor.{CallsOneByOne};
ghost use Rattle.noninterference.specs.Noninterference.{Noninterference};
ghost use Rattle.noninterference.specs.Strike.{StrikeTheorem};

/// A run of a typed block shows an observer nothing of the slots that are not at or below the observer's label, and changes
/// only slots that the runner's label is at or below.
pub fn runs_do_not_interfere()
    ensures { Noninterference }
{}

/// Each call is made from the slots that the one before it left and has one answer, and a call that is refused changes nothing.
pub fn calls_are_made_one_by_one()
    ensures { CallsOneByOne }
{}

/// Strike out every call of people who are not at or below a label: the other calls are answered as before, and what is seen
/// at that label ends as before.
pub fn struck_calls_leave_no_trace()
    ensures { StrikeTheorem }
{}

/// What these theorems ask can be met, and what they say fails of blocks that copy, branch or loop on what is above the runner.
pub fn examples_stand()
    ensures { Examples }
{}

// The laws of running. Each function does nothing: its contract is the law.
ghost use Rattle.running.specs.BigStep.{RulesAgree};
ghost use Rattle.running.specs.Laws.{LoopsUnfold, SequencesRunInOrder, RunsKeep, MoreTurnsChangeNothing};

/// A loop has no bound but the turns: it looks at its guard, takes a turn, runs its body and is itself again.
pub fn loops_unfold()
    ensures { LoopsUnfold }
{}

/// A block after another runs where the first came to its end, and not at all if the first was cut.
pub fn sequences_run_in_order()
    ensures { SequencesRunInOrder }
{}

/// A run keeps the number of the slots and every label, and ends with no more turns than it was given.
pub fn runs_keep_labels_and_turns()
    ensures { RunsKeep }
{}

/// A run that comes to its end does the same with more turns, and has those left too.
pub fn more_turns_change_nothing()
    ensures { MoreTurnsChangeNothing }
{}

/// What running gives is what its rules give, and only that.
pub fn rules_agree()
    ensures { RulesAgree }
{}

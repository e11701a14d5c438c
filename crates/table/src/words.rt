// What a put changes: the statement is the contract of a function that does nothing.
ghost use Rattle.table.specs.Words.{Puts};

/// A put gives its slot the value, and leaves every other value, every label and the number of slots; past the last slot it leaves all.
pub fn puts_change_one_value()
    ensures { Puts }
{}

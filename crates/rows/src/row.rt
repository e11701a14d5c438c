use operations::Operation;

/// A row of a sheet. Slots are given by number, a guard is a slot that is looked at.
#[derive(Clone, Copy, Debug, Default, PartialEq, Eq)]
pub enum Row {
    /// Does nothing.
    #[default]
    Idle,
    /// Puts a constant into the target.
    PutConstant {
        target: u8,
        constant: i32,
    },
    /// Puts the operation of a slot and a constant into the target.
    SlotWithConstant {
        operation: Operation,
        target: u8,
        first: u8,
        constant: i32,
    },
    /// Puts the operation of two slots into the target.
    TwoSlots {
        operation: Operation,
        target: u8,
        first: u8,
        second: u8,
    },
    /// Opens a block that is run if the guard is not 0.
    If {
        guard: u8,
    },
    /// Ends the first branch of an if and begins the second.
    Else,
    /// Opens a block that is run as long as the guard is not 0.
    While {
        guard: u8,
    },
    /// Closes the latest block.
    End,
}

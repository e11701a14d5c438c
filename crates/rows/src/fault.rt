ghost use Rattle.std.specs.Prelude.{◌≡◌};
ghost use Rattle.rows.specs.Faults.{reason_number, reason_byte};
ghost use Rattle.rows.specs.declared.fault.RowReason.TheVariants.{Operation};

use operations::UnknownOperation;

/// Why a row is refused.
#[derive(Clone, Copy, Debug, PartialEq, Eq)]
pub enum RowReason {
    /// Its kind is none of the eight.
    Kind,
    /// Its operation is none of the eight.
    Operation,
    /// The slot that this byte names is not listed.
    NotListed { byte: u8 },
    /// This byte is not used by the kind and is not 0.
    NotZero { byte: u8 },
    /// An else that is not directly in an if, or is its second.
    ElseOutOfPlace,
    /// An end with nothing open.
    EndOutOfPlace,
    /// A seventeenth open block.
    TooDeep,
    /// A set row that does not pass: the target's label is not above all that the row depends on.
    SetNotPassed,
    /// A while row that does not pass: the loop depends on more than the runner may know.
    WhileNotPassed,
}

// The window's lines tell a fault by its number and byte, so these stand beside the variants.
impl RowReason {
    /// The number by which the fault is told.
    pub fn number(self) -> u8
        ensures { result ≡ reason_number self }
    {
        match self {
            RowReason::Kind => 21,
            RowReason::Operation => 22,
            RowReason::NotListed { .. } => 23,
            RowReason::NotZero { .. } => 24,
            RowReason::ElseOutOfPlace => 25,
            RowReason::EndOutOfPlace => 26,
            RowReason::TooDeep => 27,
            RowReason::SetNotPassed => 31,
            RowReason::WhileNotPassed => 32,
        }
    }

    /// The byte of the row that is at fault, 0 where none is named.
    pub fn byte(self) -> u8
        ensures { result ≡ reason_byte self }
    {
        match self {
            RowReason::Operation => 1,
            RowReason::NotListed { byte } | RowReason::NotZero { byte } => byte,
            RowReason::Kind
            | RowReason::ElseOutOfPlace
            | RowReason::EndOutOfPlace
            | RowReason::TooDeep
            | RowReason::SetNotPassed
            | RowReason::WhileNotPassed => 0,
        }
    }
}

impl From<UnknownOperation> for RowReason {
    ghost from_gives = { λ _ reason. reason ≡ Operation };

    fn from(_unknown: UnknownOperation) -> Self {
        Self::Operation
    }
}

/// A row that is refused, by its number, and why.
#[derive(Clone, Copy, Debug, PartialEq, Eq)]
pub struct RowFault {
    pub row: u8,
    pub reason: RowReason,
}

ghost use Rattle.std.specs.Prelude.{◌≡◌};
ghost use Rattle.roster.specs.Faults.{line_reason_number, line_reason_byte, roster_fault_number, roster_fault_line, roster_fault_byte};

/// What is at fault in a line.
#[derive(Clone, Copy, Debug, PartialEq, Eq)]
pub enum LineReason {
    /// No line of the form has, at this offset from the line's start, what it has there.
    Form { byte: u16 },
    /// There is no person, or no slot, of this number.
    Number,
    /// An earlier line lists the same person, or the same slot.
    ListedBefore,
    /// The label is not below 2 to the power of the scheme's width.
    Label,
}

/// What a roster is refused for.
#[derive(Clone, Copy, Debug, PartialEq, Eq)]
pub enum RosterFault {
    /// It is longer than 4096 bytes.
    TooLong,
    /// Its first line at fault, counted from 0.
    Line { line: u16, reason: LineReason },
}

// The window's lines tell a fault by its number, line and byte, so these stand beside the variants.
impl LineReason {
    /// The number of the fault.
    pub fn number(self) -> u8
        ensures { result ≡ line_reason_number self }
    {
        match self {
            LineReason::Form { byte: _ } => 2,
            LineReason::Number => 3,
            LineReason::ListedBefore => 4,
            LineReason::Label => 5,
        }
    }

    /// The byte that is named, from the start of its line; 0 where none is.
    pub fn byte(self) -> u16
        ensures { result ≡ line_reason_byte self }
    {
        match self {
            LineReason::Form { byte } => byte,
            _ => 0,
        }
    }
}

impl RosterFault {
    /// The number of the fault.
    pub fn number(self) -> u8
        ensures { result ≡ roster_fault_number self }
    {
        match self {
            RosterFault::TooLong => 1,
            RosterFault::Line { line: _, reason } => reason.number(),
        }
    }

    /// The line that is named; 0 where none is.
    pub fn line(self) -> u16
        ensures { result ≡ roster_fault_line self }
    {
        match self {
            RosterFault::TooLong => 0,
            RosterFault::Line { line, reason: _ } => line,
        }
    }

    /// The byte that is named, from the start of its line; 0 where none is.
    pub fn byte(self) -> u16
        ensures { result ≡ roster_fault_byte self }
    {
        match self {
            RosterFault::TooLong => 0,
            RosterFault::Line { line: _, reason } => reason.byte(),
        }
    }
}

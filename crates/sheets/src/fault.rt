ghost use Rattle.std.specs.Prelude.{◌≡◌};
ghost use Rattle.sheets.specs.Faults.{fault_number, fault_row, fault_byte};
ghost use Rattle.sheets.specs.declared.fault.SheetFault.TheVariants.{Row};

use rows::RowFault;

/// Why a sheet is refused.
#[derive(Clone, Copy, Debug, PartialEq, Eq)]
pub enum SheetFault {
    /// It is over 2,048 bytes, or no whole number of rows.
    Length,
    /// The first row that is refused.
    Row(RowFault),
    /// After the last row, the row of the latest block that is still open.
    StillOpen { row: u8 },
}

impl From<RowFault> for SheetFault {
    ghost from_gives = { λ fault r. r ≡ Row fault };

    fn from(refused: RowFault) -> SheetFault {
        SheetFault::Row(refused)
    }
}

// The window's lines tell a fault by its number, row and byte, so these stand beside the variants.
impl SheetFault {
    /// The number by which the fault is told.
    pub fn number(self) -> u8
        ensures { result ≡ fault_number self }
    {
        match self {
            SheetFault::Length => 20,
            SheetFault::Row(fault) => fault.reason.number(),
            SheetFault::StillOpen { .. } => 28,
        }
    }

    /// The row at fault, 0 where none is named.
    pub fn row(self) -> u8
        ensures { result ≡ fault_row self }
    {
        match self {
            SheetFault::Length => 0,
            SheetFault::Row(fault) => fault.row,
            SheetFault::StillOpen { row } => row,
        }
    }

    /// The byte of that row that is at fault, 0 where none is named.
    pub fn byte(self) -> u8
        ensures { result ≡ fault_byte self }
    {
        match self {
            SheetFault::Row(fault) => fault.reason.byte(),
            SheetFault::Length | SheetFault::StillOpen { .. } => 0,
        }
    }
}

ghost use Rattle.std.specs.Prelude.{◌≡◌};
ghost use Rattle.monitor.specs.Faults.{fault_number, fault_row, fault_byte, fault_count};
ghost use Rattle.monitor.specs.declared.fault.MonitorFault.TheVariants.{Roster, Sheet, Cut};
ghost use Rattle.sheets.specs.declared.fault.SheetFault.TheVariants.{Row};

use roster::RosterFault;
use rows::RowFault;
use sheets::SheetFault;

/// Why a call is refused.
#[derive(Clone, Copy, Debug, PartialEq, Eq)]
pub enum MonitorFault {
    /// The box has a roster already.
    HasRoster,
    /// What is at fault in a roster.
    Roster(RosterFault),
    /// There is no such person.
    NoPerson,
    /// There is no such slot.
    NoSlot,
    /// The person is not at or below the slot.
    LayNotPermitted,
    /// The slot is not at or below the person.
    ViewNotPermitted,
    /// What is at fault in a sheet, read or judged.
    Sheet(SheetFault),
    /// The run was cut: it was given so many turns.
    Cut { turns: u16 },
}

impl From<RosterFault> for MonitorFault {
    ghost from_gives = { λ fault r. r ≡ Roster fault };

    fn from(fault: RosterFault) -> MonitorFault {
        MonitorFault::Roster(fault)
    }
}

impl From<SheetFault> for MonitorFault {
    ghost from_gives = { λ fault r. r ≡ Sheet fault };

    fn from(fault: SheetFault) -> MonitorFault {
        MonitorFault::Sheet(fault)
    }
}

impl From<RowFault> for MonitorFault {
    ghost from_gives = { λ fault r. r ≡ Sheet (Row fault) };

    fn from(fault: RowFault) -> MonitorFault {
        MonitorFault::Sheet(fault.into())
    }
}

impl From<running::Cut> for MonitorFault {
    ghost from_gives = { λ fault r. r ≡ Cut fault.turns };

    fn from(fault: running::Cut) -> MonitorFault {
        MonitorFault::Cut { turns: fault.turns }
    }
}

// The window's lines tell a refusal by numbers, so these stand beside the variants.
impl MonitorFault {
    /// The number by which the refusal is told.
    pub fn number(self) -> u8
        ensures { result ≡ fault_number self }
    {
        match self {
            MonitorFault::HasRoster => 6,
            MonitorFault::Roster(fault) => fault.number(),
            MonitorFault::NoPerson => 10,
            MonitorFault::NoSlot => 11,
            MonitorFault::LayNotPermitted => 12,
            MonitorFault::ViewNotPermitted => 13,
            MonitorFault::Sheet(fault) => fault.number(),
            MonitorFault::Cut { .. } => 33,
        }
    }

    /// The row at fault, or the line of a roster; 0 where none is named.
    pub fn row(self) -> u16
        ensures { result ≡ fault_row self }
    {
        match self {
            MonitorFault::Roster(fault) => fault.line(),
            MonitorFault::Sheet(fault) => u16::from(fault.row()),
            _ => 0,
        }
    }

    /// The byte at fault, 0 where none is named.
    pub fn byte(self) -> u16
        ensures { result ≡ fault_byte self }
    {
        match self {
            MonitorFault::Roster(fault) => fault.byte(),
            MonitorFault::Sheet(fault) => u16::from(fault.byte()),
            _ => 0,
        }
    }

    /// The turns that a run was given that was cut, otherwise 0.
    pub fn count(self) -> u16
        ensures { result ≡ fault_count self }
    {
        match self {
            MonitorFault::Cut { turns } => turns,
            _ => 0,
        }
    }
}

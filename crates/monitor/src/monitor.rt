ghost use Rattle.std.specs.Prelude.{◌≡◌, Bool, false, Result};
ghost use Rattle.table.specs.Slots.{blank_table};
ghost use Rattle.roster.specs.Reading.{roster_of};
ghost use Rattle.monitor.specs.Rosters.{with_roster};

use crate::fault::MonitorFault;
use labels::Scheme;
use roster::read_roster;
use table::Table;

/// The box: a label scheme, and beside it the table of people and slots, which knows no scheme.
#[derive(Drop)]
pub struct Monitor<S> {
    pub(crate) scheme: S,
    pub(crate) table: Table,
    // No Option of the table: with no roster yet, calls answer by the blank table and need no path of their own.
    pub(crate) rostered: bool,
}

impl<S: Scheme> Monitor<S> {
    /// A box with nobody and nothing listed, and no roster yet.
    pub fn blank(scheme: S) -> Monitor<S>
        ensures { (result.scheme ≡ scheme) × ((result.table ≡ blank_table) × (result.rostered ≡ false)) }
    {
        Monitor {
            scheme,
            table: Table::blank(),
            rostered: false,
        }
    }

    /// Takes the roster, which lists the people and slots with their labels for good. Every slot then holds 0.
    /// A box has one roster. One that is refused changes nothing.
    pub fn roster(&mut self, text: &[u8]) -> Result<(), MonitorFault>
        ensures rostered { ◌≡◌ {A = Result (Unit {0}) MonitorFault × Table × Bool} (result, self.new.table, self.new.rostered) (with_roster self.old.rostered self.old.table (roster_of (S.Scheme.bits self.old.scheme) text.now)) }
        ensures kept { self.new.scheme ≡ self.old.scheme }
    {
        if self.rostered {
            return Err(MonitorFault::HasRoster);
        }
        self.table = read_roster(text, self.scheme.width())?;
        self.rostered = true;
        Ok(())
    }
}

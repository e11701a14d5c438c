// The public call: a sheet is run, and a cut run leaves the table as it was.
ghost use Rattle.std.specs.Prelude.{◌≡◌, ℕ, ◌≤◌, Ok, Result};
ghost use Rattle.sheets.specs.Contents.{rows_of};
ghost use Rattle.running.specs.Entry.{Run, ran};
ghost use Rattle.running.specs.Links.{outcome};

use crate::runner::{OutOfTurns, run_block};
use sheets::Sheet;
use table::{Slot, Table};

/// A run that was cut: a loop's guard held and none of the turns given was left.
#[derive(Clone, Copy, Debug, PartialEq, Eq)]
pub struct Cut {
    pub turns: u16,
}

/// Runs a sheet with at most so many turns. Answers how many were taken; a run that is cut puts every slot back.
pub fn run(sheet: &Sheet, table: &mut Table, turns: u16) -> Result<u16, Cut>
    ensures { Run (rows_of sheet.now) table.old turns result table.new }
{
    let before = table.slots;
    let ended = run_block(sheet, table, 0, sheet.rows.len(), turns);
    settle(table, before, turns, ended)
}

// What is answered once the rows are run, with the slots as they were before.
fn settle(
    table: &mut Table,
    before: [Slot; 64],
    turns: u16,
    ended: Result<u16, OutOfTurns>,
) -> Result<u16, Cut>
    requires { (left : ℕ) → ended ≡ Ok left → left ≤ turns }
    ensures { ◌≡◌ {A = Result ℕ Cut × Table} (result, table.new) (ran (outcome ended table.old.slots) (record { people = table.old.people; slots = before }) turns) }
{
    match ended {
        Ok(left) => Ok(turns - left),
        Err(OutOfTurns) => {
            table.slots = before;
            Err(Cut { turns })
        }
    }
}

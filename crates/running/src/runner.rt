// The block runner and the row runner, which call each other. Where a block ends is read from the sheet's jumps.
ghost use Rattle.std.specs.Prelude.{◌≡◌, ℕ, ◌<◌, slice_index_or};
ghost use Rattle.rows.specs.declared.row.Row.TheVariants.{Idle};
ghost use Rattle.sheets.specs.Contents.{rows_of};
ghost use Rattle.sheets.specs.Programs.{Block};
ghost use Rattle.running.specs.Running.{exec};
ghost use Rattle.running.specs.Links.{At, Linked, Stood, Begun, RowRan, branch_rows, outcome};

use crate::simple::{holds, run_simple};
use rows::Row;
use sheets::Sheet;
use table::Table;

// A loop's guard holds and no turn is left.
#[derive(Clone, Copy, Debug, PartialEq, Eq)]
pub(crate) struct OutOfTurns;

// Runs the rows from `from` up to `to`, where some block stands. Answers the turns left.
#[cycle(run_block_run_row)]
pub(crate) fn run_block(
    sheet: &Sheet,
    table: &mut Table,
    from: usize,
    to: usize,
    turns: u16,
) -> Result<u16, OutOfTurns>
    requires { Stood (rows_of sheet.now) sheet.now.jumps from to }
    ensures ran { (b : Block) → Linked (rows_of sheet.now) sheet.now.jumps from b to → outcome result table.new.slots ≡ exec b table.old.slots turns }
    ensures people { table.new.people ≡ table.old.people }
{
    let mut at = from;
    let mut left = turns;
    // No range to go through: each row says which one is next.
    while at < to {
        (at, left) = run_row(sheet, table, at, left)?;
    }
    Ok(left)
}

// Runs the row at `at`, with the block that it opens if it opens one. Answers the row to go on with and the turns left.
#[cycle(run_block_run_row)]
fn run_row(
    sheet: &Sheet,
    table: &mut Table,
    at: usize,
    turns: u16,
) -> Result<(usize, u16), OutOfTurns>
    requires here { At (rows_of sheet.now) at (slice_index_or (rows_of sheet.now) at Idle) }
    requires begun { Begun (rows_of sheet.now) sheet.now.jumps at }
    ensures ran { (b : Block) (to : ℕ) → Linked (rows_of sheet.now) sheet.now.jumps at b to → at < to → RowRan (rows_of sheet.now) sheet.now.jumps at b to table.old.slots turns result table.new.slots }
    ensures people { table.new.people ≡ table.old.people }
{
    let row = sheet.rows[at];
    match row {
        Row::If { guard } => {
            let mid = sheet.jumps[at] as usize;
            let end = sheet.jumps[mid] as usize;
            let (from, to) = branch_rows(holds(table, guard), at, mid, end);
            let rest = run_block(sheet, table, from, to, turns)?;
            Ok((end + 1, rest))
        }
        Row::While { guard } => {
            let end = sheet.jumps[at] as usize;
            let mut left = turns;
            while holds(table, guard) {
                if left == 0 {
                    return Err(OutOfTurns);
                }
                left = run_block(sheet, table, at + 1, end, left - 1)?;
            }
            Ok((end + 1, left))
        }
        _ => {
            run_simple(table, row);
            Ok((at + 1, turns))
        }
    }
}

// The rows that an if at `at` runs. Where it has no else, `mid` is its end, and without its guard no row is run.
fn branch_rows(guarded: bool, at: usize, mid: usize, end: usize) -> (usize, usize)
    requires { (at < 256) × (mid < 256) }
    ensures { result ≡ branch_rows guarded at mid end }
{
    if guarded {
        (at + 1, mid)
    } else if mid < end {
        (mid + 1, end)
    } else {
        (end, end)
    }
}

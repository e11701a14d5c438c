ghost use Rattle.std.specs.Prelude.{◌≡◌, ◌≤◌, length};
ghost use Rattle.table.specs.Slots.{label_at};
ghost use Rattle.sheets.specs.Contents.{rows_of};
ghost use Rattle.sheets.specs.Programs.{Block, listing};
ghost use Rattle.sheets.specs.Walk.{Program};
ghost use Rattle.judging.specs.Judging.{judged, fault_of};
ghost use Rattle.judging.specs.Theorems.{Judgement};

use crate::control::Control;
use crate::verdict::Judge;
use labels::Scheme;
use rows::{Row, RowFault};
use sheets::Sheet;
use table::Table;

/// Judges a sheet by the labels alone, before any row of it is run: the first row that does not pass is the fault, and there is none exactly
/// when the sheet has a derivation by the typing rules.
pub fn judge<S: Scheme>(
    scheme: &S,
    table: &Table,
    sheet: &Sheet,
    runner: u64,
) -> Result<(), RowFault>
    ensures { Judgement (S.Scheme.flows scheme.now) (S.Scheme.joins scheme.now) (label_at table.now.slots) runner (rows_of sheet.now) result }
{
    let judge = Judge {
        scheme,
        table,
        runner,
    };
    judge.block(sheet.rows.as_slice())
}

impl<S: Scheme> Judge<'_, S> {
    // Judges the rows of a block, one after the other.
    fn block(&self, rows: &[Row]) -> Result<(), RowFault>
        requires program { Program rows.now }
        requires few { length rows.now ≤ 256 }
        ensures { (b : Block) → listing b ≡ rows.now → fault_of result ≡ judged (S.Scheme.flows self.now.scheme.now) (S.Scheme.joins self.now.scheme.now) (label_at self.now.table.now.slots) self.now.runner b }
    {
        let mut control = Control::new(self.runner);
        for (i, row) in rows.iter().enumerate() {
            // Not by `map_err` and `?`: the proof of what is refused did not close.
            if let Err(reason) = self.verdict(control.label, *row) {
                return Err(RowFault {
                    row: i as u8,
                    reason,
                });
            }
            control.follow(self, *row);
        }
        Ok(())
    }
}

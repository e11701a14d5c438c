ghost use Rattle.std.specs.Prelude.{◌≡◌, ◌≤◌, true, [], length, IfOk, Ok, Err, MatchResult};
ghost use Rattle.std.specs.Simd.{first_chunks};
ghost use Rattle.table.specs.Slots.{listed};
ghost use Rattle.rows.specs.Reading.{read_row};
ghost use Rattle.rows.specs.Writing.{slots_of};
ghost use Rattle.sheets.specs.Contents.{rows_of};
ghost use Rattle.sheets.specs.Eights.{read_eights};
ghost use Rattle.sheets.specs.Jumps.{noted};
ghost use Rattle.sheets.specs.Meaning.{Means};
ghost use Rattle.sheets.specs.Reading.{in_range, row_count, read_sheet, Made};

use crate::fault::SheetFault;
use crate::sheet::Sheet;
use crate::walker::Walker;
use arrayvec::ArrayVec;
use rows::{Row, RowFault, read_row};
use table::{Slot, Table};

impl Sheet {
    /// Reads a sheet for this table, or gives the first fault of it.
    pub fn read(bytes: &[u8], table: &Table) -> Result<Sheet, SheetFault>
        ensures read { Made (read_sheet (listed table.now.slots) bytes.now) rows_of result }
        ensures means { Means (listed table.now.slots) bytes.now rows_of result }
    {
        let eights = in_eights(bytes)?;
        read_rows(eights, table)
    }
}

// The eight bytes of each row, where there are at most 256 rows and no byte is over.
fn in_eights(bytes: &[u8]) -> Result<&[[u8; 8]], SheetFault>
    ensures { MatchResult result
        (λ eights. (row_count (length bytes.now) ≡ Ok (length eights.now)) × (eights.now ≡ first_chunks 8 (length eights.now) bytes.now))
        (λ fault. row_count (length bytes.now) ≡ Err fault) }
{
    let (eights, rest) = bytes.as_chunks::<8>();
    if eights.len() <= 256 && rest.is_empty() {
        Ok(eights)
    } else {
        Err(SheetFault::Length)
    }
}

// Reads these rows. The walker refuses a row where it stands, and says which row's jump is to it.
fn read_rows(eights: &[[u8; 8]], table: &Table) -> Result<Sheet, SheetFault>
    requires { length eights.now ≤ 256 }
    ensures { Made (read_eights (listed table.now.slots) 0 eights.now []) rows_of result }
{
    let mut rows = ArrayVec::new();
    let mut jumps = [0u8; 256];
    let mut walker = Walker::new();
    for (i, eight) in eights.iter().enumerate() {
        let at = i as u8;
        let row = row_at(eight, at, table)?;
        let ended = walker.enter(row, at)?;
        note_jump(&mut jumps, at, ended);
        rows.push(row);
    }
    walker.finish()?;
    Ok(Sheet { rows, jumps })
}

// Reads the row `at`. Each slot that it names is one of the table's 64.
fn row_at(eight: &[u8; 8], at: u8, table: &Table) -> Result<Row, RowFault>
    ensures read { result ≡ read_row (listed table.now.slots) at eight.now }
    ensures bounded { IfOk result (λ row. in_range (slots_of row) ≡ true) }
{
    // Lent as a slice, the slots are known to be 64.
    let _slots: &[Slot] = &table.slots;
    read_row(*eight, at, table)
}

// The row `at` leads to itself, and the row that opened the branch that it ends, if it ends one, leads to it.
fn note_jump(jumps: &mut [u8; 256], at: u8, ended: Option<u8>)
    ensures { jumps.new ≡ noted jumps.old at ended }
{
    if let Some(begun) = ended {
        jumps[begun as usize] = at;
    }
    jumps[at as usize] = at;
}

// The reader.
ghost use Rattle.std.specs.Prelude.{◌≡◌, ◌≤◌, length, nat_lt};
ghost use Rattle.roster.specs.Reading.{lines_of, roster_of};
ghost use Rattle.roster.specs.Told.{Tells, Exact};

use crate::fault::{LineReason, RosterFault};
use crate::line::first_line;
use crate::listing::list;
use table::Table;

// The longest text that is read, in bytes.
const LONGEST: usize = 4096;

/// The table that a roster gives under labels of `width` bits, or the first fault in it.
pub fn read_roster(text: &[u8], width: u32) -> Result<Table, RosterFault>
    ensures value { result ≡ roster_of width text.now }
    ensures told { Tells width text.now result }
{
    if is_long(text) {
        return Err(RosterFault::TooLong);
    }
    read_lines(text, width)
}

fn is_long(text: &[u8]) -> bool
    ensures { result ≡ nat_lt 4096 (length text.now) }
{
    text.len() > LONGEST
}

// Takes one line after the other from the front, until nothing is left or one is at fault.
fn read_lines(text: &[u8], width: u32) -> Result<Table, RosterFault>
    requires { length text.now ≤ 4096 }
    ensures { result ≡ lines_of width text.now }
{
    let mut table = Table::blank();
    let mut line = 0;
    let mut left = text;
    // By `split_inclusive` each line would be gone through twice: once for its byte 10, and once for its form, which finds that byte too.
    while !left.is_empty() {
        let (entry, rest) = first_line(left).map_err(|byte| formless(line, byte))?;
        list(&mut table, entry, width).map_err(|reason| RosterFault::Line { line, reason })?;
        line += 1;
        left = rest;
    }
    Ok(table)
}

// A line that leaves the form at a byte.
fn formless(line: u16, byte: usize) -> RosterFault
    requires { byte ≤ 4096 }
    ensures { result ≡ RosterFault.Line line (LineReason.Form byte) }
{
    RosterFault::Line {
        line,
        reason: LineReason::Form { byte: byte as u16 },
    }
}

/// The theorem that ties what is read to how rosters are spelled and to what entries list.
pub fn reading_stands()
    ensures { Exact }
{}

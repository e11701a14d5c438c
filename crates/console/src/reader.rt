// What a call line asks for.
ghost use Rattle.std.specs.Prelude.{◌≡◌, [], Some, None, MatchOption};
ghost use Rattle.std.specs.Option.{option_map};
ghost use Rattle.monitor.specs.Calls.{call_of};
ghost use Rattle.console.specs.Clipping.{clipped};
ghost use Rattle.console.specs.Reading.{lay_in, view_in, run_fields, run_in, call_in, ReadingStands};

use crate::digits::{SHEET_AND_ONE, decode_sheet};
use crate::fields::{byte_field, turns_field, value_field};
use arrayvec::ArrayVec;
use monitor::Call;
use numerals::cut_at;

/// Reads call lines, one after the other. It has room for the bytes of a sheet; what an earlier line left there is in no answer.
#[derive(Drop)]
pub struct CallReader {
    sheet: ArrayVec<u8, SHEET_AND_ONE>,
}

impl CallReader {
    /// A reader that has read nothing.
    pub fn new() -> CallReader
        ensures { result.sheet.items ≡ [] }
    {
        CallReader {
            sheet: ArrayVec::new(),
        }
    }

    /// The call that a line spells, if it spells one. Of a sheet of more than 2,049 bytes the first 2,049 are kept.
    pub fn read(&mut self, line: &[u8]) -> Option<Call<'_>>
        ensures { option_map call_of result ≡ option_map (clipped 2049) (call_in line.now) }
    {
        // On its own, since only this call borrows the reader's sheet.
        if let [b'R', b',', text @ ..] = line {
            return read_run(text, &mut self.sheet);
        }
        match line {
            [b'L', b',', text @ ..] => read_lay(text),
            [b'V', b',', text @ ..] => read_view(text),
            _ => None,
        }
    }
}

fn read_lay<'a>(text: &[u8]) -> Option<Call<'a>>
    ensures { option_map call_of result ≡ lay_in text.now }
{
    let (person, rest) = cut_at(text, b',')?;
    let (slot, value) = cut_at(rest, b',')?;
    Some(Call::Lay {
        person: byte_field(person)?,
        slot: byte_field(slot)?,
        value: value_field(value)?,
    })
}

fn read_view<'a>(text: &[u8]) -> Option<Call<'a>>
    ensures { option_map call_of result ≡ view_in text.now }
{
    let (person, slot) = cut_at(text, b',')?;
    Some(Call::View {
        person: byte_field(person)?,
        slot: byte_field(slot)?,
    })
}

fn read_run<'a>(text: &[u8], sheet: &'a mut ArrayVec<u8, SHEET_AND_ONE>) -> Option<Call<'a>>
    ensures { option_map call_of result ≡ option_map (clipped 2049) (run_in text.now) }
{
    let (person, turns, digits) = run_fields(text)?;
    decode_sheet(digits, sheet)?;
    Some(Call::Run {
        person,
        sheet: sheet.as_slice(),
        turns,
    })
}

// The person and the turns of a run, and its sheet as it is written.
fn run_fields(text: &[u8]) -> Option<(u8, u16, &[u8])>
    ensures { MatchOption result (run_fields text.now ≡ None) (λ f. run_fields text.now ≡ Some (f.0, f.1, f.2.now)) }
{
    let (person, rest) = cut_at(text, b',')?;
    let (turns, digits) = cut_at(rest, b',')?;
    Some((byte_field(person)?, turns_field(turns)?, digits))
}

/// The theorem that ties what is read of a line to how calls are spelled.
pub fn reading_stands()
    ensures { ReadingStands }
{}

// A line taken apart.
ghost use Rattle.std.specs.Prelude.{◌≡◌, ℕ, MatchResult};
ghost use Rattle.numerals.specs.Decimal.{written};
ghost use Rattle.roster.specs.Spelling.{Entry, FaultAt};
ghost use Rattle.roster.specs.Parts.{two, TwoNumbers, unended, Whole, Parted, Begins};

use crate::place::{Place, Step};
use numerals::cut_at;

// What a line lists, with its two numbers as they stand in the text. An enum and no struct with a kind, so that the letter and the
// numbers are taken out of a line in one `match`.
#[derive(Clone, Copy)]
pub(crate) enum RosterLine<'a> {
    Person { number: &'a [u8], label: &'a [u8] },
    Slot { number: &'a [u8], label: &'a [u8] },
}

impl<'a> RosterLine<'a> {
    // The parts of a line of the form, which is passed without its byte 10.
    fn of(line: &'a [u8]) -> RosterLine<'a>
        requires { Whole line.now }
        ensures { (e : Entry) → line.now ≡ unended e → Parted result e }
    {
        match line {
            [b'P', b',', rest @ ..] => {
                let (number, label) = fields(rest);
                RosterLine::Person { number, label }
            }
            [b'S', b',', rest @ ..] => {
                let (number, label) = fields(rest);
                RosterLine::Slot { number, label }
            }
            _ => unreachable(),
        }
    }
}

// Two numbers with a comma between them.
fn fields(rest: &[u8]) -> (&[u8], &[u8])
    requires { TwoNumbers rest.now }
    ensures { (n m : ℕ) → rest.now ≡ two n m → (result.0.now ≡ written n) × (result.1.now ≡ written m) }
{
    cut_at(rest, b',').unwrap()
}

// The first line of a text and what comes after it, or the offset of the first byte that no line of the form has there.
pub(crate) fn first_line(text: &[u8]) -> Result<(RosterLine, &[u8]), usize>
    ensures { MatchResult result (λ found. Begins text.now found.0 found.1.now) (λ offset. FaultAt text.now offset) }
{
    let mut place = Place::Start;
    for (i, byte) in text.iter().enumerate() {
        match place.after(*byte) {
            Step::Never => return Err(i),
            Step::On(next) => place = next,
            Step::Whole => return Ok((RosterLine::of(&text[..i]), &text[i + 1..])),
        }
    }
    Err(text.len())
}

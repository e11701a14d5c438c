// Lines listed in the table.
ghost use Rattle.std.specs.Prelude.{◌≡◌, ℕ, nat_lt};
ghost use Rattle.numerals.specs.Numerals.{held};
ghost use Rattle.numerals.specs.Decimal.{written};
ghost use Rattle.roster.specs.Spelling.{Entry};
ghost use Rattle.roster.specs.Reading.{label_limit};
ghost use Rattle.roster.specs.Parts.{Parted, in_range, in_width, Kept, kind_of, entry_of};

use crate::fault::LineReason;
use crate::kind::Kind;
use crate::line::RosterLine;
use numerals::number;
use table::Table;

// Lists what a line says, or says what is at fault in it and changes nothing.
pub(crate) fn list(table: &mut Table, line: RosterLine, width: u32) -> Result<(), LineReason>
    ensures { (e : Entry) → Parted line.entry e → Kept width e table.old result table.new }
{
    match line {
        RosterLine::Person { number, label } => {
            list_one(table, Kind::Person, number, label, width)
        }
        RosterLine::Slot { number, label } => list_one(table, Kind::Slot, number, label, width),
    }
}

// Lists a person or a slot, likewise.
fn list_one(
    table: &mut Table,
    kind: Kind,
    number: &[u8],
    label: &[u8],
    width: u32,
) -> Result<(), LineReason>
    ensures { (n m : ℕ) → number.now ≡ written n → label.now ≡ written m → Kept width (entry_of (kind_of kind) n m) table.old result table.new }
{
    let number = number_below(kind.count(), number)?;
    if kind.is_listed(table, number) {
        return Err(LineReason::ListedBefore);
    }
    let label = label_within(width, label)?;
    kind.list(table, number, label);
    Ok(())
}

// The number of a person or a slot, of which there are `count`.
fn number_below(count: u8, field: &[u8]) -> Result<u8, LineReason>
    ensures { (n : ℕ) → field.now ≡ written n → result ≡ in_range count n }
{
    value(field)
        .filter(|number| *number < u64::from(count))
        .map(|number| number as u8)
        .ok_or(LineReason::Number)
}

// A label of at most `width` bits.
fn label_within(width: u32, field: &[u8]) -> Result<u64, LineReason>
    ensures { (n : ℕ) → field.now ≡ written n → result ≡ in_width width n }
{
    value(field)
        .filter(|label| fits(width, *label))
        .ok_or(LineReason::Label)
}

// Whether a label is below 2^width. Every label is where that is past 64 bits.
fn fits(width: u32, label: u64) -> bool
    ensures { result ≡ nat_lt label (label_limit width) }
{
    2u64.checked_pow(width).is_none_or(|limit| label < limit)
}

// The number that a field is, if it is below 2^64.
fn value(field: &[u8]) -> Option<u64>
    ensures { (n : ℕ) → field.now ≡ written n → result ≡ held n }
{
    number(field).ok()
}

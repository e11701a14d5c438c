// The statements with no block in them. The slots that a row names are known to be in the table, so no access is tested.
ghost use Rattle.std.specs.Prelude.{◌≡◌, ◌<◌, true};
ghost use Rattle.table.specs.Slots.{value_at, put};
ghost use Rattle.rows.specs.Writing.{slots_of};
ghost use Rattle.sheets.specs.Reading.{in_range};
ghost use Rattle.running.specs.Running.{do_simple, holds};
ghost use Rattle.running.specs.Links.{simple_of};

use rows::Row;
use table::Table;

// The value of a slot. Not by `Table::value` and `Table::put`, which test the slot's number: with them a long run takes 1.4 times
// as long.
fn value_of(table: &Table, slot: u8) -> i32
    requires { slot < 64 }
    ensures { result ≡ value_at table.now.slots slot }
{
    table.slots[slot as usize].value
}

// Puts a value into a slot.
fn put(table: &mut Table, slot: u8, value: i32)
    requires { slot < 64 }
    ensures slots { table.new.slots ≡ put table.old.slots slot value }
    ensures people { table.new.people ≡ table.old.people }
{
    table.slots[slot as usize].value = value;
}

// Whether a guard holds: its slot's value is not 0.
pub(crate) fn holds(table: &Table, guard: u8) -> bool
    requires { guard < 64 }
    ensures { result ≡ holds guard table.now.slots }
{
    value_of(table, guard) != 0
}

// Runs a row that opens and closes nothing. Any other row is left alone.
pub(crate) fn run_simple(table: &mut Table, row: Row)
    requires { in_range (slots_of row) ≡ true }
    ensures slots { table.new.slots ≡ do_simple (simple_of row) table.old.slots }
    ensures people { table.new.people ≡ table.old.people }
{
    match row {
        Row::PutConstant { target, constant } => put(table, target, constant),
        Row::SlotWithConstant {
            operation,
            target,
            first,
            constant,
        } => {
            let value = operation.apply(value_of(table, first), constant);
            put(table, target, value);
        }
        Row::TwoSlots {
            operation,
            target,
            first,
            second,
        } => {
            let value = operation.apply(value_of(table, first), value_of(table, second));
            put(table, target, value);
        }
        Row::Idle | Row::If { .. } | Row::Else | Row::While { .. } | Row::End => {}
    }
}

ghost use Rattle.std.specs.Prelude.{◌≡◌, IfOk};
ghost use Rattle.std.specs.Result.{result_err};
ghost use Rattle.table.specs.Slots.{listed};
ghost use Rattle.rows.specs.Kinds.{kind_number};
ghost use Rattle.rows.specs.Reading.{byte_at, complaints, constant_at, first, operation_complaints, read_row, row_from};
ghost use Rattle.rows.specs.Refusing.{RowsAreRefused};
ghost use Rattle.rows.specs.Writing.{RowsAreRead};

use crate::complaint::check_bytes;
use crate::fault::{RowFault, RowReason};
use crate::kind::RowKind;
use crate::row::Row;
use operations::Operation;
use table::Table;

/// Reads the eight bytes of a row, given its number in the sheet and the table that the sheet is for.
pub fn read_row(bytes: [u8; 8], row: u8, table: &Table) -> Result<Row, RowFault>
    ensures { result ≡ read_row (listed table.now.slots) row bytes }
{
    row_from(bytes, table).map_err(|reason| RowFault { row, reason })
}

// The row that the bytes stand for, or what first speaks against them: the kind, the operation, a slot, an unused byte.
fn row_from(bytes: [u8; 8], table: &Table) -> Result<Row, RowReason>
    ensures read { IfOk result (λ row. row ≡ row_from bytes) }
    ensures refused { result_err result ≡ first (complaints (listed table.now.slots) bytes) }
{
    let kind = RowKind::try_from(bytes[0])?;
    let row = row_of_kind(kind, bytes)?;
    check_bytes(kind, bytes, table)?;
    Ok(row)
}

// The row of a kind, as the bytes give its parts. Slots are not looked at, an operation has to be one of the eight.
fn row_of_kind(kind: RowKind, bytes: [u8; 8]) -> Result<Row, RowReason>
    requires { kind_number kind ≡ byte_at bytes 0 }
    ensures read { IfOk result (λ row. row ≡ row_from bytes) }
    ensures refused { result_err result ≡ first (operation_complaints bytes) }
{
    let constant = constant_at(bytes);
    let [_, operation, target, slot, .., second] = bytes;
    Ok(match kind {
        RowKind::Idle => Row::Idle,
        RowKind::PutConstant => Row::PutConstant { target, constant },
        RowKind::SlotWithConstant => Row::SlotWithConstant {
            operation: Operation::try_from(operation)?,
            target,
            first: slot,
            constant,
        },
        RowKind::TwoSlots => Row::TwoSlots {
            operation: Operation::try_from(operation)?,
            target,
            first: slot,
            second,
        },
        RowKind::If => Row::If { guard: slot },
        RowKind::Else => Row::Else,
        RowKind::While => Row::While { guard: slot },
        RowKind::End => Row::End,
    })
}

fn constant_at(bytes: [u8; 8]) -> i32
    ensures { result ≡ constant_at bytes }
{
    i32::from_be_bytes([bytes[4], bytes[5], bytes[6], bytes[7]])
}

/// Eight bytes are read as a row exactly if they write it, for this table.
pub fn rows_are_read()
    ensures { RowsAreRead }
{}

/// Bytes with a fault are refused, and of several faults the first in order is given.
pub fn rows_are_refused()
    ensures { RowsAreRefused }
{}

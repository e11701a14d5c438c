//! The second part of the task: a sheet is read, told in words, and judged for two people.
use crate::station::{COMPARING, LEAKING, MARKS, PEOPLE, Person, mark_in};
use judging::judge;
use labels::Scheme;
use operations::Operation;
use rows::{Row, RowReason};
use sheets::Sheet;
use std::io;
use table::Table;

pub(crate) fn tell<S: Scheme>(rt: &HostRuntime, scheme: &S) -> io::Result<()> {
    let mut table = Table::blank();
    for mark in MARKS {
        table.list_slot(mark.slot, mark.label);
    }
    println!(rt; "A sheet compares the engraving with those that two travellers named:")?;
    tell_sheet(rt, &COMPARING, &table)?;
    tell_verdict(rt, scheme, &table, &COMPARING, &PEOPLE[1])?;
    tell_verdict(rt, scheme, &table, &COMPARING, &PEOPLE[4])?;
    println!(rt; "Another sheet would tell the counter what the engraving is:")?;
    tell_sheet(rt, &LEAKING, &table)?;
    tell_verdict(rt, scheme, &table, &LEAKING, &PEOPLE[1])
}

// What each row of a sheet does.
fn tell_sheet(rt: &HostRuntime, bytes: &[u8], table: &Table) -> io::Result<()> {
    match Sheet::read(bytes, table) {
        Ok(sheet) => {
            for (i, row) in sheet.rows.as_slice().iter().enumerate() {
                tell_row(rt, i, *row)?;
            }
            Ok(())
        }
        Err(fault) => {
            let number = fault.number();
            let row = fault.row();
            println!(rt; "  it cannot be read: fault {number} at row {row}")
        }
    }
}

fn tell_row(rt: &HostRuntime, i: usize, row: Row) -> io::Result<()> {
    match row {
        Row::Idle => println!(rt; "  row {i}: nothing"),
        Row::PutConstant { target, constant } => println!(rt;
            "  row {i}: {} becomes {constant}",
            mark_in(target)
        ),
        Row::SlotWithConstant {
            operation,
            target,
            first,
            constant,
        } => {
            println!(rt;
                "  row {i}: {} becomes the {} of {} and {constant}",
                mark_in(target),
                name(operation),
                mark_in(first)
            )
        }
        Row::TwoSlots {
            operation,
            target,
            first,
            second,
        } => {
            println!(rt;
                "  row {i}: {} becomes the {} of {} and {}",
                mark_in(target),
                name(operation),
                mark_in(first),
                mark_in(second)
            )
        }
        Row::If { guard } => println!(rt; "  row {i}: if {} is not 0", mark_in(guard)),
        Row::Else => println!(rt; "  row {i}: otherwise"),
        Row::While { guard } => println!(rt; "  row {i}: while {} is not 0", mark_in(guard)),
        Row::End => println!(rt; "  row {i}: end"),
    }
}

// The words are this program's, so they are no `Display` of the crate that has the operations.
fn name(operation: Operation) -> &'static str {
    match operation {
        Operation::Sum => "sum",
        Operation::Difference => "difference",
        Operation::Product => "product",
        Operation::Share => "share",
        Operation::Equal => "equality",
        Operation::Less => "order",
        Operation::Differing => "count of differing bits",
        Operation::Lesser => "lesser",
    }
}

// The verdict on a sheet for one person, and the reason of a refusal.
fn tell_verdict<S: Scheme>(
    rt: &HostRuntime,
    scheme: &S,
    table: &Table,
    bytes: &[u8],
    person: &Person,
) -> io::Result<()> {
    let Ok(sheet) = Sheet::read(bytes, table) else {
        return Ok(());
    };
    match judge(scheme, table, &sheet, person.label) {
        Ok(()) => println!(rt; "For {} it passes.", person.name),
        Err(fault) => {
            let number = fault.reason.number();
            let row = fault.row;
            println!(rt;
                "For {} it is refused: fault {number} at row {row}, {}.",
                person.name,
                reason(fault.reason)
            )
        }
    }
}

// Likewise words of this program: two reasons are told, all that a judge gives of a sheet read with the same table.
fn reason(reason: RowReason) -> &'static str {
    match reason {
        RowReason::SetNotPassed => "for what is set there lies below what the row depends on",
        RowReason::WhileNotPassed => "for the turns of the loop would tell the runner too much",
        _ => "for the row is not of the form",
    }
}

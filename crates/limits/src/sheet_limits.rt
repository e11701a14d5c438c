//! Calls and sheets at the limits, in one box: persons 0 and 15, slots 0, 1 and 63.
use crate::{Scheme, show};
use arrayvec::ArrayVec;
use monitor::Monitor;
use std::io;

const ROSTER: &[u8] = b"P,0,0\nP,15,31\nS,0,0\nS,1,9\nS,63,31\n";

const IDLE: [u8; 8] = [0, 0, 0, 0, 0, 0, 0, 0];

const IF_0: [u8; 8] = [4, 0, 0, 0, 0, 0, 0, 0];

const ELSE: [u8; 8] = [5, 0, 0, 0, 0, 0, 0, 0];

const WHILE_0: [u8; 8] = [6, 0, 0, 0, 0, 0, 0, 0];

const END: [u8; 8] = [7, 0, 0, 0, 0, 0, 0, 0];

const PUT_0: [u8; 8] = [1, 0, 0, 0, 0, 0, 0, 1];

// Room for the longest sheet and one row more.
const ROOM: usize = 2056;

// The bytes of rows, each so many times, as far as there is room. No heap, so that this program needs none either.
fn sheet(rows: &[(usize, [u8; 8])]) -> ArrayVec<u8, ROOM> {
    let mut bytes = ArrayVec::new();
    for (times, row) in rows {
        for _ in 0..*times {
            let _ = bytes.try_extend_from_slice(row);
        }
    }
    bytes
}

// Runs the sheet of these rows for person 0.
fn run(
    rt: &HostRuntime,
    monitor: &mut Monitor<Scheme>,
    what: &str,
    rows: &[(usize, [u8; 8])],
    turns: u16,
) -> io::Result<()> {
    let bytes = sheet(rows);
    show(rt, what, monitor.run(0, bytes.as_slice(), turns))
}

pub(crate) fn tell(rt: &HostRuntime, monitor: &mut Monitor<Scheme>) -> io::Result<()> {
    show(rt, "a call before the roster", monitor.view(0, 0))?;
    show(rt, "the roster", monitor.roster(ROSTER))?;
    calls(rt, monitor)?;
    lengths(rt, monitor)?;
    rows(rt, monitor)?;
    blocks(rt, monitor)?;
    judged(rt, monitor)?;
    turns(rt, monitor)
}

fn calls(rt: &HostRuntime, monitor: &mut Monitor<Scheme>) -> io::Result<()> {
    show(rt, "person 15 views slot 63", monitor.view(15, 63))?;
    show(rt, "person 16 views slot 63", monitor.view(16, 63))?;
    show(rt, "person 255 runs nothing", monitor.run(255, b"", 0))?;
    show(rt, "person 15 views slot 64", monitor.view(15, 64))?;
    show(rt, "person 16 views slot 64", monitor.view(16, 64))?;
    show(
        rt,
        "person 0 lays into slot 63",
        monitor.lay(0, 63, i32::MIN),
    )?;
    show(rt, "person 15 views slot 63 again", monitor.view(15, 63))?;
    show(rt, "person 0 lays into slot 2", monitor.lay(0, 2, 1))?;
    show(rt, "person 15 lays into slot 0", monitor.lay(15, 0, 1))?;
    show(rt, "person 0 views slot 63", monitor.view(0, 63))
}

fn lengths(rt: &HostRuntime, monitor: &mut Monitor<Scheme>) -> io::Result<()> {
    run(rt, monitor, "the empty sheet", &[], 0)?;
    run(rt, monitor, "256 rows", &[(256, IDLE)], 0)?;
    run(rt, monitor, "257 rows", &[(257, IDLE)], 0)?;
    show(rt, "7 bytes", monitor.run(0, &[0; 7], 0))
}

fn rows(rt: &HostRuntime, monitor: &mut Monitor<Scheme>) -> io::Result<()> {
    run(
        rt,
        monitor,
        "kind 8",
        &[(2, IDLE), (1, [8, 0, 0, 0, 0, 0, 0, 0])],
        0,
    )?;
    run(
        rt,
        monitor,
        "operation 7",
        &[(1, IDLE), (1, [3, 7, 63, 0, 0, 0, 0, 1])],
        0,
    )?;
    run(
        rt,
        monitor,
        "operation 8",
        &[(1, IDLE), (1, [3, 8, 2, 0, 0, 0, 0, 1])],
        0,
    )?;
    run(
        rt,
        monitor,
        "target 64",
        &[(1, [3, 0, 64, 2, 1, 0, 0, 2])],
        0,
    )?;
    run(rt, monitor, "first 2", &[(1, [3, 0, 63, 2, 1, 0, 0, 2])], 0)?;
    run(
        rt,
        monitor,
        "second 2",
        &[(1, [3, 0, 63, 0, 1, 0, 0, 2])],
        0,
    )?;
    run(
        rt,
        monitor,
        "bytes 5 and 6 of two slots",
        &[(1, [3, 0, 63, 0, 0, 1, 1, 1])],
        0,
    )?;
    run(
        rt,
        monitor,
        "byte 7 of an idle row",
        &[(1, [0, 0, 0, 0, 0, 0, 0, 1])],
        0,
    )
}

fn blocks(rt: &HostRuntime, monitor: &mut Monitor<Scheme>) -> io::Result<()> {
    run(rt, monitor, "16 open blocks", &[(16, IF_0), (16, END)], 0)?;
    run(rt, monitor, "17 open blocks", &[(17, IF_0), (17, END)], 0)?;
    run(rt, monitor, "else with nothing open", &[(1, ELSE)], 0)?;
    run(
        rt,
        monitor,
        "else in a while",
        &[(1, WHILE_0), (1, ELSE)],
        0,
    )?;
    run(rt, monitor, "a second else", &[(1, IF_0), (2, ELSE)], 0)?;
    run(
        rt,
        monitor,
        "end with nothing open",
        &[(1, IDLE), (1, END)],
        0,
    )?;
    run(
        rt,
        monitor,
        "two blocks still open",
        &[(1, IF_0), (1, IF_0), (1, ELSE)],
        0,
    )
}

fn judged(rt: &HostRuntime, monitor: &mut Monitor<Scheme>) -> io::Result<()> {
    run(
        rt,
        monitor,
        "slot 1 becomes slot 0 + 7",
        &[(1, [2, 0, 1, 0, 0, 0, 0, 7])],
        0,
    )?;
    run(
        rt,
        monitor,
        "slot 0 becomes slot 1 + 7",
        &[(1, [2, 0, 0, 1, 0, 0, 0, 7])],
        0,
    )?;
    run(
        rt,
        monitor,
        "slot 0 set in an else on slot 1",
        &[
            (1, [4, 0, 0, 1, 0, 0, 0, 0]),
            (1, ELSE),
            (1, PUT_0),
            (1, END),
        ],
        0,
    )?;
    run(
        rt,
        monitor,
        "while slot 1",
        &[(1, IDLE), (1, [6, 0, 0, 1, 0, 0, 0, 0]), (1, END)],
        0,
    )?;
    show(rt, "person 15 sets slot 0", monitor.run(15, &PUT_0, 0))
}

fn turns(rt: &HostRuntime, monitor: &mut Monitor<Scheme>) -> io::Result<()> {
    run(
        rt,
        monitor,
        "one round with one turn",
        &[
            (1, PUT_0),
            (1, WHILE_0),
            (1, [2, 1, 0, 0, 0, 0, 0, 1]),
            (1, END),
        ],
        1,
    )?;
    run(
        rt,
        monitor,
        "one round with no turn",
        &[
            (1, PUT_0),
            (1, WHILE_0),
            (1, [2, 1, 0, 0, 0, 0, 0, 1]),
            (1, END),
        ],
        0,
    )?;
    run(
        rt,
        monitor,
        "an endless loop with 65,535 turns",
        &[(1, PUT_0), (1, WHILE_0), (1, END)],
        65535,
    )?;
    match monitor.view(0, 0) {
        Ok(value) => println!(rt; "slot 0 after the cut: {value}"),
        Err(_) => Ok(()),
    }
}

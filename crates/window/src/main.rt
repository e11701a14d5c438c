//! The window: reads a roster and calls from standard input, and prints what is answered.
#![tactic(auto)]

use console::respond;
use std::io;
use std::io::{Read, Write};

// The most bytes that are read. What stands after them is left where it is.
const MOST: u64 = 65_536;

fn main(rt: HostRuntime) -> io::Result<()> {
    let mut input = Vec::new(rt.alloc());
    let _ = rt.stdin().take(MOST).read_to_end(&mut input)?;
    let printed = respond(rt.alloc(), input.as_slice())?;
    rt.stdout().write_all(printed.as_bytes())
}

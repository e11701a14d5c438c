//! Runs the box at its limits, and prints what it answers: every fault number of the box at least once, mostly beside a near case that is accepted.
//! A line is what was tried, and then number, row (or line), byte and value. Number 0 is a call that was carried out, and the value is what was
//! viewed, the turns that were taken, or the count of a cut.
#![tactic(auto)]

mod roster_limits;
mod sheet_limits;

use anyhow::anyhow;
use labels::{Ladder, Pair, SchemeFault, Topics};
use monitor::{Answer, Monitor, Reply};
use std::io;

/// Three topics (low) and a ladder of four levels (high), as at the window, whose crate this program does not need.
pub(crate) type Scheme = Pair<Topics, Ladder>;

pub(crate) fn blank() -> Result<Monitor<Scheme>, SchemeFault> {
    Ok(Monitor::blank(Pair::new(Topics::new(3)?, Ladder::new(4)?)))
}

pub(crate) fn show<A: Into<Answer>>(rt: &HostRuntime, what: &str, outcome: A) -> io::Result<()> {
    let reply = Reply::from(outcome.into());
    println!(rt; "{what}: {reply}")
}

fn sizes(rt: &HostRuntime) -> io::Result<()> {
    for levels in [0, 1, 256, 257] {
        match Ladder::new(levels) {
            Ok(_) => println!(rt; "a ladder of {levels}: 0")?,
            Err(fault) => {
                let number = fault.number();
                println!(rt; "a ladder of {levels}: {number}")?
            }
        }
    }
    Ok(())
}

fn tell(rt: &HostRuntime) -> anyhow::Result<()> {
    sizes(rt)?;
    let Ok(mut rostered) = blank() else {
        return Err(anyhow!("the scheme cannot be built"));
    };
    roster_limits::tell(rt)?;
    sheet_limits::tell(rt, &mut rostered)?;
    Ok(())
}

fn main(rt: HostRuntime) -> anyhow::Result<()> {
    tell(&rt)
}

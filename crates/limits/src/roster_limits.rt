//! Rosters at the limits. Each is given to a blank box.
use crate::{blank, show};
use std::io;

fn try_roster(rt: &HostRuntime, what: &str, text: &[u8]) -> io::Result<()> {
    match blank() {
        Ok(mut monitor) => show(rt, what, monitor.roster(text)),
        Err(_) => Ok(()),
    }
}

pub(crate) fn tell(rt: &HostRuntime) -> io::Result<()> {
    try_roster(rt, "the empty roster", b"")?;
    twice(rt)?;
    try_roster(rt, "4,096 bytes", &[b'P'; 4096])?;
    try_roster(rt, "4,097 bytes", &[b'P'; 4097])?;
    form(rt)?;
    numbers(rt)
}

fn twice(rt: &HostRuntime) -> io::Result<()> {
    match blank() {
        Ok(mut monitor) => {
            show(rt, "a first roster", monitor.roster(b""))?;
            show(rt, "a second roster", monitor.roster(b"P,0,0\n"))
        }
        Err(_) => Ok(()),
    }
}

fn form(rt: &HostRuntime) -> io::Result<()> {
    try_roster(rt, "another letter", b"X,0,0\n")?;
    try_roster(rt, "an empty line", b"P,0,0\n\n")?;
    try_roster(rt, "a number beginning with 0", b"P,0,0\nS,00,0\n")?;
    try_roster(rt, "a field too few", b"P,0\n")?;
    try_roster(rt, "a field too many", b"P,0,0,0\n")?;
    try_roster(rt, "no end of line", b"P,0,0")?;
    try_roster(rt, "a sign", b"P,-1,0\n")
}

fn numbers(rt: &HostRuntime) -> io::Result<()> {
    try_roster(rt, "person 15", b"P,15,0\n")?;
    try_roster(rt, "person 16", b"P,16,0\n")?;
    try_roster(rt, "slot 63", b"S,63,0\n")?;
    try_roster(rt, "slot 64", b"S,64,0\n")?;
    try_roster(rt, "a person past 64 bits", b"P,99999999999999999999,0\n")?;
    try_roster(rt, "a person twice", b"P,0,0\nS,0,0\nP,0,1\n")?;
    try_roster(rt, "a slot twice", b"S,0,0\nP,0,0\nS,0,0\n")?;
    try_roster(rt, "label 2047", b"S,0,2047\n")?;
    try_roster(rt, "label 2048", b"S,0,2048\n")?;
    try_roster(rt, "a label past 64 bits", b"S,0,18446744073709551616\n")
}

use console::{respond, respond_into};
use std::alloc::Global;
use std::test::Fail;

const ROSTER_AND_CALLS: &[u8] =
    b"P,0,0\nP,1,9\nS,0,0\nS,1,9\nL,1,1,42\nV,0,1\nV,1,1\nR,0,5,0200000100000000\nR,0,5,0200010000000007\nV,1,1\nL,1,0,1\n";

const ANSWERS: &[u8] = b"0,0,0,0\n13,0,0,0\n0,0,0,42\n31,0,0,0\n0,0,0,0\n0,0,0,7\n12,0,0,0\n";

// Whether this is printed for an input, as a text and into a buffer. Every test's input is under 200 bytes.
fn prints(alloc: Global, input: &[u8], expected: &[u8]) -> Result<bool, Fail> {
    let printed = respond(alloc, input)?;
    let mut out = [0u8; 1830];
    let Some(length) = respond_into(input, &mut out) else {
        return Ok(false);
    };
    Ok(printed.as_bytes() == expected && &out[0..length] == expected)
}

#[test]
fn a_roster_and_seven_calls(rt: HostRuntime) -> Result<(), Fail> {
    assert!(rt; prints(rt.alloc(), ROSTER_AND_CALLS, ANSWERS)?);
    Ok(())
}

#[test]
fn nothing_for_nothing(rt: HostRuntime) -> Result<(), Fail> {
    assert!(rt; prints(rt.alloc(), b"", b"")?);
    Ok(())
}

#[test]
fn a_refused_roster_ends_all(rt: HostRuntime) -> Result<(), Fail> {
    assert!(rt; prints(rt.alloc(), b"P,0,0\nP,0,0\nV,0,0\n", b"4,1,0,0\n")?);
    Ok(())
}

#[test]
fn an_unended_roster_line_is_part_of_the_roster(rt: HostRuntime) -> Result<(), Fail> {
    assert!(rt; prints(rt.alloc(), b"P,0,0\nS,1,9", b"2,1,5,0\n")?);
    Ok(())
}

#[test]
fn an_unended_call_line_is_faulty(rt: HostRuntime) -> Result<(), Fail> {
    assert!(rt;
        prints(
            rt.alloc(),
            b"P,0,0\nS,0,0\nV,0,0\nV,0,0",
            b"0,0,0,0\n14,0,0,0\n"
        )?
    );
    Ok(())
}

#[test]
fn a_roster_line_after_a_call_is_faulty(rt: HostRuntime) -> Result<(), Fail> {
    assert!(rt;
        prints(
            rt.alloc(),
            b"V,0,0\nP,0,0\nS,",
            b"10,0,0,0\n14,0,0,0\n14,0,0,0\n"
        )?
    );
    Ok(())
}

//! The window's box as a static library, for programs in Rust or C: two functions on byte slices.
//!
//! A box itself cannot be handed to C, since it holds enums. So one call takes a roster and a list of calls as text, plays them at a new box and gives
//! all answers as text, as the window program does.
#![tactic(auto)]

ghost use Rattle.std.specs.Prelude.{◌≡◌, ℕ, Bool, List};
ghost use Rattle.console.specs.Console.{printed};
ghost use Rattle.console.specs.Lines.{read_of};
ghost use Rattle.console.specs.Scheme.{window_flows, window_joins};
ghost use Rattle.console.specs.Struck.{LeavesNoTrace};
ghost use Rattle.console.specs.Writing.{room_for, placed};
ghost use Rattle.tavumxa.specs.Handed.{handed};

/// How many bytes the buffer for the answers to an input must have.
#[unsafe(no_mangle)]
pub extern "C" fn tavumxa_room_for(input: &[u8]) -> usize
    ensures { result ≡ room_for (read_of input.now) }
{
    console::room_for(input)
}

/// Plays an input, a roster and call lines, at a new box, and writes the answers into a buffer. Answers whether there was room for them, and how
/// long they are by `size`; without room nothing is written and `size` stays. C has no `Option`: the flag and the number beside it stand for one.
#[unsafe(no_mangle)]
pub extern "C" fn tavumxa_respond(input: &[u8], out: &mut [u8], size: &mut usize) -> bool
    ensures printed { ◌≡◌ {A = Bool × ℕ × List ℕ} (result, size.new, out.new) (handed size.old (placed (room_for (read_of input.now)) (printed (read_of input.now)) out.old)) }
    ensures untraced { LeavesNoTrace (read_of input.now) }
{
    match console::respond_into(input, out) {
        Some(count) => {
            *size = count;
            true
        }
        None => false,
    }
}

// The whole: from the bytes that are read to the bytes that are printed.
ghost use Rattle.std.specs.Prelude.{◌≡◌, IfOk, string_bytes};
ghost use Rattle.console.specs.Console.{printed};
ghost use Rattle.console.specs.Onward.{to_print};
ghost use Rattle.console.specs.Struck.{LeavesNoTrace};

use crate::lines::roster_size;
use crate::printing::line_of;
use crate::replies::Replies;
use crate::window::Window;
use std::alloc::{AllocError, Global};

/// What is printed for an input: a line for each call line, or the line of a roster that is refused.
/// The only other outcome is that there is not enough memory.
///
/// In the box that the input's roster sets up, whoever sees only what is at or below a label cannot tell whether the calls of others
/// were made.
pub fn respond(heap: Global, input: &[u8]) -> Result<String, AllocError>
    ensures printed { IfOk result (λ text. string_bytes text ≡ printed input.now) }
    ensures untraced { LeavesNoTrace input.now }
{
    let size = roster_size(input);
    match Window::set_up(&input[..size]) {
        Ok(window) => answer_lines(heap, window, &input[size..]),
        Err(fault) => String::from_str(heap, line_of(fault.into()).as_str()),
    }
}

// What is printed for call lines. What this shares with `write_answers` lies in `Replies` and `line_of`; a trait for where a line goes
// would be longer than this loop and that of `write_answers`, since only one of them can fail.
fn answer_lines(heap: Global, window: Window, lines: &[u8]) -> Result<String, AllocError>
    ensures { IfOk result (λ printed. string_bytes printed ≡ to_print window.monitor.table lines.now) }
{
    let mut printed = String::new(heap);
    for reply in Replies::new(window, lines) {
        printed.push_str(line_of(reply).as_str())?;
    }
    Ok(printed)
}

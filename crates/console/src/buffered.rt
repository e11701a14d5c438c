// The whole into a buffer of the caller's: from the bytes that are read to the bytes that are printed.
ghost use Rattle.std.specs.Prelude.{◌≡◌, ℕ, ◌+◌, ◌≤◌, List, length, IfSome, Option};
ghost use Rattle.console.specs.Lines.{read_of};
ghost use Rattle.console.specs.Console.{printed};
ghost use Rattle.console.specs.Onward.{to_print};
ghost use Rattle.console.specs.Struck.{LeavesNoTrace};
ghost use Rattle.console.specs.Writing.{ends_in, room_for, placed, Wrote};

use crate::lines::roster_size;
use crate::printing::line_of;
use crate::replies::Replies;
use crate::window::Window;

// The most bytes that are read of an input.
const MOST: usize = 65_536;

/// What is printed for an input, a line for each call line or the line of a roster that is refused, is written into a buffer, and its length
/// answered. Of an input of more than 65,536 bytes no more are read. With less room than `room_for` says, nothing is written and the answer is `None`.
///
/// In the box that the input's roster sets up, whoever sees only what is at or below a label cannot tell whether the calls of others
/// were made.
pub fn respond_into(input: &[u8], out: &mut [u8]) -> Option<usize>
    ensures printed { ◌≡◌ {A = Option ℕ × List ℕ} (result, out.new) (placed (room_for (read_of input.now)) (printed (read_of input.now)) out.old) }
    ensures within { IfSome result (λ count. count ≤ length out.new) }
    ensures untraced { LeavesNoTrace (read_of input.now) }
{
    if out.len() < room_for(input) {
        return None;
    }
    Some(answer_input(&input[0..input.len().min(MOST)], out))
}

/// How many bytes a buffer must have for what is printed for an input: 30 for each line that is ended, and 30 more.
pub fn room_for(input: &[u8]) -> usize
    ensures { result ≡ room_for (read_of input.now) }
{
    30 * (ended_lines(&input[0..input.len().min(MOST)]) + 1)
}

// How many lines of a text are ended. No sum wraps, as there are no more lines than bytes. By `filter` and `count` it takes twice as long.
fn ended_lines(text: &[u8]) -> usize
    ensures { (result ≡ ends_in text.now) × (result ≤ length text.now) }
{
    text.iter().fold(
        0,
        |ended, byte| ended.wrapping_add(usize::from(*byte == b'\n')),
    )
}

// Writes what is printed for an input.
fn answer_input(input: &[u8], out: &mut [u8]) -> usize
    requires { room_for input.now ≤ length out.old }
    ensures { Wrote out.old 0 (printed input.now) result out.new }
{
    let size = roster_size(input);
    match Window::set_up(&input[..size]) {
        Ok(window) => write_answers(window, &input[size..], out),
        Err(fault) => write(out, 0, line_of(fault.into()).as_str()),
    }
}

// Writes what is printed for call lines.
fn write_answers(window: Window, lines: &[u8], out: &mut [u8]) -> usize
    requires { room_for lines.now ≤ length out.old }
    ensures { Wrote out.old 0 (to_print window.monitor.table lines.now) result out.new }
{
    let mut end = 0;
    for reply in Replies::new(window, lines) {
        end = write(out, end, line_of(reply).as_str());
    }
    end
}

// Writes a text into a buffer, and answers where it ends. The buffer is the caller's, who may be a C program: how far it is filled is
// told by a number.
fn write(out: &mut [u8], at: usize, text: &str) -> usize
    requires { at + length text.now ≤ length out.old }
    ensures { Wrote out.old at text.now result out.new }
{
    let end = at + text.len();
    out[at..end].copy_from_slice(text.as_bytes());
    end
}

// The replies to call lines, one after the other.
ghost use Rattle.std.specs.Prelude.{◌≡◌, length};
ghost use Rattle.std.specs.Iterator.{at_most};
ghost use Rattle.console.specs.Lines.{lines_of};
ghost use Rattle.console.specs.Onward.{Onward};

use crate::printing::FAULTY;
use crate::reader::CallReader;
use crate::window::Window;
use monitor::Reply;
use numerals::cut_at;

// A window with the call lines that are still to be answered.
#[derive(Drop)]
pub(crate) struct Replies<'a> {
    pub(crate) window: Window,
    reader: CallReader,
    pub(crate) left: &'a [u8],
}

impl<'a> Replies<'a> {
    pub(crate) fn new(window: Window, lines: &'a [u8]) -> Replies<'a>
        ensures { (result.window.monitor.table ≡ window.monitor.table) × (result.left.now ≡ lines.now) }
    {
        Replies {
            window,
            reader: CallReader::new(),
            left: lines,
        }
    }
}

impl Iterator for Replies<'_> {
    type Item = Reply;

    ghost next_gives = { λ s r t. Onward s.window.monitor.table s.left.now r t.window.monitor.table t.left.now };

    ghost remaining = { λ s. at_most (length (lines_of s.left.now)) };

    // A line that is not ended, which only the last can be, is faulty.
    fn next(&mut self) -> Option<Reply> {
        if self.left.is_empty() {
            return None;
        }
        match cut_at(self.left, b'\n') {
            Some((line, rest)) => {
                self.left = rest;
                Some(self.window.reply(&mut self.reader, line))
            }
            None => {
                self.left = &[];
                Some(FAULTY)
            }
        }
    }
}

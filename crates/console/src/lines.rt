// How the input is cut.
ghost use Rattle.std.specs.Prelude.{◌≡◌, ◌≤◌, length, take, drop};
ghost use Rattle.console.specs.Cut.{LinesStand};
ghost use Rattle.console.specs.Lines.{is_letter, lines_of, roster_part, call_lines};

// How many bytes of the input are the roster.
pub(crate) fn roster_size(input: &[u8]) -> usize
    ensures within { result ≤ length input.now }
    ensures roster { take result input.now ≡ roster_part input.now }
    ensures calls { lines_of (drop result input.now) ≡ call_lines input.now }
{
    let mut in_line = false;
    for (i, byte) in input.iter().enumerate() {
        if !in_line && !letter(*byte) {
            return i;
        }
        in_line = *byte != b'\n';
    }
    input.len()
}

// Whether a line that begins with this byte is of the roster.
fn letter(byte: u8) -> bool
    ensures { result ≡ is_letter byte }
{
    byte == b'P' || byte == b'S'
}

/// The theorem that says what the lines of an input are, and which of them are the roster.
pub fn lines_stand()
    ensures { LinesStand }
{}

// The fields of a text, with a byte of one kind between one and the next.
ghost use Rattle.std.specs.Prelude.{◌≡◌, ◌==◌, Some, None, position, MatchOption};
ghost use Rattle.numerals.specs.Fields.{cut_at};

/// What stands before the first such byte in a text, and what stands after it; none where there is no such byte.
pub fn cut_at(text: &[u8], byte: u8) -> Option<(&[u8], &[u8])>
    ensures { MatchOption result (cut_at byte text.now ≡ None) (λ parts. cut_at byte text.now ≡ Some (parts.0.now, parts.1.now)) }
{
    let at = place_of(byte, text)?;
    Some((&text[..at], &text[at + 1..]))
}

// Where the first byte of this kind stands.
fn place_of(byte: u8, text: &[u8]) -> Option<usize>
    ensures { result ≡ position (λ b. b == byte) text.now }
{
    text.iter().position(|b| *b == byte)
}

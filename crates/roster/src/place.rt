// Which bytes may come next in a line.
ghost use Rattle.std.specs.Prelude.{◌≡◌};
ghost use Rattle.roster.specs.Reading.{after};
ghost use Rattle.roster.specs.Places.{some_line, stepped};

// How far a line has come. A number is `zero` when it is a 0 alone, after which no digit comes.
#[derive(Clone, Copy, Debug, PartialEq, Eq)]
pub(crate) enum Place {
    Start,
    Letter,
    Comma,
    Number { zero: bool },
    CommaAfter,
    Label { zero: bool },
}

// What one more byte makes of a line.
#[derive(Clone, Copy, Debug, PartialEq, Eq)]
pub(crate) enum Step {
    // No line has the byte there.
    Never,
    // The line goes on.
    On(Place),
    // The line is whole.
    Whole,
}

impl Place {
    // What a byte makes of a line at this place.
    pub(crate) fn after(self, byte: u8) -> Step
        ensures { result ≡ stepped (after (some_line self) byte) }
    {
        match (self, byte) {
            (Place::Start, b'P' | b'S') => Step::On(Place::Letter),
            (Place::Letter, b',') => Step::On(Place::Comma),
            (Place::Comma, b'0'..=b'9') => Step::On(Place::Number { zero: byte == b'0' }),
            (Place::Number { zero: _ }, b',') => Step::On(Place::CommaAfter),
            (Place::Number { zero: false }, b'0'..=b'9') => Step::On(self),
            (Place::CommaAfter, b'0'..=b'9') => Step::On(Place::Label { zero: byte == b'0' }),
            (Place::Label { zero: _ }, b'\n') => Step::Whole,
            (Place::Label { zero: false }, b'0'..=b'9') => Step::On(self),
            _ => Step::Never,
        }
    }
}

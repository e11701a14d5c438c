ghost use Rattle.std.specs.Prelude.{◌≡◌};
ghost use Rattle.tour.specs.Places.{place_of};

use labels::Scheme;
use std::fmt;

/// Where a mark lies, seen from a person.
#[derive(Clone, Copy, Debug, PartialEq, Eq)]
pub enum Place {
    AtOrBelow,
    Above,
    Beside,
}

impl Place {
    /// The place of a mark's label, seen from a person's.
    pub fn of<S: Scheme>(scheme: &S, mark: u64, person: u64) -> Place
        ensures { result ≡ place_of (S.Scheme.flows scheme.now) mark person }
    {
        if scheme.flows_to(mark, person) {
            Place::AtOrBelow
        } else if scheme.flows_to(person, mark) {
            Place::Above
        } else {
            Place::Beside
        }
    }
}

impl fmt::Display for Place {
    fn fmt<W: fmt::Write>(&self, f: &mut fmt::Formatter<W>) -> fmt::Result {
        match self {
            Place::AtOrBelow => f.write_str("at or below"),
            Place::Above => f.write_str("above"),
            Place::Beside => f.write_str("beside"),
        }
    }
}

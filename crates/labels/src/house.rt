ghost use Rattle.std.specs.Prelude.{◌≡◌, ◌≤◌};
ghost use Rattle.labels.specs.Bits.{bits_where};
ghost use Rattle.labels.specs.Faults.{Built};
ghost use Rattle.labels.specs.Schemes.{bars_another, house_bits};
ghost use Rattle.labels.specs.Masks.{square_fits, square_some};

use crate::counted::Counted;
use crate::fault::{SchemeFault, sized};

/// Who bars whom in a house of principals: bit owner × principals + reader of a code says that the owner bars the reader.
/// A bar of oneself does not count, nor does a bit from principals × principals up.
#[derive(Clone, Copy, Debug, PartialEq, Eq)]
pub struct House {
    principals: u64,
    mask: u64,
    ghost range: { (1 ≤ principals) × (principals ≤ 8) },
    ghost masks: { mask ≡ bits_where (house_bits principals) (bars_another principals) },
}

// Whether the bit at a place counts: its reader is not its owner.
fn counts(principals: u64, place: u64) -> bool
    requires { 1 ≤ principals }
    ensures { result ≡ bars_another principals place }
{
    place % principals != place / principals
}

// The bits that count.
fn bars(principals: u64) -> u64
    requires { (1 ≤ principals) × (principals ≤ 8) }
    ensures { result ≡ bits_where (house_bits principals) (bars_another principals) }
{
    let mut mask = 0;
    for place in 0..principals * principals {
        if counts(principals, place) {
            mask |= 1 << place;
        }
    }
    mask
}

impl House {
    /// A house of 1 to 8 principals.
    pub fn new(principals: u64) -> Result<House, SchemeFault>
        ensures { Built 8 principals (λ (h : House). h.principals) result }
    {
        let principals = sized(principals, 8)?;
        let mask = bars(principals);
        Ok(House { principals, mask })
    }
}

impl Counted for House {
    ghost places = { λ s. house_bits s.principals };

    ghost counts = { λ s. bars_another s.principals };

    ghost range = { λ s. (square_some s.principals s.range.0, square_fits s.principals s.range.1) };

    fn places(&self) -> u32 {
        (self.principals * self.principals) as u32
    }

    fn mask(&self) -> u64 {
        self.mask
    }
}

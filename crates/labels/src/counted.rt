// Schemes of which only some bits of a code count, and all of these alike.
ghost use Rattle.std.specs.Prelude.{◌≡◌, ◌≤◌, ℕ, Bool};
ghost use Rattle.labels.specs.Bits.{bits_where, included, united};
ghost use Rattle.labels.specs.Inclusion.{counted_lawful};

use crate::scheme::Scheme;

/// Which of the lowest bits of a code count: one label is at or below another if the other has each bit that counts and is
/// set in it, and a join has the bits that count of both.
pub trait Counted {
    /// How many places there may be bits that count in, from the lowest up.
    ghost places: { Self → ℕ };

    /// Whether the bit at a place counts.
    ghost counts: { Self → ℕ → Bool };

    /// There is a place, and there are no more than a code has.
    ghost range: { (s : Self) → (1 ≤ places s) × (places s ≤ 64) };

    /// How many places there may be bits that count in.
    fn places(&self) -> u32
        ensures { result ≡ places self.now };

    /// The bits that count.
    fn mask(&self) -> u64
        ensures { result ≡ bits_where (places self.now) (counts self.now) };
}

impl<C: Counted> Scheme for C {
    ghost flows = { λ s. included (C.Counted.places s) (C.Counted.counts s) };

    ghost joins = { λ s. united (C.Counted.places s) (C.Counted.counts s) };

    ghost bits = { λ s. C.Counted.places s };

    ghost lawful = { λ s. counted_lawful (C.Counted.places s) (C.Counted.counts s) (C.Counted.range s).0 (C.Counted.range s).1 };

    fn flows_to(&self, a: u64, b: u64) -> bool {
        let mask = self.mask();
        a & mask & b == a & mask
    }

    fn join(&self, a: u64, b: u64) -> u64 {
        let mask = self.mask();
        (a | b) & mask
    }

    fn width(&self) -> u32 {
        self.places()
    }
}

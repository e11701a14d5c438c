ghost use Rattle.std.specs.Prelude.{◌≡◌, ℕ, Bool};
ghost use Rattle.labels.specs.Laws.{Lawful};

/// A label scheme: an order on label codes, a join and a width. Every `u64` is a code and gets an answer.
pub trait Scheme {
    /// Whether one code is at or below another.
    ghost flows: { Self → ℕ → ℕ → Bool };

    /// The join of two codes.
    ghost joins: { Self → ℕ → ℕ → ℕ };

    /// The width in bits.
    ghost bits: { Self → ℕ };

    /// Whether `a` is at or below `b`: what has the label `a` may flow to what has the label `b`.
    fn flows_to(&self, a: u64, b: u64) -> bool
        ensures { result ≡ flows self.now a b };

    /// The join of `a` and `b`: the least label that both are at or below.
    fn join(&self, a: u64, b: u64) -> u64
        ensures { result ≡ joins self.now a b };

    /// How many bits wide the scheme is: every join is below 2 to this power.
    fn width(&self) -> u32
        ensures { result ≡ bits self.now };

    /// The laws that every scheme keeps, least join included.
    ghost lawful: { (s : Self) → Lawful (flows s) (joins s) (bits s) };
}

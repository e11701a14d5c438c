ghost use Rattle.std.specs.Prelude.{◌≡◌, ◌-◌, ◌^◌, ◌<◌};
ghost use Rattle.labels.specs.Schemes.{low_part, high_part, rejoined, both_fit, pair_flows, pair_joins, pair_bits};
ghost use Rattle.labels.specs.Pairs.{pair_lawful};

use crate::scheme::Scheme;

/// A low and a high scheme side by side: the lowest bits of a code, as many as the low scheme is wide, are the low part, and
/// the others the high part. Where the widths add up to more than 64, all codes mean the same.
#[derive(PartialEq, Eq, Debug, Drop)]
pub struct Pair<A, B> {
    low: A,
    high: B,
}

// The (low, high) parts of a code, of which the low part has `width` bits.
fn split(code: u64, width: u32) -> (u64, u64)
    ensures { (result.0 ≡ low_part width code) × (result.1 ≡ high_part width code) }
{
    if width >= 64 {
        (code, 0)
    } else {
        (code % (1 << width), code >> width)
    }
}

// The code of two parts.
fn rejoin(low: u64, high: u64, width: u32) -> u64
    requires { (width < 64) × ((low < 2 ^ width) × (high < 2 ^ (64 - width))) }
    ensures { result ≡ rejoined width low high }
{
    high << width | low
}

impl<A: Scheme, B: Scheme> Pair<A, B> {
    /// The pair of two schemes.
    pub fn new(low: A, high: B) -> Pair<A, B>
        ensures { (result.low ≡ low) × (result.high ≡ high) }
    {
        Pair { low, high }
    }

    // Whether the two widths add up to at most 64.
    fn fits(&self) -> bool
        ensures { result ≡ both_fit (A.Scheme.bits self.now.low) (B.Scheme.bits self.now.high) }
    {
        self.low.width() + self.high.width() <= 64
    }
}

impl<A: Scheme, B: Scheme> Scheme for Pair<A, B> {
    ghost flows = { λ s. pair_flows (A.Scheme.flows s.low) (A.Scheme.bits s.low) (B.Scheme.flows s.high) (B.Scheme.bits s.high) };

    ghost joins = { λ s. pair_joins (A.Scheme.joins s.low) (A.Scheme.bits s.low) (B.Scheme.joins s.high) (B.Scheme.bits s.high) };

    ghost bits = { λ s. pair_bits (A.Scheme.bits s.low) (B.Scheme.bits s.high) };

    ghost lawful = { λ s. pair_lawful (A.Scheme.lawful s.low) (B.Scheme.lawful s.high) };

    fn flows_to(&self, a: u64, b: u64) -> bool {
        if !self.fits() {
            return true;
        }
        let width = self.low.width();
        let (a_low, a_high) = split(a, width);
        let (b_low, b_high) = split(b, width);
        self.low.flows_to(a_low, b_low) && self.high.flows_to(a_high, b_high)
    }

    fn join(&self, a: u64, b: u64) -> u64 {
        if !self.fits() {
            return 0;
        }
        let width = self.low.width();
        let (a_low, a_high) = split(a, width);
        let (b_low, b_high) = split(b, width);
        let low = self.low.join(a_low, b_low);
        let high = self.high.join(a_high, b_high);
        rejoin(low, high, width)
    }

    fn width(&self) -> u32 {
        if self.fits() {
            self.low.width() + self.high.width()
        } else {
            1
        }
    }
}

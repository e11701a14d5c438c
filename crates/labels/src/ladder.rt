ghost use Rattle.std.specs.Prelude.{◌≡◌, ◌≤◌};
ghost use Rattle.labels.specs.Faults.{Built};
ghost use Rattle.labels.specs.Schemes.{level, ladder_flows, ladder_joins, ladder_bits};
ghost use Rattle.labels.specs.Ladders.{ladder_lawful};

use crate::fault::{SchemeFault, sized};
use crate::scheme::Scheme;

/// Levels 0 to `levels` − 1, one above the other. A code counts as a level: as the top one where it is above it.
#[derive(Clone, Copy, Debug, PartialEq, Eq)]
pub struct Ladder {
    levels: u64,
    ghost range: { (1 ≤ levels) × (levels ≤ 256) },
}

impl Ladder {
    /// A ladder of 1 to 256 levels.
    pub fn new(levels: u64) -> Result<Ladder, SchemeFault>
        ensures { Built 256 levels (λ (l : Ladder). l.levels) result }
    {
        let levels = sized(levels, 256)?;
        Ok(Ladder { levels })
    }

    // The level that a code counts as.
    fn level(&self, code: u64) -> u64
        ensures { result ≡ level self.now.levels code }
    {
        code.min(self.levels - 1)
    }
}

impl Scheme for Ladder {
    ghost flows = { λ s. ladder_flows s.levels };

    ghost joins = { λ s. ladder_joins s.levels };

    ghost bits = { λ s. ladder_bits };

    ghost lawful = { λ s. ladder_lawful s.levels s.range.0 s.range.1 };

    fn flows_to(&self, a: u64, b: u64) -> bool {
        self.level(a) <= self.level(b)
    }

    fn join(&self, a: u64, b: u64) -> u64 {
        self.level(a).max(self.level(b))
    }

    fn width(&self) -> u32 {
        8
    }
}

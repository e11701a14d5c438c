ghost use Rattle.std.specs.Prelude.{◌≡◌, ◌≤◌};
ghost use Rattle.labels.specs.Bits.{bits_where};
ghost use Rattle.labels.specs.Faults.{Built};
ghost use Rattle.labels.specs.Schemes.{any_topic};

use crate::counted::Counted;
use crate::fault::{SchemeFault, sized};

/// Sets of topics: bit i of a code says that topic i is in it. The bits from `topics` up do not count.
#[derive(Clone, Copy, Debug, PartialEq, Eq)]
pub struct Topics {
    topics: u64,
    mask: u64,
    ghost range: { (1 ≤ topics) × (topics ≤ 64) },
    ghost masks: { mask ≡ bits_where topics any_topic },
}

// The bits that count: the lowest `topics`.
fn lowest(topics: u64) -> u64
    requires { (1 ≤ topics) × (topics ≤ 64) }
    ensures { result ≡ bits_where topics any_topic }
{
    u64::MAX >> (64 - topics)
}

impl Topics {
    /// 1 to 64 topics.
    pub fn new(topics: u64) -> Result<Topics, SchemeFault>
        ensures { Built 64 topics (λ (t : Topics). t.topics) result }
    {
        let topics = sized(topics, 64)?;
        let mask = lowest(topics);
        Ok(Topics { topics, mask })
    }
}

impl Counted for Topics {
    ghost places = { λ s. s.topics };

    ghost counts = { λ _. any_topic };

    ghost range = { λ s. s.range };

    fn places(&self) -> u32 {
        self.topics as u32
    }

    fn mask(&self) -> u64 {
        self.mask
    }
}

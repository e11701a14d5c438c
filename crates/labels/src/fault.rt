ghost use Rattle.std.specs.Prelude.{◌≡◌};
ghost use Rattle.labels.specs.Faults.{Built, scheme_fault_number};

/// Why a scheme cannot be built.
#[derive(Clone, Copy, Debug, PartialEq, Eq)]
pub enum SchemeFault {
    /// The size of a ladder, topics or house is out of range.
    Size,
}

// The number is one of the list in which all faults are told, so it stands beside the variant.
impl SchemeFault {
    /// The fault's number.
    pub fn number(self) -> u8
        ensures { result ≡ scheme_fault_number self }
    {
        match self {
            SchemeFault::Size => 7,
        }
    }
}

// A size, if it is one from 1 to the most that there may be.
pub(crate) fn sized(size: u64, most: u64) -> Result<u64, SchemeFault>
    ensures { Built most size (λ n. n) result }
{
    if (1..=most).contains(&size) {
        Ok(size)
    } else {
        Err(SchemeFault::Size)
    }
}

ghost use Rattle.std.specs.Prelude.{◌≡◌};
ghost use Rattle.std.specs.Option.{option_or};
ghost use Rattle.std.specs.Result.{result_err};
ghost use Rattle.table.specs.Slots.{listed};
ghost use Rattle.rows.specs.Kinds.{kind_number};
ghost use Rattle.rows.specs.Reading.{byte_at, first, rest_complaints, slot_complaints};

use crate::fault::RowReason;
use crate::kind::{RowKind, Use};
use table::Table;

// Refuses the first byte that names a slot which is not listed; where there is none, the first that is not used and not 0.
pub(crate) fn check_bytes(kind: RowKind, bytes: [u8; 8], table: &Table) -> Result<(), RowReason>
    requires { kind_number kind ≡ byte_at bytes 0 }
    ensures { result_err result ≡ option_or (first (slot_complaints (listed table.now.slots) bytes)) (first (rest_complaints bytes)) }
{
    let uses = kind.uses();
    let slot = (0..8)
        .find(|&byte| uses[byte as usize] == Use::Slot && !table.lists(bytes[byte as usize]))
        .map(|byte| RowReason::NotListed { byte });
    let rest = (0..8)
        .find(|&byte| uses[byte as usize] == Use::Unused && bytes[byte as usize] != 0)
        .map(|byte| RowReason::NotZero { byte });
    slot.or(rest).map_or(Ok(()), Err)
}

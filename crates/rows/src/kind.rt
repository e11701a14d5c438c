ghost use Rattle.std.specs.Prelude.{◌≡◌, [], slice_index_or};
ghost use Rattle.rows.specs.Kinds.{Decodes, kind_number, kinds};

use crate::fault::RowReason;

/// What a row does, as its first byte tells. It settles what the other bytes are.
#[derive(Clone, Copy, Debug, PartialEq, Eq)]
pub enum RowKind {
    Idle,
    PutConstant,
    SlotWithConstant,
    TwoSlots,
    If,
    Else,
    While,
    End,
}

/// What a byte of a row is to the row's kind.
#[derive(Clone, Copy, Debug, PartialEq, Eq)]
pub enum Use {
    /// Nothing: it has to be 0.
    Unused,
    /// The number of the kind itself.
    Kind,
    /// The number of an operation.
    Operation,
    /// The number of a slot.
    Slot,
    /// One of the four bytes of a constant.
    Const,
}

use Use::{Const, Kind, Operation, Slot, Unused};

/// The kind with a number, 0 to 7.
impl TryFrom<u8> for RowKind {
    type Error = RowReason;

    ghost try_from_gives = { Decodes };

    fn try_from(number: u8) -> Result<RowKind, RowReason> {
        match number {
            0 => Ok(RowKind::Idle),
            1 => Ok(RowKind::PutConstant),
            2 => Ok(RowKind::SlotWithConstant),
            3 => Ok(RowKind::TwoSlots),
            4 => Ok(RowKind::If),
            5 => Ok(RowKind::Else),
            6 => Ok(RowKind::While),
            7 => Ok(RowKind::End),
            _ => Err(RowReason::Kind),
        }
    }
}

/// What each of the eight bytes is to a kind, for the kinds from 0 to 7.
const KINDS: [[Use; 8]; 8] = [
    [Kind, Unused, Unused, Unused, Unused, Unused, Unused, Unused],
    [Kind, Unused, Slot, Unused, Const, Const, Const, Const],
    [Kind, Operation, Slot, Slot, Const, Const, Const, Const],
    [Kind, Operation, Slot, Slot, Unused, Unused, Unused, Slot],
    [Kind, Unused, Unused, Slot, Unused, Unused, Unused, Unused],
    [Kind, Unused, Unused, Unused, Unused, Unused, Unused, Unused],
    [Kind, Unused, Unused, Slot, Unused, Unused, Unused, Unused],
    [Kind, Unused, Unused, Unused, Unused, Unused, Unused, Unused],
];

impl RowKind {
    /// What each of the eight bytes is to the kind.
    pub fn uses(self) -> [Use; 8]
        ensures { result ≡ slice_index_or kinds (kind_number self) [] }
    {
        KINDS[self as usize]
    }
}

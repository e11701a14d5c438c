ghost use Rattle.std.specs.Prelude.{◌≡◌, ◌<◌, [], ◌∷◌, length};
ghost use Rattle.sheets.specs.Walk.{opener, branch, refused, latest, newest, beneath, at_end, Opening, Entering, Exact};
ghost use Rattle.sheets.specs.declared.walker.Open.TheVariants.{InThen};

use crate::fault::SheetFault;
use arrayvec::ArrayVec;
use rows::{Row, RowFault, RowReason};

/// An open block, by the row that opened it, and by its else where that came.
#[derive(Clone, Copy, Debug, PartialEq, Eq)]
pub enum Open {
    InThen { row: u8 },
    InElse { row: u8, other: u8 },
    InLoop { row: u8 },
}

/// Fills the places of a walker where no block stands. A derived default is a variant without fields, and there is none.
impl Default for Open {
    ghost is_default = { λ block. block ≡ InThen 0 };

    fn default() -> Open {
        Open::InThen { row: 0 }
    }
}

impl Open {
    // The row that opened the block.
    fn opener(self) -> u8
        ensures { result ≡ opener self }
    {
        match self {
            Open::InThen { row } | Open::InElse { row, .. } | Open::InLoop { row } => row,
        }
    }

    // The row that opened the branch that is open.
    fn branch(self) -> u8
        ensures { result ≡ branch self }
    {
        match self {
            Open::InThen { row } | Open::InLoop { row } => row,
            Open::InElse { other, .. } => other,
        }
    }
}

// The refusal of the row `at`.
fn refused(at: u8, reason: RowReason) -> Result<Option<u8>, RowFault>
    ensures { result ≡ refused at reason }
{
    Err(RowFault { row: at, reason })
}

/// The blocks that are open, the latest last.
#[derive(Drop)]
pub struct Walker {
    stack: ArrayVec<Open, 16>,
}

impl Walker {
    /// No block is open.
    pub fn new() -> Walker
        ensures { latest result ≡ [] }
    {
        let stack = ArrayVec::new();
        Walker { stack }
    }

    fn latest(&self) -> Option<Open>
        ensures { result ≡ newest (latest self.now) }
    {
        self.stack.last().copied()
    }

    // Opens a block at the row `at`. It ends no branch, so the answer is `None`.
    fn open(&mut self, block: Open, at: u8) -> Result<Option<u8>, RowFault>
        ensures { Opening block at (latest self.old) result (latest self.new) }
    {
        if self.stack.try_push(block).is_err() {
            return refused(at, RowReason::TooDeep);
        }
        Ok(None)
    }

    // Puts a block into the place of the latest.
    fn replace(&mut self, block: Open)
        requires { 0 < length (latest self.old) }
        ensures { latest self.new ≡ block ∷ beneath (latest self.old) }
    {
        let last = self.stack.len() - 1;
        self.stack[last] = block;
    }

    // Closes the latest block.
    fn close(&mut self)
        requires { 0 < length (latest self.old) }
        ensures { latest self.new ≡ beneath (latest self.old) }
    {
        self.stack.pop();
    }

    /// Takes in the row number `at`, and gives the row that opened the branch that it ends, if it ends one.
    pub fn enter(&mut self, row: Row, at: u8) -> Result<Option<u8>, RowFault>
        ensures { Entering row at (latest self.old) result (latest self.new) }
    {
        match (self.latest(), row) {
            (Some(Open::InThen { row }), Row::Else) => {
                self.replace(Open::InElse { row, other: at });
                Ok(Some(row))
            }
            (_, Row::Else) => refused(at, RowReason::ElseOutOfPlace),
            (Some(block), Row::End) => {
                self.close();
                Ok(Some(block.branch()))
            }
            (None, Row::End) => refused(at, RowReason::EndOutOfPlace),
            (_, Row::If { .. }) => self.open(Open::InThen { row: at }, at),
            (_, Row::While { .. }) => self.open(Open::InLoop { row: at }, at),
            (
                _,
                Row::Idle
                | Row::PutConstant { .. }
                | Row::SlotWithConstant { .. }
                | Row::TwoSlots { .. },
            ) => Ok(None),
        }
    }

    /// After the last row no block may be open.
    pub fn finish(&self) -> Result<(), SheetFault>
        ensures { result ≡ at_end tt (latest self.now) }
    {
        match self.latest() {
            Some(block) => Err(SheetFault::StillOpen {
                row: block.opener(),
            }),
            None => Ok(()),
        }
    }
}

/// The walk accepts the listings of blocks with at most 16 open at once, and no other rows.
pub fn walk_is_exact()
    ensures { Exact }
{}

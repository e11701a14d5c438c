ghost use Rattle.std.specs.Prelude.{◌≡◌, ◌<◌, [], ◌∷◌};
ghost use Rattle.table.specs.Slots.{label_at};
ghost use Rattle.judging.specs.Judging.{raised};
ghost use Rattle.judging.specs.Steps.{controls, depth, Room, deepened, followed};

use crate::verdict::Judge;
use arrayvec::ArrayVec;
use labels::Scheme;
use rows::Row;

/// The control label of the row at hand, and of what is outside each open block, the outermost first.
#[derive(Drop)]
pub(crate) struct Control {
    pub(crate) label: u64,
    outside: ArrayVec<u64, 16>,
}

impl Control {
    /// Outside all blocks.
    pub(crate) fn new(label: u64) -> Control
        ensures labels { controls result ≡ label ∷ [] }
        ensures depth { depth result ≡ 0 }
    {
        Control {
            label,
            outside: ArrayVec::new(),
        }
    }

    // Into a block.
    fn enter(&mut self, inside: u64)
        requires { depth self.old < 16 }
        ensures { controls self.new ≡ inside ∷ controls self.old }
    {
        self.outside.push(self.label);
        self.label = inside;
    }

    // Out of the latest block: back to the label outside it.
    fn leave(&mut self)
        requires { 0 < depth self.old }
        ensures { controls self.old ≡ self.old.label ∷ controls self.new }
    {
        self.label = self.outside.pop().unwrap_or(self.label);
    }

    /// On to the next row.
    pub(crate) fn follow<S: Scheme>(&mut self, judge: &Judge<'_, S>, row: Row)
        requires { Room (depth self.old) row }
        ensures labels { controls self.new ≡ followed (S.Scheme.joins judge.now.scheme.now) (label_at judge.now.table.now.slots) row (controls self.old) }
        ensures depth { depth self.new ≡ deepened (depth self.old) row }
    {
        match row {
            Row::If { guard } | Row::While { guard } => {
                let inside = judge.raised(self.label, guard);
                self.enter(inside)
            }
            Row::End => self.leave(),
            // An else leaves the label as it is: both branches of an if depend on its guard.
            _ => {}
        }
    }
}

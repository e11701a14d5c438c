ghost use Rattle.std.specs.Prelude.{◌≡◌, map};
ghost use Rattle.rows.specs.declared.fault.RowReason.TheVariants.{SetNotPassed};
ghost use Rattle.table.specs.Slots.{label_at};
ghost use Rattle.judging.specs.Judging.{inside, set_passes, unless_passed, verdict, fault_of};
ghost use Rattle.judging.specs.Steps.{joined, flowing, CodedLabel};

use labels::Scheme;
use rows::{Row, RowReason};
use table::Table;

/// What rows are judged by: a label scheme, a table, of which only the labels count, and the runner's label.
// The methods' clauses name the scheme's members; a word for them would be no shorter.
#[derive(Drop)]
pub(crate) struct Judge<'a, S> {
    pub(crate) scheme: &'a S,
    pub(crate) table: &'a Table,
    pub(crate) runner: u64,
}

impl<S: Scheme> Judge<'_, S> {
    // The join of two labels, which are codes. A slot that is not listed has none.
    fn joined(&self, a: Option<u64>, b: Option<u64>) -> Option<u64>
        ensures join { result ≡ joined (S.Scheme.joins self.now.scheme.now) a b }
        ensures codes { (CodedLabel a) × (CodedLabel b) }
    {
        Some(self.scheme.join(a?, b?))
    }

    // Whether the first label is at or below the second.
    fn flowing(&self, a: Option<u64>, b: Option<u64>) -> bool
        ensures { result ≡ flowing (S.Scheme.flows self.now.scheme.now) a b }
    {
        match (a, b) {
            (Some(a), Some(b)) => self.scheme.flows_to(a, b),
            _ => false,
        }
    }

    /// The control label inside a block, given the one outside and the guard.
    pub(crate) fn raised(&self, control: u64, guard: u8) -> u64
        ensures { result ≡ inside (S.Scheme.joins self.now.scheme.now) (label_at self.now.table.now.slots) control guard }
    {
        match self.table.label(guard) {
            Some(label) => self.scheme.join(control, label),
            None => control,
        }
    }

    // The verdict on a row that sets a slot: whether the control label and the labels of all slots read are at or below the target's. All
    // are joined into one label, which is at or below another exactly when each of them is.
    fn set_verdict(&self, control: u64, reads: &[u8], target: u8) -> Result<(), RowReason>
        ensures { fault_of result ≡ unless_passed (set_passes (S.Scheme.flows self.now.scheme.now) control (map (label_at self.now.table.now.slots) reads.now) (label_at self.now.table.now.slots target)) SetNotPassed }
    {
        let source = reads.iter().fold(Some(control), |source, slot| {
            self.joined(source, self.table.label(*slot))
        });
        let passes = self.flowing(source, self.table.label(target));
        unless_passed(passes, RowReason::SetNotPassed)
    }

    /// The verdict on a row under a control label, by the labels alone.
    pub(crate) fn verdict(&self, control: u64, row: Row) -> Result<(), RowReason>
        ensures { fault_of result ≡ verdict (S.Scheme.flows self.now.scheme.now) (S.Scheme.joins self.now.scheme.now) (label_at self.now.table.now.slots) self.now.runner control row }
    {
        match row {
            Row::Idle | Row::Else | Row::End => Ok(()),
            Row::PutConstant { target, .. } => self.set_verdict(control, &[], target),
            Row::SlotWithConstant { target, first, .. } => {
                self.set_verdict(control, &[first], target)
            }
            Row::TwoSlots {
                target,
                first,
                second,
                ..
            } => self.set_verdict(control, &[first, second], target),
            Row::If { guard } => {
                unless_passed(self.table.lists(guard), RowReason::NotListed { byte: 3 })
            }
            Row::While { guard } => {
                let inside = self.joined(Some(control), self.table.label(guard));
                unless_passed(
                    self.flowing(inside, Some(self.runner)),
                    RowReason::WhileNotPassed,
                )
            }
        }
    }
}

// The verdict by a test.
fn unless_passed(passes: bool, reason: RowReason) -> Result<(), RowReason>
    ensures { fault_of result ≡ unless_passed passes reason }
{
    if passes { Ok(()) } else { Err(reason) }
}

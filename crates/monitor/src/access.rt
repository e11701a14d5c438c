ghost use Rattle.std.specs.Prelude.{◌≡◌};
ghost use Rattle.table.specs.Slots.{person_at, label_at};
ghost use Rattle.noninterference.specs.Monitor.{lay, view, laid, viewed};
ghost use Rattle.monitor.specs.Access.{both_labels};
ghost use Rattle.monitor.specs.Boxes.{answer_by};
ghost use Rattle.monitor.specs.Steps.{the_box, OnlyTableChanges, Steps};
ghost use Rattle.monitor.specs.Told.{LayTold, ViewTold};

use crate::fault::MonitorFault;
use crate::monitor::Monitor;
use labels::Scheme;

impl<S: Scheme> Monitor<S> {
    // The labels of a person and of a slot. That there is no such person is told first.
    fn labels(&self, person: u8, slot: u8) -> Result<(u64, u64), MonitorFault>
        ensures { result ≡ both_labels (person_at self.now.table.people person) (label_at self.now.table.slots slot) }
    {
        let person = self.table.person(person).ok_or(MonitorFault::NoPerson)?;
        let label = self.table.label(slot).ok_or(MonitorFault::NoSlot)?;
        Ok((person, label))
    }

    /// Lays a value into a slot, where the person is at or below it.
    pub fn lay(&mut self, person: u8, slot: u8, value: i32) -> Result<(), MonitorFault>
        ensures stepped { Steps S.Scheme self.old (lay person slot value) (answer_by (λ _. laid) result) self.new }
        ensures told { LayTold (the_box S.Scheme self.old) self.old.table person slot value result self.new.table }
        ensures kept { OnlyTableChanges self.old self.new }
    {
        let (person, label) = self.labels(person, slot)?;
        if !self.scheme.flows_to(person, label) {
            return Err(MonitorFault::LayNotPermitted);
        }
        self.table.put(slot, value);
        Ok(())
    }

    /// Shows the value of a slot, where it is at or below the person.
    pub fn view(&self, person: u8, slot: u8) -> Result<i32, MonitorFault>
        ensures stepped { Steps S.Scheme self.now (view person slot) (answer_by viewed result) self.now }
        ensures told { ViewTold (the_box S.Scheme self.now) self.now.table person slot result }
    {
        let (person, label) = self.labels(person, slot)?;
        if !self.scheme.flows_to(label, person) {
            return Err(MonitorFault::ViewNotPermitted);
        }
        Ok(self.table.value(slot))
    }
}

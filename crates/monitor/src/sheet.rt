ghost use Rattle.std.specs.Prelude.{◌≡◌, true, ◌↔◌};
ghost use Rattle.noninterference.specs.Monitor.{run, ran};
ghost use Rattle.monitor.specs.Boxes.{answer_by};
ghost use Rattle.monitor.specs.Passing.{Permitted, was_run};
ghost use Rattle.monitor.specs.Steps.{the_box, OnlyTableChanges, Steps};
ghost use Rattle.monitor.specs.Told.{RunTold};
ghost use Rattle.monitor.specs.Vetting.{Checking, Judged};

use crate::fault::MonitorFault;
use crate::monitor::Monitor;
use judging::judge;
use labels::Scheme;
use rows::RowFault;
use running::run;
use sheets::Sheet;

impl<S: Scheme> Monitor<S> {
    /// Runs a sheet for a person with at most so many turns, once it is read and judged. Answers how many turns were taken.
    /// A run that is cut puts every slot back.
    pub fn run(&mut self, person: u8, sheet: &[u8], turns: u16) -> Result<u16, MonitorFault>
        ensures stepped { Steps S.Scheme self.old (run person sheet.now turns) (answer_by ran result) self.new }
        ensures told { RunTold (the_box S.Scheme self.old) self.old.table person sheet.now turns result self.new.table }
        ensures exactly { (was_run result ≡ true) ↔ Permitted (the_box S.Scheme self.old) person sheet.now }
        ensures kept { OnlyTableChanges self.old self.new }
    {
        let runner = self.table.person(person).ok_or(MonitorFault::NoPerson)?;
        let sheet = self.checked(sheet, runner)?;
        let taken = run(&sheet, &mut self.table, turns)?;
        Ok(taken)
    }

    // Reads a sheet, and then judges it for a person with this label.
    fn checked(&self, bytes: &[u8], runner: u64) -> Result<Sheet, MonitorFault>
        ensures { Checking (the_box S.Scheme self.now) runner bytes.now result }
    {
        let sheet = Sheet::read(bytes, &self.table)?;
        let judged = self.judged(sheet, runner)?;
        Ok(judged)
    }

    // The sheet, unless a row of it stands against it.
    fn judged(&self, sheet: Sheet, runner: u64) -> Result<Sheet, RowFault>
        ensures { Judged (the_box S.Scheme self.now) runner sheet result }
    {
        judge(&self.scheme, &self.table, &sheet, runner)?;
        Ok(sheet)
    }
}

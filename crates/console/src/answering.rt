// The box at the window, set up and asked.
ghost use Rattle.std.specs.Prelude.{◌≡◌, true, false, MatchResult};
ghost use Rattle.table.specs.Slots.{blank_table};
ghost use Rattle.roster.specs.Reading.{roster_of};
ghost use Rattle.monitor.specs.Boxes.{Stepped};
ghost use Rattle.monitor.specs.Calls.{call_of, answer_of};
ghost use Rattle.console.specs.Reading.{call_in};
ghost use Rattle.console.specs.Replies.{reply_line};
ghost use Rattle.console.specs.Scheme.{window_flows, window_joins, window_bits};
ghost use Rattle.console.specs.Turns.{Turned};
ghost use Rattle.console.specs.Windows.{SetUp};

use crate::printing::FAULTY;
use crate::reader::CallReader;
use crate::window::Window;
use labels::{Ladder, Pair, SchemeFault, Topics};
use monitor::{Answer, Call, Monitor, MonitorFault, Reply};

// Three topics, low, and a ladder of four, high.
fn scheme() -> Result<Pair<Topics, Ladder>, SchemeFault>
    ensures { MatchResult result (λ pair. (pair.low.topics ≡ 3) × (pair.high.levels ≡ 4)) (λ _. ⊥) }
{
    Ok(Pair::new(Topics::new(3)?, Ladder::new(4)?))
}

impl Window {
    // The box that a roster sets up.
    pub(crate) fn set_up(roster: &[u8]) -> Result<Window, MonitorFault>
        ensures { SetUp (roster_of window_bits roster.now) result }
    {
        let mut window = Window::blank();
        window.monitor.roster(roster)?;
        Ok(window)
    }

    // A box with nobody and nothing listed.
    fn blank() -> Window
        ensures { (result.monitor.table ≡ blank_table) × (result.monitor.rostered ≡ false) }
    {
        let Ok(scheme) = scheme() else { unreachable() };
        Window {
            monitor: Monitor::blank(scheme),
        }
    }

    // The reply to a call line.
    pub(crate) fn reply(&mut self, reader: &mut CallReader, line: &[u8]) -> Reply
        ensures { Turned self.old.monitor.table (call_in line.now) (reply_line result) self.new.monitor.table }
    {
        match reader.read(line) {
            Some(call) => self.make(call).into(),
            None => FAULTY,
        }
    }

    // Makes a call.
    fn make(&mut self, call: Call) -> Answer
        ensures { Stepped window_flows window_joins window_bits self.old.monitor.table (call_of call.entry) (answer_of result) self.new.monitor.table }
    {
        self.monitor.answer(call)
    }
}

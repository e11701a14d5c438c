ghost use Rattle.std.specs.Prelude.{◌≡◌};
ghost use Rattle.noninterference.specs.Monitor.{laid, viewed, ran};
ghost use Rattle.monitor.specs.Boxes.{answer_by};
ghost use Rattle.monitor.specs.Calls.{call_of, answer_of};
ghost use Rattle.monitor.specs.Steps.{OnlyTableChanges, Steps};

use crate::fault::MonitorFault;
use crate::monitor::Monitor;
use labels::Scheme;

/// A call by a person.
#[derive(Clone, Copy, Debug, PartialEq, Eq)]
pub enum Call<'a> {
    Lay {
        person: u8,
        slot: u8,
        value: i32,
    },
    View {
        person: u8,
        slot: u8,
    },
    Run {
        person: u8,
        sheet: &'a [u8],
        turns: u16,
    },
}

/// The answer to a call.
#[derive(Clone, Copy, Debug, PartialEq, Eq)]
pub enum Answer {
    Laid,
    Viewed { value: i32 },
    Ran { turns: u16 },
    Refused(MonitorFault),
}

/// The answer to a call that gives nothing back, as a lay.
impl From<Result<(), MonitorFault>> for Answer {
    ghost from_gives = { λ lay answer. answer_of answer ≡ answer_by (λ _. laid) lay };

    fn from(lay: Result<(), MonitorFault>) -> Answer {
        match lay {
            Ok(()) => Answer::Laid,
            Err(fault) => Answer::Refused(fault),
        }
    }
}

/// The answer to a view.
impl From<Result<i32, MonitorFault>> for Answer {
    ghost from_gives = { λ view answer. answer_of answer ≡ answer_by viewed view };

    fn from(view: Result<i32, MonitorFault>) -> Answer {
        match view {
            Ok(value) => Answer::Viewed { value },
            Err(fault) => Answer::Refused(fault),
        }
    }
}

/// The answer to a run.
impl From<Result<u16, MonitorFault>> for Answer {
    ghost from_gives = { λ run answer. answer_of answer ≡ answer_by ran run };

    fn from(run: Result<u16, MonitorFault>) -> Answer {
        match run {
            Ok(turns) => Answer::Ran { turns },
            Err(fault) => Answer::Refused(fault),
        }
    }
}

impl<S: Scheme> Monitor<S> {
    /// Makes one call.
    pub fn answer(&mut self, call: Call) -> Answer
        ensures stepped { Steps S.Scheme self.old (call_of call.entry) (answer_of result) self.new }
        ensures kept { OnlyTableChanges self.old self.new }
    {
        match call {
            Call::Lay {
                person,
                slot,
                value,
            } => self.lay(person, slot, value).into(),
            Call::View { person, slot } => self.view(person, slot).into(),
            Call::Run {
                person,
                sheet,
                turns,
            } => self.run(person, sheet, turns).into(),
        }
    }
}

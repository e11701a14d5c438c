ghost use Rattle.std.specs.Prelude.{◌≡◌, Some};
ghost use Rattle.monitor.specs.Boxes.{told};
ghost use Rattle.monitor.specs.Calls.{answer_of};
ghost use Rattle.monitor.specs.Replies.{reply_of, reply_text};

use crate::call::Answer;
use crate::fault::MonitorFault;
use std::fmt;

/// An answer in four numbers. For a call that is carried out, the number, the row and the byte are 0, and the value is the value viewed or
/// the turns taken. For a refusal they are the fault's, and the value is the turns of a run that was cut.
#[derive(Clone, Copy, Debug, PartialEq, Eq)]
pub struct Reply {
    pub number: u8,
    pub row: u16,
    pub byte: u16,
    pub value: i32,
}

// The reply to a call that is carried out.
fn done(value: i32) -> Reply
    ensures { result ≡ record { number = 0; row = 0; byte = 0; value = value } }
{
    Reply {
        number: 0,
        row: 0,
        byte: 0,
        value,
    }
}

impl From<Answer> for Reply {
    ghost from_gives = { λ answer reply. reply ≡ reply_of (answer_of answer) };

    fn from(answer: Answer) -> Reply {
        match answer {
            Answer::Laid => done(0),
            Answer::Viewed { value } => done(value),
            Answer::Ran { turns } => done(i32::from(turns)),
            Answer::Refused(fault) => fault.into(),
        }
    }
}

impl From<MonitorFault> for Reply {
    ghost from_gives = { λ fault reply. reply ≡ reply_of (told fault) };

    fn from(fault: MonitorFault) -> Reply {
        Reply {
            number: fault.number(),
            row: fault.row(),
            byte: fault.byte(),
            value: i32::from(fault.count()),
        }
    }
}

/// The numbers with commas between them.
impl fmt::Display for Reply {
    ghost output = { λ reply. Some (reply_text reply) };

    fn fmt<W: fmt::Write>(&self, f: &mut fmt::Formatter<W>) -> fmt::Result {
        let Reply {
            number,
            row,
            byte,
            value,
        } = *self;
        write!(f, "{number},{row},{byte},{value}")
    }
}

ghost use Rattle.std.specs.Prelude.{◌≡◌, true, map, length, take, IfOk};
ghost use Rattle.std.specs.Result.{ForOk};
ghost use Rattle.roster.specs.Reading.{roster_of};
ghost use Rattle.noninterference.specs.Strike.{Untraced};
ghost use Rattle.monitor.specs.Calls.{answer_of};
ghost use Rattle.monitor.specs.Play.{Answered, BoxesAreUntraced, Played, Unmarked, made_calls};
ghost use Rattle.monitor.specs.Steps.{box_under, the_box, OnlyTableChanges};

use crate::call::{Answer, Call};
use crate::fault::MonitorFault;
use crate::monitor::Monitor;
use labels::Scheme;

impl<S: Scheme> Monitor<S> {
    /// Makes calls one after the other, as many as there are places for answers.
    pub fn answer_all(&mut self, calls: &[Call], answers: &mut [Answer])
        ensures answered { Answered (the_box S.Scheme self.old) self.old.table calls.now answers.old answers.new self.new.table }
        ensures kept { OnlyTableChanges self.old self.new }
    {
        let made = calls.len().min(answers.len());
        // By index and not by zip: after an adapter of `iter_mut` nothing is known of the answers, and the proof does not close.
        for (i, call) in calls[..made].iter().enumerate() {
            answers[i] = self.answer(*call);
        }
    }
}

/// A new box takes a roster and then calls, one after the other, as many as there are places for answers. Answers past those stay
/// as they were. A roster that is refused is the answer, and no call is made.
///
/// Whoever sees only what is at or below a label cannot tell whether the calls of others were made.
pub fn play<S: Scheme + Drop>(
    scheme: S,
    roster: &[u8],
    calls: &[Call],
    answers: &mut [Answer],
) -> Result<Monitor<S>, MonitorFault>
    ensures played { Played (box_under S.Scheme scheme) (roster_of (S.Scheme.bits scheme) roster.now) calls.now answers.old answers.new (λ box. box.table) result }
    ensures made { IfOk result (λ box. (box.scheme ≡ scheme) × (box.rostered ≡ true)) }
    ensures unmarked { IfOk result (λ box. ForOk (roster_of (S.Scheme.bits scheme) roster.now) (λ listed. Unmarked (box_under S.Scheme scheme listed) listed (made_calls calls.now answers.old) (map answer_of (take (length calls.now) answers.new)) box.table)) }
    ensures untraced { ForOk (roster_of (S.Scheme.bits scheme) roster.now) (λ listed. Untraced (box_under S.Scheme scheme listed) listed.slots) }
{
    let mut monitor = Monitor::blank(scheme);
    monitor.roster(roster)?;
    monitor.answer_all(calls, answers);
    Ok(monitor)
}

/// Under any lawful scheme and after any accepted roster, calls leave no trace at a label that their callers are not at or below.
pub fn boxes_are_untraced()
    ensures { BoxesAreUntraced }
{}

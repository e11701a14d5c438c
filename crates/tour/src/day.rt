//! The third part of the task: a day's calls at the box, and the same day without those of the back office.
use crate::scheme;
use crate::station::{COMPARING, LEAKING, PEOPLE, Person, ROSTER};
use anyhow::anyhow;
use labels::Scheme;
use monitor::{Answer, Call, MonitorFault, play};
use std::alloc::Global;
use std::io;

const CALLS: usize = 13;

/// A call of the day, in words and as the box takes it.
#[derive(Clone, Copy)]
struct Act {
    person: Person,
    words: &'static str,
    call: Call<'static>,
}

fn lay(person: Person, slot: u8, value: i32, words: &'static str) -> Act {
    let call = Call::Lay {
        person: person.number,
        slot,
        value,
    };
    Act {
        person,
        words,
        call,
    }
}

fn view(person: Person, slot: u8, words: &'static str) -> Act {
    let call = Call::View {
        person: person.number,
        slot,
    };
    Act {
        person,
        words,
        call,
    }
}

fn run(person: Person, sheet: &'static [u8], words: &'static str) -> Act {
    let call = Call::Run {
        person: person.number,
        sheet,
        turns: 100,
    };
    Act {
        person,
        words,
        call,
    }
}

fn day() -> [Act; CALLS] {
    let [traveller, jewellery, money, office, _] = PEOPLE;
    [
        lay(traveller, 0, 1, "notes that a ring was handed in"),
        lay(jewellery, 1, 79, "notes the metal of the ring"),
        lay(office, 2, 1987, "notes the engraving"),
        lay(money, 7, 250, "notes the sum in a purse"),
        view(traveller, 2, "asks for the engraving"),
        lay(traveller, 3, 1986, "says 1986, from the first train"),
        lay(traveller, 4, 1987, "says 1987, from the second train"),
        run(jewellery, &COMPARING, "runs the sheet that compares"),
        view(jewellery, 5, "asks which train the owner is on"),
        view(office, 5, "asks which train the owner is on"),
        run(jewellery, &LEAKING, "runs the sheet that would tell"),
        view(jewellery, 1, "asks for the metal of the ring"),
        view(money, 2, "asks for the engraving"),
    ]
}

pub(crate) fn tell(rt: &HostRuntime) -> anyhow::Result<()> {
    println!(rt; "A day at the box:")?;
    let acts = day();
    let calls = acts.map(|act| act.call);
    let answers = answers_to(rt.alloc(), &calls)?;
    for (act, answer) in acts.iter().zip(answers.iter()) {
        tell_act(rt, act, *answer)?;
    }
    tell_strike(rt, &acts, &answers, 9)?;
    tell_strike(rt, &acts, &answers, 0)
}

// The answers of a new box to these calls.
fn answers_to(heap: Global, calls: &[Call]) -> anyhow::Result<Vec<Answer>> {
    let mut answers = Vec::new(heap);
    for _ in calls {
        answers.push(Answer::Laid)?;
    }
    let Ok(scheme) = scheme() else {
        return Err(anyhow!("the scheme cannot be built"));
    };
    match play(scheme, ROSTER, calls, &mut answers) {
        Ok(_) => Ok(answers),
        Err(_) => Err(anyhow!("the roster is refused")),
    }
}

fn tell_act(rt: &HostRuntime, act: &Act, answer: Answer) -> io::Result<()> {
    let name = act.person.name;
    match answer {
        Answer::Laid => println!(rt; "  {name} {}: done", act.words),
        Answer::Viewed { value } => println!(rt; "  {name} {}: {value}", act.words),
        Answer::Ran { turns } => println!(rt; "  {name} {}: done in {turns} turns", act.words),
        Answer::Refused(fault) => tell_refusal(rt, name, act.words, fault),
    }
}

fn tell_refusal(rt: &HostRuntime, name: &str, words: &str, fault: MonitorFault) -> io::Result<()> {
    let number = fault.number();
    let row = fault.row();
    match fault {
        MonitorFault::Sheet(_) => println!(rt;
            "  {name} {words}: refused with fault {number} at row {row}"
        ),
        _ => println!(rt; "  {name} {words}: refused with fault {number}"),
    }
}

// The day again without the calls of people who are not at or below a label: what the others are told is the same.
fn tell_strike(
    rt: &HostRuntime,
    acts: &[Act],
    answers: &[Answer],
    label: u64,
) -> anyhow::Result<()> {
    let Ok(scheme) = scheme() else {
        return Ok(());
    };
    let mut left = Vec::new(rt.alloc());
    for (act, answer) in acts.iter().zip(answers.iter()) {
        if scheme.flows_to(act.person.label, label) {
            left.push((act.call, *answer))?;
        }
    }
    let same = same_again(rt.alloc(), &left)?;
    let struck = acts.len().saturating_sub(left.len());
    let count = left.len();
    println!(rt;
        "Without the {struck} calls of people not at or below label {label}, {same} of the other {count} get the same answer."
    )?;
    Ok(())
}

// How many of these calls, made alone at a new box, get the answer that they got before.
fn same_again(heap: Global, left: &[(Call, Answer)]) -> anyhow::Result<usize> {
    let mut calls = Vec::new(heap);
    for (call, _) in left {
        calls.push(*call)?;
    }
    let answers = answers_to(heap, &calls)?;
    Ok(
        left.iter()
            .zip(answers.iter())
            .filter(|((_, before), after)| *before == **after)
            .count(),
    )
}

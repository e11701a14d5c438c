//! The first part of the task: a ring is handed in, and its marks are labelled.
use crate::place::Place;
use crate::station::{MARKS, Mark, PEOPLE, Person};
use labels::{Ladder, Scheme};
use std::io;

pub(crate) fn tell<S: Scheme>(rt: &HostRuntime, scheme: &S) -> io::Result<()> {
    println!(rt; "A ring with an engraving is handed in at the station.")?;
    println!(rt; "Its marks are labelled: three topics below a ladder of four levels.")?;
    for mark in MARKS {
        let label = mark.label;
        println!(rt; "  label {label}: {}", mark.name)?;
    }
    for person in PEOPLE {
        tell_places(rt, scheme, &person)?;
    }
    tell_comparison(rt, scheme, &MARKS[2], &MARKS[3])?;
    tell_comparison(rt, scheme, &MARKS[2], &MARKS[7])?;
    tell_refused(rt)
}

// Which marks lie at or below a person, above or beside.
fn tell_places<S: Scheme>(rt: &HostRuntime, scheme: &S, person: &Person) -> io::Result<()> {
    let label = person.label;
    println!(rt; "For {}, label {label}:", person.name)?;
    for mark in MARKS {
        let place = Place::of(scheme, mark.label, label);
        println!(rt; "  {place}: {}", mark.name)?;
    }
    Ok(())
}

// Which label a comparison of two marks gets, and who may see it.
fn tell_comparison<S: Scheme>(rt: &HostRuntime, scheme: &S, a: &Mark, b: &Mark) -> io::Result<()> {
    let label = scheme.join(a.label, b.label);
    println!(rt;
        "A comparison of {} with {} gets label {label}. It may be seen by:",
        a.name, b.name
    )?;
    for person in PEOPLE {
        if scheme.flows_to(label, person.label) {
            println!(rt; "  {}", person.name)?;
        }
    }
    Ok(())
}

fn tell_refused(rt: &HostRuntime) -> io::Result<()> {
    match Ladder::new(257) {
        Ok(_) => println!(rt; "A ladder of 257 levels is built."),
        Err(fault) => {
            let number = fault.number();
            println!(rt; "A ladder of 257 levels cannot exist: it is refused with fault {number}.")
        }
    }
}

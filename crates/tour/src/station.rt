//! The people at the counter, the marks in the box, and two sheets. A label is 8 × level + topics: levels 0 to 3 are the window, the
//! counter, the back office and the station chief; topics 1, 2 and 4 are jewellery, money and papers.

/// A person at the counter.
#[derive(Clone, Copy)]
pub struct Person {
    pub name: &'static str,
    pub number: u8,
    pub label: u64,
}

/// A mark: what is noted about a thing, in a slot.
#[derive(Clone, Copy)]
pub struct Mark {
    pub name: &'static str,
    pub slot: u8,
    pub label: u64,
}

pub const PEOPLE: [Person; 5] = [
    Person {
        number: 0,
        label: 0,
        name: "the traveller at the window",
    },
    Person {
        number: 1,
        label: 9,
        name: "the clerk for jewellery",
    },
    Person {
        number: 2,
        label: 10,
        name: "the clerk for money",
    },
    Person {
        number: 3,
        label: 17,
        name: "the back office for jewellery",
    },
    Person {
        number: 4,
        label: 31,
        name: "the station chief",
    },
];

pub const MARKS: [Mark; 8] = [
    Mark {
        slot: 0,
        label: 0,
        name: "that a ring was handed in",
    },
    Mark {
        slot: 1,
        label: 9,
        name: "the metal of the ring",
    },
    Mark {
        slot: 2,
        label: 17,
        name: "the engraving in the ring",
    },
    Mark {
        slot: 3,
        label: 9,
        name: "the engraving named from the first train",
    },
    Mark {
        slot: 4,
        label: 9,
        name: "the engraving named from the second train",
    },
    Mark {
        slot: 5,
        label: 17,
        name: "which train the owner is on",
    },
    Mark {
        slot: 6,
        label: 17,
        name: "whether two engravings agree",
    },
    Mark {
        slot: 7,
        label: 18,
        name: "the sum in a purse",
    },
];

/// The same people and marks as a roster.
pub const ROSTER: &[u8] =
    b"P,0,0\nP,1,9\nP,2,10\nP,3,17\nP,4,31\nS,0,0\nS,1,9\nS,2,17\nS,3,9\nS,4,9\nS,5,17\nS,6,17\nS,7,18\n";

/// Compares the engraving with the two that travellers named, and notes which train the owner is on.
pub const COMPARING: [u8; 80] = [
    1, 0, 5, 0, 0, 0, 0, 0, //
    3, 4, 6, 2, 0, 0, 0, 3, //
    4, 0, 0, 6, 0, 0, 0, 0, //
    1, 0, 5, 0, 0, 0, 0, 1, //
    5, 0, 0, 0, 0, 0, 0, 0, //
    3, 4, 6, 2, 0, 0, 0, 4, //
    4, 0, 0, 6, 0, 0, 0, 0, //
    1, 0, 5, 0, 0, 0, 0, 2, //
    7, 0, 0, 0, 0, 0, 0, 0, //
    7, 0, 0, 0, 0, 0, 0, 0, //
];

/// Would tell the counter whether the engraving is 1987, by the metal of the ring.
pub const LEAKING: [u8; 32] = [
    2, 4, 6, 2, 0, 0, 7, 195, //
    4, 0, 0, 6, 0, 0, 0, 0, //
    1, 0, 1, 0, 0, 0, 0, 1, //
    7, 0, 0, 0, 0, 0, 0, 0, //
];

/// The name of the mark in a slot.
pub(crate) fn mark_in(slot: u8) -> &'static str {
    MARKS
        .iter()
        .find(|mark| mark.slot == slot)
        .map_or("no mark", |mark| mark.name)
}

// What a line lists: a person or a slot.
ghost use Rattle.std.specs.Prelude.{◌≡◌};
ghost use Rattle.roster.specs.Reading.{limit, listed_before, with_label};
ghost use Rattle.roster.specs.Parts.{kind_of};

use table::Table;

const PEOPLE: u8 = 16;

const SLOTS: u8 = 64;

#[derive(Clone, Copy, Debug, PartialEq, Eq)]
pub(crate) enum Kind {
    Person,
    Slot,
}

impl Kind {
    // How many there are.
    pub(crate) fn count(self) -> u8
        ensures { result ≡ limit (kind_of self) }
    {
        match self {
            Kind::Person => PEOPLE,
            Kind::Slot => SLOTS,
        }
    }

    // Whether a table lists the one of a number.
    pub(crate) fn is_listed(self, table: &Table, number: u8) -> bool
        ensures { result ≡ listed_before (kind_of self) number table.now }
    {
        match self {
            Kind::Person => table.person(number).is_some(),
            Kind::Slot => table.lists(number),
        }
    }

    // Lists the one of a number with a label.
    pub(crate) fn list(self, table: &mut Table, number: u8, label: u64)
        ensures { table.new ≡ with_label (kind_of self) number label table.old }
    {
        match self {
            Kind::Person => table.list_person(number, label),
            Kind::Slot => table.list_slot(number, label),
        }
    }
}

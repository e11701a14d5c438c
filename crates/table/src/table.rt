ghost use Rattle.std.specs.Prelude.{◌≡◌, slice_index_or, slice_set};
ghost use Rattle.table.specs.Slots.{blank, blank_table, person_at, value_at, label_at, listed, put, with_person, with_slot};

/// A place for one value. A slot that is not listed has no label. A label is a code.
#[derive(Clone, Copy, Debug, PartialEq, Eq)]
pub struct Slot {
    pub label: Option<u64>,
    pub value: i32,
}

// A slot that is not listed, and what is read past the last one.
const BLANK: Slot = Slot {
    label: None,
    value: 0,
};

/// Persons 0 to 15, each with a label if listed, and slots 0 to 63. Arrays and no maps: the box takes no heap, and every number has
/// its place.
#[derive(Clone, Copy, Debug, PartialEq, Eq)]
pub struct Table {
    pub people: [Option<u64>; 16],
    pub slots: [Slot; 64],
}

impl Table {
    /// The table with nobody and nothing listed.
    pub fn blank() -> Table
        ensures { result ≡ blank_table }
    {
        Table {
            people: [None; 16],
            slots: [BLANK; 64],
        }
    }

    /// The label of a person, if listed. Past the last person nobody is.
    pub fn person(&self, number: u8) -> Option<u64>
        ensures { result ≡ person_at self.now.people number }
    {
        self.people.get(usize::from(number)).copied().flatten()
    }

    /// The label of a slot, if listed. Past the last slot nothing is.
    pub fn label(&self, slot: u8) -> Option<u64>
        ensures { result ≡ label_at self.now.slots slot }
    {
        self.slot(slot).label
    }

    /// Whether a slot is listed.
    pub fn lists(&self, slot: u8) -> bool
        ensures { result ≡ listed self.now.slots slot }
    {
        self.label(slot).is_some()
    }

    /// The value of a slot: 0 past the last.
    pub fn value(&self, slot: u8) -> i32
        ensures { result ≡ value_at self.now.slots slot }
    {
        self.slot(slot).value
    }

    // A slot: past the last a blank one.
    fn slot(&self, slot: u8) -> Slot
        ensures { result ≡ slice_index_or self.now.slots slot blank }
    {
        self.slots.get(usize::from(slot)).copied().unwrap_or(BLANK)
    }

    /// Gives a slot another value. Past the last slot nothing changes.
    pub fn put(&mut self, slot: u8, value: i32)
        ensures slots { self.new.slots ≡ put self.old.slots slot value }
        ensures people { self.new.people ≡ self.old.people }
    {
        let changed = Slot {
            value,
            ..self.slot(slot)
        };
        write(&mut self.slots, slot, changed);
    }

    /// Lists a person with a label. Past the last person nothing changes.
    pub fn list_person(&mut self, number: u8, label: u64)
        ensures people { self.new.people ≡ with_person self.old.people number label }
        ensures slots { self.new.slots ≡ self.old.slots }
    {
        write(&mut self.people, number, Some(label));
    }

    /// Lists a slot with a label; its value is then 0. Past the last slot nothing changes.
    pub fn list_slot(&mut self, slot: u8, label: u64)
        ensures slots { self.new.slots ≡ with_slot self.old.slots slot label }
        ensures people { self.new.people ≡ self.old.people }
    {
        let listed = Slot {
            label: Some(label),
            value: 0,
        };
        write(&mut self.slots, slot, listed);
    }
}

// Puts an item at an index, if there is one. It goes by the index, since of a write through `get_mut` a proof learns nothing.
fn write<T: Copy>(items: &mut [T], index: u8, item: T)
    ensures { items.new ≡ slice_set items.old index item }
{
    let index = usize::from(index);
    if index < items.len() {
        items[index] = item;
    }
}

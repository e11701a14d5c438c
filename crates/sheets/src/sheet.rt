ghost use Rattle.std.specs.Prelude.{◌≡◌, ◌≤◌, true, [], length};
ghost use Rattle.sheets.specs.Jumps.{Leads};
ghost use Rattle.sheets.specs.Reading.{all_within};
ghost use Rattle.sheets.specs.Walk.{accepts, walk};

use arrayvec::ArrayVec;
use rows::Row;

/// Rows that were read, and where each row leads: an if to its else or end, an else and a while to their end.
#[derive(Drop)]
pub struct Sheet {
    pub rows: ArrayVec<Row, 256>,
    // Pairs of a row and its jump are no plainer: the judge and every theorem read the rows alone.
    pub jumps: [u8; 256],
    ghost few: { length rows.items ≤ 256 },
    ghost accepted: { accepts (walk 0 rows.items []) ≡ true },
    ghost led: { Leads rows.items jumps },
    ghost bounded: { all_within rows.items ≡ true },
}

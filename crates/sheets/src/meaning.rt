ghost use Rattle.sheets.specs.Meaning.{SheetsAreRead, SheetsAreRefused};
ghost use Rattle.sheets.specs.Parsing.{Parsing};
ghost use Rattle.sheets.specs.Programs.{ListingsAreUnique};

/// A sheet is read exactly if its bytes write the rows of a block with at most 16 blocks open at once.
pub fn sheets_are_read()
    ensures { SheetsAreRead }
{}

/// A sheet is refused for a fault exactly if it is the first.
pub fn sheets_are_refused()
    ensures { SheetsAreRefused }
{}

/// Rows list one block at most.
pub fn listings_are_unique()
    ensures { ListingsAreUnique }
{}

/// A block is found for rows exactly if they list it.
pub fn listings_are_parsed()
    ensures { Parsing }
{}

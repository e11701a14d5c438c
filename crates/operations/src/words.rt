//! What is proved of the operations in the words of arithmetic. Each function's contract is a theorem; none does anything.
ghost use Rattle.operations.specs.Words.{GivesValues, Wraps, Shares, Compares, CountsBits, GivesLeast};

/// Every operation gives a value in range.
pub fn values_are_given()
    ensures { GivesValues }
{}

/// Sum, difference and product differ from the true ones by a multiple of 2^32.
pub fn arithmetic_wraps()
    ensures { Wraps }
{}

/// A share is the nearest whole number, an exact half away from zero.
pub fn share_is_nearest()
    ensures { Shares }
{}

/// Equal and less tell equal and less.
pub fn comparisons_tell()
    ensures { Compares }
{}

/// Differing counts the bits that differ, of 32.
pub fn differing_counts_bits()
    ensures { CountsBits }
{}

/// Lesser is one of the two and at most both.
pub fn lesser_is_least()
    ensures { GivesLeast }
{}

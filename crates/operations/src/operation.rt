ghost use Rattle.std.specs.Prelude.{◌≡◌, bit_xor, count_ones};
ghost use Rattle.operations.specs.Operations.{Numbered, applied};

use crate::share::share;

/// What a row may compute of two values, its first and its second.
#[derive(Clone, Copy, Debug, PartialEq, Eq)]
pub enum Operation {
    /// The sum, brought into the range of values by a multiple of 2^32.
    Sum,
    /// The difference, brought into range likewise.
    Difference,
    /// The product, brought into range likewise.
    Product,
    /// The first divided by the second, to the nearest whole number.
    Share,
    /// 1 if the two are equal, otherwise 0.
    Equal,
    /// 1 if the first is less, otherwise 0.
    Less,
    /// In how many bits the two differ.
    Differing,
    /// The lesser of the two.
    Lesser,
}

/// A number that no operation has.
#[derive(Clone, Copy, Debug, PartialEq, Eq)]
pub struct UnknownOperation(pub u8);

/// The operation with a number, 0 to 7.
impl TryFrom<u8> for Operation {
    type Error = UnknownOperation;

    ghost try_from_gives = { Numbered };

    fn try_from(number: u8) -> Result<Operation, UnknownOperation> {
        match number {
            0 => Ok(Operation::Sum),
            1 => Ok(Operation::Difference),
            2 => Ok(Operation::Product),
            3 => Ok(Operation::Share),
            4 => Ok(Operation::Equal),
            5 => Ok(Operation::Less),
            6 => Ok(Operation::Differing),
            7 => Ok(Operation::Lesser),
            _ => Err(UnknownOperation(number)),
        }
    }
}

impl Operation {
    /// What the operation gives of a first and a second value.
    pub fn apply(self, first: i32, second: i32) -> i32
        ensures { result ≡ applied self first second }
    {
        match self {
            Operation::Sum => first.wrapping_add(second),
            Operation::Difference => first.wrapping_sub(second),
            Operation::Product => first.wrapping_mul(second),
            Operation::Share => share(first, second),
            Operation::Equal => i32::from(first == second),
            Operation::Less => i32::from(first < second),
            Operation::Differing => differing(first.cast_unsigned(), second.cast_unsigned()) as i32,
            Operation::Lesser => first.min(second),
        }
    }
}

// In how many bits two numbers differ.
fn differing(first: u32, second: u32) -> u32
    ensures { result ≡ count_ones (bit_xor first second) }
{
    (first ^ second).count_ones()
}

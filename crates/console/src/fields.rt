// The fields of a call line.
ghost use Rattle.std.specs.Prelude.{◌≡◌, ◌^◌, ◌≤◌};
ghost use Rattle.console.specs.Reading.{number_below, below_zero, value_after_minus, value_in};

use numerals::number;

// The number of a person or of a slot.
pub(crate) fn byte_field(field: &[u8]) -> Option<u8>
    ensures { result ≡ number_below 256 field.now }
{
    Some(below(256, field)? as u8)
}

// How many turns a run may take. Not one generic function with `byte_field`: its clause would speak of a conversion of the type, and
// not of a limit.
pub(crate) fn turns_field(field: &[u8]) -> Option<u16>
    ensures { result ≡ number_below 65536 field.now }
{
    Some(below(65_536, field)? as u16)
}

// A value, with a minus before it if it is below 0.
pub(crate) fn value_field(field: &[u8]) -> Option<i32>
    ensures { result ≡ value_in field.now }
{
    match field {
        [b'-', digits @ ..] => negative(digits),
        _ => Some(below(2_147_483_648, field)? as i32),
    }
}

// The value whose digits stand after a minus.
fn negative(digits: &[u8]) -> Option<i32>
    ensures { result ≡ value_after_minus digits.now }
{
    minus(below(2_147_483_649, digits)?)
}

// The number that a field is, if it is below a limit.
fn below(limit: u64, field: &[u8]) -> Option<u64>
    ensures { result ≡ number_below limit field.now }
{
    number(field).ok().filter(|n| *n < limit)
}

// The number below 0, if there is one.
fn minus(n: u64) -> Option<i32>
    requires { n ≤ 2 ^ 31 }
    ensures { result ≡ below_zero n }
{
    if n == 0 {
        return None;
    }
    Some(-1 - (n - 1) as i32)
}

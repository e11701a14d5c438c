ghost use Rattle.std.specs.Prelude.{◌≡◌, ℕ, ◌+◌, ◌*◌};
ghost use Rattle.numerals.specs.Numerals.{is_digit, held, begins_number, counted, numeral_of};
ghost use Rattle.numerals.specs.Decimal.{Stands};

/// Why a text gives no number.
#[derive(Clone, Copy, Debug, PartialEq, Eq)]
pub enum NumeralError {
    /// It is neither 0 alone nor digits that do not begin with 0.
    NotANumber,
    /// It is a number, of 2^64 or more.
    TooLarge,
}

/// The number that a text is: 0 alone, or digits that do not begin with 0.
pub fn number(text: &[u8]) -> Result<u64, NumeralError>
    ensures { result ≡ numeral_of text.now }
{
    if begins(text) {
        digits(text)
    } else {
        Err(NumeralError::NotANumber)
    }
}

// Whether there is a first digit, and a 0 only where it is alone.
fn begins(text: &[u8]) -> bool
    ensures { result ≡ begins_number text.now }
{
    match text {
        [] => false,
        [b'0'] => true,
        [b'0', ..] => false,
        _ => true,
    }
}

// Bytes that are all digits, as a number.
fn digits(text: &[u8]) -> Result<u64, NumeralError>
    ensures { result ≡ counted text.now }
{
    let mut value = Some(0);
    for byte in text {
        if !digit(*byte) {
            return Err(NumeralError::NotANumber);
        }
        value = grown(value, *byte - b'0');
    }
    value.ok_or(NumeralError::TooLarge)
}

fn digit(byte: u8) -> bool
    ensures { result ≡ is_digit byte }
{
    byte.is_ascii_digit()
}

// A number with one more digit.
fn grown(value: Option<u64>, figure: u8) -> Option<u64>
    ensures { (n : ℕ) → value ≡ held n → result ≡ held (n * 10 + figure) }
{
    value?.checked_mul(10)?.checked_add(u64::from(figure))
}

/// The theorem that ties these numbers to what natural numbers are written as.
pub fn numbers_stand()
    ensures { Stands }
{}

// The sheet of a call line, in hexadecimal digits.
ghost use Rattle.std.specs.Prelude.{◌≡◌, ◌<◌, take, IfSome};
ghost use Rattle.std.specs.Option.{option_map};
ghost use Rattle.console.specs.Reading.{figure, byte_of, bytes_in};

use arrayvec::ArrayVec;

// The longest sheet, and one byte more: a sheet that is too long is still too long when the rest of it is left out.
pub(crate) const SHEET_AND_ONE: usize = 2049;

// The bytes that hexadecimal digits write, two to a byte, become the sheet, as many as it has room for.
pub(crate) fn decode_sheet(digits: &[u8], sheet: &mut ArrayVec<u8, SHEET_AND_ONE>) -> Option<()>
    ensures { option_map (λ _. sheet.new.items) result ≡ option_map (take 2049) (bytes_in digits.now) }
{
    sheet.clear();
    let mut left = digits;
    while let [high, low, rest @ ..] = left {
        let byte = hexadecimal_byte(*high, *low)?;
        if !sheet.is_full() {
            sheet.push(byte);
        }
        left = rest;
    }
    if left.is_empty() { Some(()) } else { None }
}

fn hexadecimal_byte(high: u8, low: u8) -> Option<u8>
    ensures { result ≡ byte_of high low }
{
    Some(hexadecimal_figure(high)? * 16 + hexadecimal_figure(low)?)
}

fn hexadecimal_figure(digit: u8) -> Option<u8>
    ensures { (result ≡ figure digit) × (IfSome result (λ d. d < 16)) }
{
    match digit {
        b'0'..=b'9' => Some(digit - b'0'),
        b'a'..=b'f' => Some(digit - b'a' + 10),
        _ => None,
    }
}

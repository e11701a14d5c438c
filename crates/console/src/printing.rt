// What is printed.
ghost use Rattle.std.specs.Prelude.{◌≡◌, ◌+◌, ◌<◌, ◌≤◌, [], ◌∷◌, ◌++◌, decimal};
ghost use Rattle.std.specs.Fmt.{signed_decimal};
ghost use Rattle.arrayvec.specs.ArrayString.{array_string_len};
ghost use Rattle.console.specs.Replies.{reply_line};

use arrayvec::ArrayString;
use itoa::{Buffer, Integer};
use monitor::Reply;

// The reply to a line that is no call.
pub(crate) const FAULTY: Reply = Reply {
    number: 14,
    row: 0,
    byte: 0,
    value: 0,
};

// The line that is printed for a reply. It is not written by the reply's `Display`, which for all its contract says may fail. With it
// as a call of its own a short call of the library takes a third longer.
#[inline(always)]
pub(crate) fn line_of(reply: Reply) -> ArrayString<30>
    ensures { result.bytes ≡ reply_line reply }
{
    let mut line = ArrayString::new();
    push_field(&mut line, u16::from(reply.number));
    line.push(',');
    push_field(&mut line, reply.row);
    line.push(',');
    push_field(&mut line, reply.byte);
    line.push(',');
    push_value(&mut line, reply.value);
    line.push('\n');
    line
}

// A number in decimal digits. Nearly all have one or two, which are pushed one by one: with the buffer of `push_number` for each of
// them, short calls of the library took up to twice as long.
#[inline(always)]
fn push_field(line: &mut ArrayString<30>, number: u16)
    requires { array_string_len line.old + 5 ≤ 30 }
    ensures text { line.new.bytes ≡ line.old.bytes ++ decimal number }
    ensures few { array_string_len line.new ≤ array_string_len line.old + 5 }
{
    match number {
        0..=9 => push_digit(line, number),
        10..=99 => {
            push_digit(line, number / 10);
            push_digit(line, number % 10);
        }
        _ => push_number(line, number),
    }
}

// A digit.
#[inline(always)]
fn push_digit(line: &mut ArrayString<30>, digit: u16)
    requires { (digit < 10) × (array_string_len line.old + 1 ≤ 30) }
    ensures { line.new.bytes ≡ line.old.bytes ++ ((48 + digit) ∷ []) }
{
    line.push(char::from(b'0' + digit as u8));
}

// A value in decimal digits, with a minus before it if it is below 0.
#[inline(always)]
fn push_value(line: &mut ArrayString<30>, value: i32)
    requires { array_string_len line.old + 11 ≤ 30 }
    ensures text { line.new.bytes ≡ line.old.bytes ++ signed_decimal value }
    ensures few { array_string_len line.new ≤ array_string_len line.old + 11 }
{
    if (0..100).contains(&value) {
        push_field(line, value as u16)
    } else {
        push_number(line, value)
    }
}

// A number of any type, likewise, by a buffer.
fn push_number<N: Integer>(line: &mut ArrayString<30>, number: N)
    requires { array_string_len line.old + N.MAX_STR_LEN ≤ 30 }
    ensures text { line.new.bytes ≡ line.old.bytes ++ N.text number }
    ensures few { array_string_len line.new ≤ array_string_len line.old + N.MAX_STR_LEN }
{
    line.push_str(Buffer::new().format(number));
}

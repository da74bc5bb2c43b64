// Numbers: lowercase hexadecimal, 1 to 16 digits, no zero in front of others.
ghost use Rattle.std.specs.Prelude.{◌≡◌, ◌&&◌, not, ◌≤◌, leb, length, take};
ghost use Rattle.plan_fields.specs.Cut.{first_of};
ghost use Rattle.plan_fields.specs.Number.{FrontDigits, digit_of, zero_in_front, number_of};

use super::cut::TAB;

// What the digits in front spell, and how many they are.
#[derive(Clone, Copy)]
pub(crate) struct Digits {
    value: u64,
    size: usize,
}

const MOST_DIGITS: usize = 16;

// The value of a digit, if the byte is one.
fn digit_value(byte: u8) -> Option<u64>
    ensures { result ≡ digit_of byte }
{
    if b'0' <= byte && byte <= b'9' {
        return Some(u64::from(byte - b'0'));
    }
    if b'a' <= byte && byte <= b'f' {
        return Some(u64::from(byte - b'a') + 10);
    }
    None
}

// The digits in front, up to the first other byte. Sixteen fill 64 bits, so the value cannot overflow.
fn front_digits(bytes: &[u8]) -> Digits
    ensures { FrontDigits bytes.now result }
{
    let most = bytes.len().min(MOST_DIGITS);
    let mut value: u64 = 0;
    for (size, byte) in bytes[..most].iter().enumerate() {
        let Some(digit) = digit_value(*byte) else {
            return Digits { value, size };
        };
        value = value * 16 + digit;
    }
    Digits { value, size: most }
}

// Whether the digits in front, as many as size says, are one or more without a zero in front of others.
fn well_formed(bytes: &[u8], size: usize) -> bool
    requires { size ≤ length bytes.now }
    ensures { result ≡ (leb 1 size && not (zero_in_front (take size bytes.now))) }
{
    match &bytes[..size] {
        [] => false,
        [_] => true,
        [first, ..] => *first != b'0',
    }
}

// The number that the field spells.
pub fn read_number(field: &[u8]) -> Option<u64>
    ensures { result ≡ number_of field.now }
{
    let Digits { value, size } = front_digits(field);
    if size < field.len() {
        return None;
    }
    well_formed(field, size).then_some(value)
}

// The number that the first of several fields spells, and the size of that field. A tab is no digit, so each byte is
// looked at once.
pub fn first_number(fields: &[u8]) -> Option<(u64, usize)>
    ensures { result ≡ first_of number_of fields.now }
{
    let Digits { value, size } = front_digits(fields);
    if *fields.get(size)? != TAB {
        return None;
    }
    well_formed(fields, size).then_some((value, size))
}

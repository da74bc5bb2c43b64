// Words and numbers put at a place of a lent buffer.
ghost use Rattle.std.specs.Prelude.{◌≡◌, ◌+◌, ◌≤◌, [], ◌∷◌, ◌++◌, length, take};
ghost use Rattle.plan_output.specs.Number.{hex_of};
ghost use Rattle.plan_output.specs.Put.{put_at, put_in, put_place};

// Writes a number's hexadecimal digits, and answers how many they are.
pub(crate) fn hex_digits(number: u64, digits: &mut [u8; 16]) -> usize
    ensures within { result ≤ 16 }
    ensures written { take result digits.new ≡ hex_of number }
{
    io::hex(number, 1, digits)
}

// Puts bytes where there is room for them, and answers the place behind them.
pub(crate) fn put_bytes(buffer: &mut [u8], at: usize, word: &[u8]) -> usize
    requires { at + length word.now ≤ length buffer.old }
    ensures value { result ≡ at + length word.now }
    ensures buffer_after { buffer.new ≡ put_at at word.now buffer.old }
{
    buffer[at..at + word.len()].copy_from_slice(word);
    at + word.len()
}

// Puts a word at a place of the buffer, and answers the place behind it; where there is no room, nothing is written.
pub fn put_word(buffer: &mut [u8], at: usize, word: &[u8]) -> Option<usize>
    ensures value { result ≡ put_place at word.now buffer.old }
    ensures buffer_after { buffer.new ≡ put_in at word.now buffer.old }
{
    if buffer.len().checked_sub(at)? < word.len() {
        return None;
    }
    Some(put_bytes(buffer, at, word))
}

// The same of a number's hexadecimal digits.
pub fn put_number(buffer: &mut [u8], at: usize, number: u64) -> Option<usize>
    ensures value { result ≡ put_place at (hex_of number) buffer.old }
    ensures buffer_after { buffer.new ≡ put_in at (hex_of number) buffer.old }
{
    let mut digits = [0u8; 16];
    let count = hex_digits(number, &mut digits);
    put_word(buffer, at, &digits[..count])
}

// Puts a field and the byte that ends it.
pub(crate) fn put_field(buffer: &mut [u8], at: usize, field: &[u8], end: u8) -> usize
    requires { at + length field.now + 1 ≤ length buffer.old }
    ensures value { result ≡ at + length field.now + 1 }
    ensures buffer_after { buffer.new ≡ put_at at (field.now ++ end ∷ []) buffer.old }
{
    let behind = put_bytes(buffer, at, field);
    buffer[behind] = end;
    behind + 1
}

// Puts a number's digits as a field, and the byte that ends it.
pub(crate) fn put_number_field(buffer: &mut [u8], at: usize, number: u64, end: u8) -> usize
    requires { at + length (hex_of number) + 1 ≤ length buffer.old }
    ensures value { result ≡ at + length (hex_of number) + 1 }
    ensures buffer_after { buffer.new ≡ put_at at (hex_of number ++ end ∷ []) buffer.old }
{
    let mut digits = [0u8; 16];
    let count = hex_digits(number, &mut digits);
    put_field(buffer, at, &digits[..count], end)
}

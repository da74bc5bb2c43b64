// Bytes cut at a separator into parts: a text into its lines, a line into its fields. A part is handed
// back as the bytes of the caller's own slice, and nothing is copied.
ghost use Rattle.std.specs.Prelude.{◌≡◌, ◌+◌, length, drop};
ghost use Rattle.plan_fields.specs.Cut.{split_on, first_part};

pub const TAB: u8 = 9;

pub const NEWLINE: u8 = 10;

// The bytes in front of the first separator: all of them, where there is none. A turn of the loop looks
// at two bytes, since its own test costs as much as that of a byte.
#[tactic(auto, using(crate::proofs::cut::Laws::cuts))]
pub fn first_part(bytes: &[u8], separator: u8) -> &[u8]
    ensures { result.now ≡ first_part separator bytes.now }
{
    let mut end = 0;
    while end + 1 < bytes.len() {
        if bytes[end] == separator {
            return &bytes[..end];
        }
        if bytes[end + 1] == separator {
            return &bytes[..end + 1];
        }
        end += 2;
    }
    if end < bytes.len() && bytes[end] == separator {
        return &bytes[..end];
    }
    bytes
}

// The bytes behind a first part that has so many bytes, and behind its separator: none, where there
// is no separator. The count of parts tells an empty part from one that is not there.
pub fn later_parts(bytes: &[u8], first: usize) -> &[u8]
    ensures { result.now ≡ drop (first + 1) bytes.now }
{
    if first < bytes.len() {
        return &bytes[first + 1..];
    }
    &bytes[bytes.len()..]
}

// How many parts there are: one more than there are separators.
pub fn part_count(bytes: &[u8], separator: u8) -> usize
    ensures { result ≡ length (split_on separator bytes.now) }
{
    1 + bytes.iter().filter(|b| **b == separator).count()
}

// The checks that every list of ranges passes before it is used.
ghost use Rattle.std.specs.Prelude.{◌≡◌, map};
ghost use Rattle.memory_range.specs.Valid.{valid_range, all_valid_of, ascend};

use super::has_range::HasRange;
use super::range::MemoryRange;

pub const PAGE_SIZE: u64 = 4096;

impl MemoryRange {
    // Refusal 4 is given where this is false: the start is below the end, and both are page
    // multiples.
    pub fn is_valid(self) -> bool
        ensures { result ≡ valid_range self }
    {
        self.start < self.end && self.start % PAGE_SIZE == 0 && self.end % PAGE_SIZE == 0
    }
}

// Whether every range of the list is valid.
pub fn ranges_valid<R: HasRange + Copy>(list: &[R]) -> bool
    ensures { result ≡ all_valid_of (map R.range_in list.now) }
{
    list.iter().all(|item| item.range().is_valid())
}

// Refusal 5 is given where this is false: each range starts at or above the end of the one before
// it, so that valid ranges ascend and are disjoint. Touching is allowed.
pub fn ranges_ascend<R: HasRange + Copy>(list: &[R]) -> bool
    ensures { result ≡ ascend (map R.range_in list.now) }
{
    let mut above: u64 = 0;
    for item in list {
        let range = item.range();
        if range.start < above {
            return false;
        }
        above = range.end;
    }
    true
}

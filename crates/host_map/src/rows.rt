// Rows 4 and 5 of a list of ranges, looked at range by range.
ghost use Rattle.std.specs.Prelude.{◌≡◌, map};
ghost use Rattle.host_map.specs.Rows.{check_start, checked_with, checked_all};

use memory_range::{HasRange, MemoryRange};

#[derive(Clone, Copy)]
pub struct RangeCheck {
    // Whether all ranges so far are valid, and whether they ascend.
    pub valid: bool,
    pub ascending: bool,
    // The end of the last one.
    pub above: u64,
}

impl RangeCheck {
    pub fn start() -> RangeCheck
        ensures { result ≡ check_start }
    {
        RangeCheck {
            valid: true,
            ascending: true,
            above: 0,
        }
    }

    pub fn with(self, range: MemoryRange) -> RangeCheck
        ensures { result ≡ checked_with self range }
    {
        RangeCheck {
            valid: self.valid & range.is_valid(),
            ascending: self.ascending & (self.above <= range.start),
            above: range.end,
        }
    }
}

// Of all ranges of a list.
pub fn check_ranges<R: HasRange + Copy>(list: &[R]) -> RangeCheck
    ensures { result ≡ checked_all check_start (map R.range_in list.now) }
{
    let mut check = RangeCheck::start();
    for item in list {
        check = check.with(item.range());
    }
    check
}

// The aligned part of a range.
ghost use Rattle.std.specs.Prelude.{◌≡◌};
ghost use Rattle.memory_range.specs.Align.{aligned_part};

use super::range::MemoryRange;
use super::round::padding;

impl MemoryRange {
    // The largest range inside with both ends multiples of the alignment, or 0 to 0. The rounded
    // start is compared by what is added to it, since it may pass 2^64.
    pub fn aligned_subrange(self, alignment: u64) -> MemoryRange
        ensures { result ≡ aligned_part alignment self }
    {
        if alignment == 0 {
            return MemoryRange { start: 0, end: 0 };
        }
        let more = padding(self.start, alignment);
        let end = self.end - self.end % alignment;
        if self.start < end && more < end - self.start {
            return MemoryRange {
                start: self.start + more,
                end,
            };
        }
        MemoryRange { start: 0, end: 0 }
    }
}

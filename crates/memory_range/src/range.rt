// One range, and two ranges.
ghost use Rattle.std.specs.Prelude.{◌≡◌};
ghost use Rattle.memory_range.specs.Range.{length_of, contains_range, overlap_ranges, split_range_at};

// The addresses from start up to end, end excluded. A range whose start is not below its end holds
// no byte.
#[derive(Clone, Copy, Default, PartialEq, Eq)]
pub struct MemoryRange {
    pub start: u64,
    pub end: u64,
}

// A range with a number that goes with it: a node, or a type.
#[derive(Clone, Copy, Default, PartialEq, Eq)]
pub struct TaggedRange {
    pub range: MemoryRange,
    pub tag: u32,
}

// A range cut in two: left ends where right starts.
#[derive(Clone, Copy)]
pub struct SplitRange {
    pub left: MemoryRange,
    pub right: MemoryRange,
}

impl MemoryRange {
    // The number of bytes.
    pub fn len(self) -> u64
        ensures { result ≡ length_of self }
    {
        self.end.saturating_sub(self.start)
    }

    // Whether every byte of other is a byte of self.
    #[tactic(auto, unfolding(crate::specs::Range::contains_range))]
    pub fn contains(self, other: MemoryRange) -> bool
        ensures { result ≡ contains_range self other }
    {
        other.end <= other.start || (self.start <= other.start && other.end <= self.end)
    }

    // Whether some byte is in both.
    #[tactic(auto, unfolding(crate::specs::Range::overlap_ranges))]
    pub fn overlaps(self, other: MemoryRange) -> bool
        ensures { result ≡ overlap_ranges self other }
    {
        self.start.max(other.start) < self.end.min(other.end)
    }

    // The first offset bytes, and the rest. An offset past the end gives the whole range, and
    // nothing after it.
    pub fn split_at_offset(self, offset: u64) -> SplitRange
        ensures { result ≡ split_range_at self offset }
    {
        let at = self.start + offset.min(self.len());
        SplitRange {
            left: MemoryRange {
                start: self.start,
                end: at,
            },
            right: MemoryRange {
                start: at,
                end: self.end,
            },
        }
    }
}

// Touching ranges of one type joined.
ghost use Rattle.std.specs.Prelude.{◌≡◌, drop};
ghost use Rattle.range_lists.specs.Merge.{merge_adjacent, merge_stepped};

use memory_range::TaggedRange;

// The range at the index, with the ranges after it that go on where it ends and have its tag; and the
// index behind what it was made of.
pub fn merge_adjacent_ranges(ranges: &[TaggedRange], at: usize) -> Option<(TaggedRange, usize)>
    ensures { merge_adjacent (drop at ranges.now) ≡ merge_stepped ranges.now result }
{
    let mut joined = *ranges.get(at)?;
    for next in at + 1..ranges.len() {
        let range = ranges[next];
        if joined.range.end != range.range.start || joined.tag != range.tag {
            return Some((joined, next));
        }
        joined.range.end = range.range.end;
    }
    Some((joined, ranges.len()))
}

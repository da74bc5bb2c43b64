// What of one list of ranges is in none of another.
ghost use Rattle.std.specs.Prelude.{◌≡◌, map};
ghost use Rattle.range_lists.specs.Subtract.{subtract_from, subtract_stepped};

use super::walk::{RangeWalkResult, WalkCursor, walk_ranges};
use memory_range::{HasRange, MemoryRange};

// A part of the first list's item of that index.
#[derive(Clone, Copy)]
pub struct Remainder {
    pub range: MemoryRange,
    pub item: usize,
}

// The next part of the left list that is in none of the right list, from the cursor on, and the cursor
// behind it.
pub fn subtract_ranges<L: HasRange + Copy, R: HasRange + Copy>(
    left: &[L],
    right: &[R],
    cursor: WalkCursor,
) -> Option<(Remainder, WalkCursor)>
    ensures { let lefts = map L.range_in left.now in
        let rights = map R.range_in right.now in
        subtract_from lefts rights cursor ≡ subtract_stepped lefts rights result }
{
    let mut at = cursor;
    while let Some((piece, next)) = walk_ranges(left, right, at) {
        if let RangeWalkResult::Left(item) = piece.result {
            let range = piece.range;
            return Some((Remainder { range, item }, next));
        }
        at = next;
    }
    None
}

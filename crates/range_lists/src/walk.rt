// The walk of two lists of ranges.
//
// A list's boundaries are its items' starts and ends in the order of the items. Boundary k is the
// start of item k / 2 where k is even, and its end where k is odd; so where k boundaries are passed
// and k is odd, item k / 2 is open.
ghost use Rattle.std.specs.Prelude.{◌≡◌, ◌+◌, ◌^◌, ◌<◌, drop, map};
ghost use Rattle.range_lists.specs.Walk.{walk_start, walk_from, walk_stepped, boundaries, open_item, held_by};
ghost use Rattle.range_lists.specs.WalkStep.{first_of, pass_left, pass_right, passed_by, piece_to};

use memory_range::{HasRange, MemoryRange};

// Which item of each list holds a piece.
#[derive(Clone, Copy)]
pub enum RangeWalkResult {
    Left(usize),
    Right(usize),
    Both(usize, usize),
}

#[derive(Clone, Copy)]
pub struct WalkPiece {
    pub range: MemoryRange,
    pub result: RangeWalkResult,
}

// Where the walk stands: the address of the last boundary passed, and how many boundaries of each
// list are passed.
#[derive(Clone, Copy)]
pub struct WalkCursor {
    pub at: u64,
    pub left: usize,
    pub right: usize,
}

impl WalkCursor {
    // Before the first boundary.
    pub fn start() -> WalkCursor
        ensures { result ≡ walk_start }
    {
        WalkCursor {
            at: 0,
            left: 0,
            right: 0,
        }
    }
}

// The next boundary of a list, if one is left: boundary k.
fn boundary_at<R: HasRange + Copy>(list: &[R], k: usize) -> Option<u64>
    ensures { result ≡ first_of (drop k (boundaries (map R.range_in list.now))) }
{
    let range = list.get(k / 2)?.range();
    if k % 2 == 0 {
        return Some(range.start);
    }
    Some(range.end)
}

// The cursor behind the next boundary of the left list, which is at this address.
fn pass_left(cursor: WalkCursor, at: u64) -> WalkCursor
    requires { cursor.left + 1 < 2 ^ 64 }
    ensures { result ≡ pass_left cursor at }
{
    WalkCursor {
        at,
        left: cursor.left + 1,
        ..cursor
    }
}

fn pass_right(cursor: WalkCursor, at: u64) -> WalkCursor
    requires { cursor.right + 1 < 2 ^ 64 }
    ensures { result ≡ pass_right cursor at }
{
    WalkCursor {
        at,
        right: cursor.right + 1,
        ..cursor
    }
}

// Passes the lower of the two next boundaries; of two alike, that of the left list. None where all are
// passed.
fn pass_next<L: HasRange + Copy, R: HasRange + Copy>(
    left: &[L],
    right: &[R],
    cursor: WalkCursor,
) -> Option<WalkCursor>
    ensures { result ≡ passed_by (map L.range_in left.now) (map R.range_in right.now) cursor }
{
    let next_left = boundary_at(left, cursor.left);
    let next_right = boundary_at(right, cursor.right);
    match (next_left, next_right) {
        (Some(a), Some(b)) if b < a => Some(pass_right(cursor, b)),
        (Some(a), _) => Some(pass_left(cursor, a)),
        (None, Some(b)) => Some(pass_right(cursor, b)),
        (None, None) => None,
    }
}

// Which item of a list of count items is open where so many of its boundaries are passed.
fn open_item(count: usize, passed: usize) -> Option<usize>
    ensures { result ≡ open_item count passed }
{
    if passed % 2 == 1 && passed / 2 < count {
        return Some(passed / 2);
    }
    None
}

// What a piece says, from the open item of each list.
fn held_by(left: Option<usize>, right: Option<usize>) -> Option<RangeWalkResult>
    ensures { result ≡ held_by left right }
{
    match (left, right) {
        (Some(i), Some(j)) => Some(RangeWalkResult::Both(i, j)),
        (Some(i), None) => Some(RangeWalkResult::Left(i)),
        (None, Some(j)) => Some(RangeWalkResult::Right(j)),
        (None, None) => None,
    }
}

// The piece from the cursor up to an address, with the items that are open there.
fn piece_to(
    left_count: usize,
    right_count: usize,
    cursor: WalkCursor,
    end: u64,
) -> Option<WalkPiece>
    ensures { result ≡ piece_to left_count right_count cursor end }
{
    let start = cursor.at;
    let left = open_item(left_count, cursor.left);
    let result = held_by(left, open_item(right_count, cursor.right))?;
    if end <= start {
        return None;
    }
    Some(WalkPiece {
        range: MemoryRange { start, end },
        result,
    })
}

// The next piece from the cursor on, and the cursor behind it. Pieces that no item holds are passed over.
pub fn walk_ranges<L: HasRange + Copy, R: HasRange + Copy>(
    left: &[L],
    right: &[R],
    cursor: WalkCursor,
) -> Option<(WalkPiece, WalkCursor)>
    ensures { let lefts = map L.range_in left.now in
        let rights = map R.range_in right.now in
        walk_from lefts rights cursor ≡ walk_stepped lefts rights result }
{
    let mut at = cursor;
    while let Some(next) = pass_next(left, right, at) {
        if let Some(piece) = piece_to(left.len(), right.len(), at, next.at) {
            return Some((piece, next));
        }
        at = next;
    }
    None
}

// The operations of `memory_range` and `range_lists` on lists of ranges and of nodes.
ghost use Rattle.io.specs.Counts.{IsPrefixLen};

use super::line::{Case, MOST_WORDS};
use super::ops;
use super::ranges::range;
use super::words::{Stored, low_32_bits, part, word_at};
use arrayvec::ArrayVec;
use memory_range::{MemoryRange, TaggedRange};
use range_lists::{RangeWalkResult, Remainder, WalkCursor, WalkPiece};

// The most items of a list that is changed, or of one of tags.
const MOST_ITEMS: usize = 1024;

// The most ranges that the words of a line can give: a start and an end each.
const MOST_RANGES: usize = MOST_WORDS / 2;

// After so many steps an answer is too long for any line.
const MOST_STEPS: usize = 1024;

// Copies the words that there is room for, 32 bits of each, and answers how many.
fn copy_tags(words: &[u64], tags: &mut [u32]) -> usize
    ensures { IsPrefixLen result tags.new }
{
    for (tag, word) in tags.iter_mut().zip(words) {
        *tag = low_32_bits(*word);
    }
    words.len().min(tags.len())
}

// The ranges of a list of starts and a list of ends. The words of a line have no more.
pub(crate) fn ranges_of(starts: &[u64], ends: &[u64]) -> ArrayVec<MemoryRange, MOST_RANGES> {
    let mut ranges = ArrayVec::new();
    for (start, end) in starts.iter().zip(ends) {
        let _ = ranges.try_push(range(*start, *end));
    }
    ranges
}

// The ranges with tags of three lists, as many as there is room for.
pub(crate) fn tagged_of(
    starts: &[u64],
    ends: &[u64],
    tags: &[u64],
) -> ArrayVec<TaggedRange, MOST_ITEMS> {
    let mut ranges = ArrayVec::new();
    for ((start, end), tag) in starts.iter().zip(ends).zip(tags) {
        let _ = ranges.try_push(TaggedRange {
            range: range(*start, *end),
            tag: low_32_bits(*tag),
        });
    }
    ranges
}

// An index counted from 1, so that 0 is left for none.
fn place(i: usize) -> u64 {
    i.wrapping_add(1) as u64
}

// A field of the items that are sorted, and behind them the words that were given.
fn same_field<T: Copy, F: Fn(&TaggedRange) -> u64>(
    stored: Stored,
    at: usize,
    items: &[TaggedRange],
    field: F,
    given: &[T],
) -> Option<usize>
where
    u64: From<T>,
    requires { F.IsAlwaysCallable field }
{
    let mut next = at;
    for item in items {
        next = stored.same_word(next, field(item))?;
    }
    stored.same_words(next, part(given, items.len(), given.len()))
}

// Starts, ends and tags afterwards.
fn sorted(stored: Stored, a: &[u64], b: &[u64], c: &[u64]) -> Option<usize> {
    let mut tags = [0u32; MOST_ITEMS];
    let tag_count = copy_tags(c, &mut tags);
    let starts = part(a, 0, a.len().min(MOST_ITEMS));
    let ends = part(b, 0, b.len().min(MOST_ITEMS));
    let mut items = tagged_of(starts, ends, c);
    range_lists::sort_by_start(items.as_mut_slice());
    let items = items.as_slice();
    let at = same_field(stored, 0, items, |item| item.range.start, starts)?;
    let at = same_field(stored, at, items, |item| item.range.end, ends)?;
    same_field(
        stored,
        at,
        items,
        |item| u64::from(item.tag),
        &tags[..tag_count],
    )
}

// The count counted from 1, or 0 for full; then the nodes.
fn inserted(stored: Stored, words: &[u64], count: u64, node: u64) -> Option<usize> {
    let mut nodes = [0u32; MOST_ITEMS];
    let len = copy_tags(words, &mut nodes);
    let node = low_32_bits(node);
    let count = range_lists::insert_node(&mut nodes[..len], count as usize, node);
    let at = stored.same_word(0, count.map_or(0, place))?;
    stored.same_words(at, &nodes[..len])
}

// A piece: its ends, and the places of the items that hold it.
fn piece_words(piece: WalkPiece) -> [u64; 4] {
    let start = piece.range.start;
    let end = piece.range.end;
    match piece.result {
        RangeWalkResult::Left(i) => [start, end, place(i), 0],
        RangeWalkResult::Right(j) => [start, end, 0, place(j)],
        RangeWalkResult::Both(i, j) => [start, end, place(i), place(j)],
    }
}

// A list by its steps: each answers an item and from where to go on. The end of the items' words.
fn stepped<C: Copy, T: Copy, F: Fn(C) -> Option<(T, C)>, G: Fn(usize, T) -> Option<usize>>(
    start: C,
    step: F,
    same: G,
) -> Option<usize>
    requires steps { F.IsAlwaysCallable step }
    requires compares { G.IsAlwaysCallable same }
{
    let mut at = 0;
    let mut cursor = start;
    for _ in 0..MOST_STEPS {
        match step(cursor) {
            None => return Some(at),
            Some((item, next)) => {
                at = same(at, item)?;
                cursor = next;
            }
        }
    }
    None
}

fn walked(stored: Stored, left: &[MemoryRange], right: &[MemoryRange]) -> Option<usize> {
    stepped(
        WalkCursor::start(),
        |cursor| range_lists::walk_ranges(left, right, cursor),
        |at, piece| stored.same_words(at, &piece_words(piece)),
    )
}

// Each part: its ends, and its item's place.
fn subtracted(stored: Stored, left: &[MemoryRange], right: &[MemoryRange]) -> Option<usize> {
    stepped(
        WalkCursor::start(),
        |cursor| range_lists::subtract_ranges(left, right, cursor),
        |at, rest: Remainder| {
            stored.same_words(at, &[rest.range.start, rest.range.end, place(rest.item)])
        },
    )
}

// Each joined range: its ends and its tag.
fn merged(stored: Stored, ranges: &[TaggedRange]) -> Option<usize> {
    stepped(
        0,
        |index| range_lists::merge_adjacent_ranges(ranges, index),
        |at, joined: TaggedRange| {
            let range = joined.range;
            stored.same_words(at, &[range.start, range.end, u64::from(joined.tag)])
        },
    )
}

// Ranges of two kinds.
fn on_two(stored: Stored, op: u64, left: &[MemoryRange], right: &[MemoryRange]) -> Option<usize> {
    match op {
        ops::WALK_RANGES => walked(stored, left, right),
        _ => subtracted(stored, left, right),
    }
}

// Lists of starts, ends and tags; of nodes, with a count and a node; or of starts and ends of two kinds.
pub(crate) fn answer(stored: Stored, op: u64, case: &Case, words: &[u64]) -> Option<usize> {
    let a = case.list(words, 0);
    let b = case.list(words, 1);
    let c = case.list(words, 2);
    match op {
        ops::RANGES_VALID => {
            stored.same_word(
                0,
                memory_range::ranges_valid(ranges_of(a, b).as_slice()) as u64,
            )
        }
        ops::RANGES_ASCEND => {
            stored.same_word(
                0,
                memory_range::ranges_ascend(ranges_of(a, b).as_slice()) as u64,
            )
        }
        ops::SORT_BY_START => sorted(stored, a, b, c),
        ops::INSERT_NODE => inserted(stored, a, word_at(b, 0), word_at(c, 0)),
        ops::MERGE_ADJACENT_RANGES => merged(stored, tagged_of(a, b, c).as_slice()),
        _ => on_two(
            stored,
            op,
            ranges_of(a, b).as_slice(),
            ranges_of(c, case.list(words, 3)).as_slice(),
        ),
    }
}

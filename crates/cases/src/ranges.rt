// The operations of `memory_range` on ranges and on numbers.
use super::ops;
use super::words::{Stored, words_at};
use memory_range::MemoryRange;

pub(crate) fn range(start: u64, end: u64) -> MemoryRange {
    MemoryRange { start, end }
}

// 1 and the length, or 0.
fn rounded(stored: Stored, n: u64, m: u64) -> Option<usize> {
    match memory_range::round_up(n, m) {
        Some(length) => stored.same_words(0, &[1, length]),
        None => stored.same_word(0, 0),
    }
}

fn on_numbers(stored: Stored, op: u64, n: u64, m: u64) -> Option<usize> {
    match op {
        ops::IS_POWER_OF_TWO => stored.same_word(0, memory_range::is_power_of_two(n) as u64),
        ops::PADDING => stored.same_word(0, memory_range::padding(n, m)),
        ops::ROUND_UP => rounded(stored, n, m),
        _ => None,
    }
}

fn aligned(stored: Stored, a: MemoryRange, alignment: u64) -> Option<usize> {
    let part = a.aligned_subrange(alignment);
    stored.same_words(0, &[part.start, part.end])
}

fn split(stored: Stored, a: MemoryRange, offset: u64) -> Option<usize> {
    let parts = a.split_at_offset(offset);
    let left = parts.left;
    let right = parts.right;
    stored.same_words(0, &[left.start, left.end, right.start, right.end])
}

fn on_ranges(stored: Stored, op: u64, a: MemoryRange, b: MemoryRange) -> Option<usize> {
    match op {
        ops::LEN => stored.same_word(0, a.len()),
        ops::IS_VALID => stored.same_word(0, a.is_valid() as u64),
        ops::CONTAINS => stored.same_word(0, a.contains(b) as u64),
        ops::OVERLAPS => stored.same_word(0, a.overlaps(b) as u64),
        ops::ALIGNED_SUBRANGE => aligned(stored, a, b.start),
        ops::SPLIT_AT_OFFSET => split(stored, a, b.start),
        _ => on_numbers(stored, op, a.start, a.end),
    }
}

// A range and another one, or a number, which is that one's first word; or two numbers.
pub(crate) fn answer(stored: Stored, op: u64, words: &[u64]) -> Option<usize> {
    let [start, end, other_start, other_end] = words_at::<4>(words, 0);
    on_ranges(stored, op, range(start, end), range(other_start, other_end))
}

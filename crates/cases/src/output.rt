// The operations that write: lines of an output, words and numbers in a buffer, and whole plans. A buffer
// is full of `.` beforehand, and what it holds afterwards is the answer's text.
use super::answer::Answer;
use super::kinds::usage;
use super::ops;
use super::ranges::range;
use super::words::{Stored, low_32_bits, part, words_at};
use memory_range::MemoryRange;
use plan::OUTPUT_SIZE;
use plan_output::{
    LINE_SIZE, put_number, put_word, write_got, write_map, write_no, write_pool, write_ram,
};

// Puts bytes at the start of the output, and answers how many.
fn put_front(output: &mut [u8; OUTPUT_SIZE], bytes: &[u8]) -> usize {
    let count = bytes.len().min(OUTPUT_SIZE);
    output[..count].copy_from_slice(&bytes[..count]);
    count
}

// What was put in eight bytes: 1 and the place behind it, or 0, and the bytes.
fn put_in(
    stored: Stored,
    behind: Option<usize>,
    buffer: &[u8; 8],
    output: &mut [u8; OUTPUT_SIZE],
) -> Answer {
    let words = match behind {
        Some(place) => stored.same_words(0, &[1, place as u64]),
        None => stored.same_word(0, 0),
    };
    Answer {
        words,
        bytes: put_front(output, buffer),
    }
}

// The line of a range and a node, a usage or a refusal; its length.
fn write(op: u64, range: MemoryRange, last: u64, line: &mut [u8; LINE_SIZE]) -> usize {
    match op {
        ops::WRITE_RAM => write_ram(line, range, low_32_bits(last)),
        ops::WRITE_POOL => write_pool(line, range, low_32_bits(last)),
        ops::WRITE_GOT => write_got(line, range, low_32_bits(last)),
        ops::WRITE_MAP => write_map(line, range, usage(last).vtl_type()),
        _ => write_no(line, (last % 256) as u8),
    }
}

// So many bytes of the output.
pub(crate) fn output_part(output: &[u8; OUTPUT_SIZE], len: usize) -> &[u8] {
    part(output, 0, len)
}

// The end of an answer without words, where all bytes from a place on are as found.
fn unchanged(output: &[u8; OUTPUT_SIZE], from: usize) -> Option<usize> {
    output
        .iter()
        .skip(from)
        .all(|byte| *byte == b'.')
        .then_some(0)
}

// A text's plan, or the line of its refusal, which leaves the output as found.
pub(crate) fn planned(text: &[u8], output: &mut [u8; OUTPUT_SIZE]) -> Answer {
    match plan::plan(text, output) {
        Ok(len) => Answer {
            words: unchanged(output, len),
            bytes: len,
        },
        Err(refusal) => {
            let words = unchanged(output, 0);
            let mut line = [0u8; LINE_SIZE];
            let len = write_no(&mut line, refusal.number());
            Answer {
                words,
                bytes: put_front(output, part(&line, 0, len)),
            }
        }
    }
}

fn number_put(stored: Stored, words: &[u64], output: &mut [u8; OUTPUT_SIZE]) -> Answer {
    let [at, number] = words_at::<2>(words, 0);
    let mut buffer = [b'.'; 8];
    let behind = put_number(&mut buffer, at as usize, number);
    put_in(stored, behind, &buffer, output)
}

fn word_put(stored: Stored, words: &[u64], output: &mut [u8; OUTPUT_SIZE]) -> Answer {
    let [at] = words_at::<1>(words, 0);
    let mut buffer = [b'.'; 8];
    let behind = put_word(&mut buffer, at as usize, b"word");
    put_in(stored, behind, &buffer, output)
}

// A line's length, and all of its buffer.
fn line(stored: Stored, op: u64, words: &[u64], output: &mut [u8; OUTPUT_SIZE]) -> Answer {
    let [start, end, last] = words_at::<3>(words, 0);
    let mut buffer = [b'.'; LINE_SIZE];
    let len = write(op, range(start, end), last, &mut buffer);
    Answer {
        words: stored.same_word(0, len as u64),
        bytes: put_front(output, &buffer),
    }
}

pub(crate) fn answer(
    stored: Stored,
    op: u64,
    words: &[u64],
    output: &mut [u8; OUTPUT_SIZE],
) -> Answer {
    match op {
        ops::PUT_NUMBER => number_put(stored, words, output),
        ops::PUT_WORD => word_put(stored, words, output),
        _ => line(stored, op, words, output),
    }
}

// A data file: its lines replayed one after the other, and counted.
ghost use Rattle.io.specs.Counts.{IsPrefixLen};

use super::answer::run;
use super::line::{Case, MOST_BYTES, MOST_WORDS, read_case};
use super::ops;
use super::ops::op_of;
use super::output::output_part;
use super::words::part;
use plan::OUTPUT_SIZE;
use std::fs;
use std::io::{Read, Seek, SeekFrom, Stdout};
use std::rt::Files;

// So many bytes of a file are read at a time.
const BLOCK_SIZE: usize = 65_536;

// What the lines of a file came to so far, and how many bytes of it they have. A line that holds a wrong
// answer counts with all its cases.
#[derive(Clone, Copy, Default)]
struct Counts {
    lines: u64,
    cases: u64,
    differing: u64,
    bytes: usize,
}

// How many cases a line holds: of hints, one for each stored word.
fn cases_in(op: u64, case: &Case) -> u64 {
    match op {
        ops::RELEASE | ops::DEBUG => case.words.wrapping_sub(case.stored_words) as u64,
        _ => 1,
    }
}

fn is_readable(line: &[u8], case: &Case) -> bool {
    case.words <= MOST_WORDS && case.bytes <= MOST_BYTES && case.at == line.len() && case.has_answer
}

// A run whose output cannot be written goes on: what it must write is then missing.
fn print_bytes(out: Stdout, bytes: &[u8]) {
    let _ = out.write_all(bytes);
}

// Whether an answer ends where the stored words do.
fn has_words(out: Stdout, stored: usize, given: Option<usize>) -> bool {
    let Some(given) = given else {
        return false;
    };
    if stored != given {
        let _ = println!(out; "words: stored {stored}, given {given}");
    }
    stored == given
}

fn has_text(out: Stdout, stored: &[u8], given: &[u8]) -> bool {
    if stored == given {
        return true;
    }
    print_bytes(out, b"stored:\n");
    print_bytes(out, stored);
    print_bytes(out, b"given:\n");
    print_bytes(out, given);
    false
}

// Whether the answer of a line's operation is the one that it stores. What differs is printed.
fn is_stored(out: Stdout, line: &[u8], case: &Case, words: &[u64], bytes: &[u8]) -> bool {
    let mut output = [b'.'; OUTPUT_SIZE];
    if !is_readable(line, case) {
        return false;
    }
    let answer = run(out, op_of(line), case, words, bytes, &mut output);
    let stored = case.words.wrapping_sub(case.stored_words);
    let stored_text = part(bytes, case.stored_bytes, case.bytes);
    let given_text = output_part(&output, answer.bytes);
    has_words(out, stored, answer.words) && has_text(out, stored_text, given_text)
}

fn print_line(out: Stdout, file: &[u8], number: u64, line: &[u8]) {
    print_bytes(out, file);
    let _ = print!(out; ", line {number}, differs: ");
    print_bytes(out, line);
    print_bytes(out, b"\n");
}

// Replays a line that holds cases.
fn replay_case(out: Stdout, file: &[u8], line: &[u8], counts: &mut Counts) {
    let mut words = [0u64; MOST_WORDS];
    let mut bytes = [0u8; MOST_BYTES];
    let case = read_case(line, &mut words, &mut bytes);
    let cases = cases_in(op_of(line), &case);
    counts.cases = counts.cases.wrapping_add(cases);
    if !is_stored(out, line, &case, &words, &bytes) {
        counts.differing = counts.differing.wrapping_add(cases);
        print_line(out, file, counts.lines, line);
    }
}

// An empty line, or one that starts with `#`, holds no case.
fn replay_line(out: Stdout, file: &[u8], line: &[u8], counts: &mut Counts) {
    counts.lines = counts.lines.wrapping_add(1);
    if !matches!(line.first(), None | Some(b'#')) {
        replay_case(out, file, line, counts);
    }
}

// The lines of a block. One that has no end there is left.
fn replay_lines(out: Stdout, file: &[u8], block: &[u8], counts: &mut Counts) {
    for part in block.split_inclusive(|byte| *byte == b'\n') {
        let Some(line) = part.strip_suffix(b"\n") else {
            return;
        };
        replay_line(out, file, line, counts);
        counts.bytes = counts.bytes.wrapping_add(part.len());
    }
}

// Reads until the buffer is full, the input ends or a read fails: so many bytes. The library reads so far
// only into a list on the heap.
fn read_full<R: Read>(data: &mut R, buffer: &mut [u8]) -> usize
    ensures { IsPrefixLen result buffer.new }
{
    let mut len = 0;
    while len < buffer.len() {
        match data.read(&mut buffer[len..]) {
            Ok(0) => return len,
            Ok(more) => len += more,
            Err(_) => return len,
        }
    }
    len
}

// The lines that are whole in the block that begins behind those that are counted.
fn replay_block<R: Read + Seek>(out: Stdout, data: &mut R, file: &[u8], counts: &mut Counts) {
    let mut buffer = [0u8; BLOCK_SIZE];
    let _ = data.seek(SeekFrom::Start((counts.bytes % 0x1_0000_0000) as u64));
    let n = read_full(data, &mut buffer);
    replay_lines(out, file, &buffer[..n], counts);
}

// No file has so many blocks: a proved loop has to end, and nothing says that a file does.
const MOST_BLOCKS: u64 = 1_000_000;

fn replay_blocks<R: Read + Seek>(out: Stdout, data: &mut R, file: &[u8]) -> Counts {
    let mut counts = Counts::default();
    for _ in 0..MOST_BLOCKS {
        let before = counts.bytes;
        replay_block(out, data, file, &mut counts);
        if counts.bytes == before {
            return counts;
        }
    }
    counts
}

fn replay_data<R: Read + Seek>(out: Stdout, data: &mut R, file: &[u8]) {
    let counts = replay_blocks(out, data, file);
    print_bytes(out, file);
    let _ = println!(out; ": {} cases, {} differ", counts.cases, counts.differing);
}

// A file that cannot be read gives no counts, which is not what the run must write.
fn replay_named<R: Files + Eprint>(rt: &R, out: Stdout, file: &str) {
    match fs::open(rt, file) {
        Ok(mut data) => replay_data(out, &mut data, file.as_bytes()),
        Err(e) => {
            let _ = rt.eprintln(format_args!("{file}: {e}"));
        }
    }
}

pub(crate) fn replay_file(rt: &HostRuntime, file: &[u8]) {
    match str::from_utf8(file) {
        Ok(name) => replay_named(rt, rt.stdout(), name),
        Err(e) => {
            let _ = rt.eprintln(e);
        }
    }
}

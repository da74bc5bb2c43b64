// A line of a data file: the name of an operation, the words that it is given, `=`, and the words that
// it answers, with one space in front of each.
//
//     200000     a number in lowercase hexadecimal digits
//     /          the next list of words begins
//     ~4*3f8     3f8 words more, each as far from the one 4 places before it as that one is from the
//                one 4 places before it
//     @1         the words of list 1 again
//     "no\t4\n   a text: `\n`, `\t` and `\\` stand for a newline, a tab and a backslash, `\x20;` for a
//                byte, and `\r1c*fe00;` for fe00 bytes more, the last 1c over and over
ghost use Rattle.std.specs.Prelude.{◌<◌, IfSome};

use super::words::{byte_at, part, put, word_at};
use plan::OUTPUT_SIZE;
use plan_fields::first_part;

pub(crate) const MOST_WORDS: usize = 8192;

// A text of more bytes than are planned, and an output.
pub(crate) const MOST_BYTES: usize = 65_540 + OUTPUT_SIZE;

const MOST_LISTS: usize = 16;

// What was read of a line. Its words and bytes stand in two lent buffers, those that it stores as the
// answer behind those that it gives.
#[derive(Clone, Copy, Default)]
pub(crate) struct Case {
    // The place that is read next. One behind the line's end tells that it could not be read.
    pub at: usize,
    pub words: usize,
    pub bytes: usize,
    // Where each list starts, and which is the last.
    pub starts: [usize; MOST_LISTS],
    pub last: usize,
    // Where the answer starts.
    pub has_answer: bool,
    pub stored_words: usize,
    pub stored_bytes: usize,
}

const MOST_DIGITS: usize = 16;

// A number, and the place behind its digits.
#[derive(Clone, Copy)]
struct Hex {
    value: u64,
    behind: usize,
}

fn unreadable(line: &[u8]) -> usize {
    line.len().wrapping_add(1)
}

fn digit(byte: u8) -> Option<u64>
    ensures { IfSome result (λ d. d < 16) }
{
    match byte {
        b'0'..=b'9' => Some(u64::from(byte - b'0')),
        b'a'..=b'f' => Some(u64::from(byte - b'a') + 10),
        _ => None,
    }
}

// The number of 1 to 16 digits behind a byte.
fn read_hex(line: &[u8], at: usize) -> Hex {
    let mut value: u64 = 0;
    let mut behind = at.wrapping_add(1);
    for count in 0..MOST_DIGITS + 1 {
        let Some(digit) = digit(byte_at(line, behind)) else {
            if count == 0 {
                behind = unreadable(line);
            }
            return Hex { value, behind };
        };
        value = value % 0x1000_0000_0000_0000 * 16 + digit;
        behind = behind.wrapping_add(1);
    }
    Hex {
        value,
        behind: unreadable(line),
    }
}

// The byte that a backslash and a letter stand for.
fn escaped(letter: u8) -> Option<u8> {
    match letter {
        b'n' => Some(b'\n'),
        b't' => Some(b'\t'),
        b'\\' => Some(b'\\'),
        _ => None,
    }
}

impl Case {
    // The next list begins.
    fn next_list(&mut self, line: &[u8]) {
        let next = self.last.wrapping_add(1);
        if next < MOST_LISTS {
            self.starts[next] = self.words;
            self.last = next;
            self.at = self.at.wrapping_add(2);
        } else {
            self.at = unreadable(line);
        }
    }

    // The answer begins.
    fn begin_answer(&mut self, line: &[u8]) {
        self.next_list(line);
        if self.has_answer {
            self.at = unreadable(line);
        }
        self.has_answer = true;
        self.stored_words = self.words;
        self.stored_bytes = self.bytes;
    }

    fn start_of(&self, list: usize) -> usize {
        if self.last < list {
            return self.words;
        }
        self.starts.get(list).copied().unwrap_or(self.words)
    }

    // The words of a list; the first is list 0.
    pub(crate) fn list<'a>(&self, words: &'a [u64], list: usize) -> &'a [u64] {
        let next = list.wrapping_add(1);
        part(words, self.start_of(list), self.start_of(next))
    }

    fn put_word(&mut self, words: &mut [u64], word: u64) {
        self.words = put(words, self.words, word);
    }

    fn put_byte(&mut self, bytes: &mut [u8], byte: u8) {
        self.bytes = put(bytes, self.bytes, byte);
    }

    // Puts so many words more. Each differs from the one that stands `back` places before it as that one does from
    // the one `further` places before itself.
    fn put_words(&mut self, words: &mut [u64], count: u64, back: usize, further: usize) {
        for _ in 0..count {
            let place = self.words.wrapping_sub(back);
            let last = word_at(words, place);
            let before = word_at(words, place.wrapping_sub(further));
            let step = last.wrapping_sub(before);
            self.put_word(words, last.wrapping_add(step));
        }
    }

    // Puts so many bytes more, each the one that stands `back` places before it.
    fn put_bytes(&mut self, bytes: &mut [u8], count: u64, back: usize) {
        for _ in 0..count {
            let byte = byte_at(bytes, self.bytes.wrapping_sub(back));
            self.put_byte(bytes, byte);
        }
    }

    fn read_steps(&mut self, line: &[u8], words: &mut [u64]) {
        let back = read_hex(line, self.at.wrapping_add(1));
        let count = read_hex(line, back.behind);
        let places = (back.value % 65_536) as usize;
        self.put_words(words, count.value % 65_536, places, places);
        self.at = count.behind;
    }

    fn read_again(&mut self, line: &[u8], words: &mut [u64]) {
        let list = read_hex(line, self.at.wrapping_add(1));
        let k = (list.value % 65_536) as usize;
        let from = self.start_of(k);
        let count = self.start_of(k + 1).wrapping_sub(from) % 65_536;
        let back = self.words.wrapping_sub(from);
        self.put_words(words, count as u64, back, 0);
        self.at = list.behind;
    }

    // The bytes that a backslash and a number or two stand for.
    fn read_escape(&mut self, line: &[u8], bytes: &mut [u8]) {
        let kind = self.at.wrapping_add(1);
        let first = read_hex(line, kind);
        match byte_at(line, kind) {
            b'x' => {
                self.put_byte(bytes, (first.value % 256) as u8);
                self.at = first.behind.wrapping_add(1);
            }
            b'r' => {
                let count = read_hex(line, first.behind);
                let back = (first.value % 65_536) as usize;
                self.put_bytes(bytes, count.value % 1_048_576, back);
                self.at = count.behind.wrapping_add(1);
            }
            _ => self.at = unreadable(line),
        }
    }

    // The byte that stands there, or what a backslash stands for with the bytes behind it.
    fn read_byte(&mut self, line: &[u8], bytes: &mut [u8]) {
        let byte = byte_at(line, self.at);
        let next = self.at.wrapping_add(1);
        if byte != b'\\' {
            self.put_byte(bytes, byte);
            self.at = next;
            return;
        }
        match escaped(byte_at(line, next)) {
            None => self.read_escape(line, bytes),
            Some(letter) => {
                self.put_byte(bytes, letter);
                self.at = next.wrapping_add(1);
            }
        }
    }

    fn read_text(&mut self, line: &[u8], bytes: &mut [u8]) {
        self.at = self.at.wrapping_add(2);
        for _ in 0..line.len() {
            if byte_at(line, self.at) == b' ' {
                return;
            }
            self.read_byte(line, bytes);
        }
    }

    // The word behind a space.
    fn read_word(&mut self, line: &[u8], words: &mut [u64], bytes: &mut [u8]) {
        match byte_at(line, self.at.wrapping_add(1)) {
            b'/' => self.next_list(line),
            b'=' => self.begin_answer(line),
            b'~' => self.read_steps(line, words),
            b'@' => self.read_again(line, words),
            b'"' => self.read_text(line, bytes),
            _ => {
                let number = read_hex(line, self.at);
                self.put_word(words, number.value);
                self.at = number.behind;
            }
        }
    }
}

// The words of a line, behind its operation's name.
pub(crate) fn read_case(line: &[u8], words: &mut [u64], bytes: &mut [u8]) -> Case {
    let mut case = Case {
        at: first_part(line, b' ').len(),
        ..Case::default()
    };
    for _ in 0..line.len() {
        if line.len() <= case.at {
            return case;
        }
        if byte_at(line, case.at) != b' ' {
            case.at = unreadable(line);
            return case;
        }
        case.read_word(line, words, bytes);
    }
    case
}

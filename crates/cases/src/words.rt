// Words and bytes in lent buffers, and an answer compared with the words that a line stores.
use std::array;
use std::io::Stdout;

// The place behind what there is no room for.
const NO_ROOM: usize = usize::MAX;

// Word i, or 0.
pub(crate) fn word_at(words: &[u64], i: usize) -> u64 {
    words.get(i).copied().unwrap_or(0)
}

// The words from a place on, each 0 where there is none.
pub(crate) fn words_at<const N: usize>(words: &[u64], at: usize) -> [u64; N] {
    array::from_fn(|i| word_at(words, at.wrapping_add(i)))
}

// Byte i, or a space.
pub(crate) fn byte_at(bytes: &[u8], i: usize) -> u8 {
    bytes.get(i).copied().unwrap_or(b' ')
}

// Puts an item at a place, and answers the place behind it.
pub(crate) fn put<T: Copy>(items: &mut [T], at: usize, item: T) -> usize {
    if items.len() <= at {
        return NO_ROOM;
    }
    items[at] = item;
    at + 1
}

// The items from one place to another, or none where there are no such places.
pub(crate) fn part<T>(items: &[T], from: usize, to: usize) -> &[T] {
    items.get(from..to).unwrap_or(&[])
}

pub(crate) fn low_32_bits(word: u64) -> u32 {
    (word % 0x1_0000_0000) as u32
}

// The words that a line stores as its answer, and where a word that differs is told.
#[derive(Clone, Copy)]
pub(crate) struct Stored<'a> {
    pub out: Stdout,
    pub words: &'a [u64],
}

impl<'a> Stored<'a> {
    // The place behind a word of an answer, if it is the stored one. Behind the stored words all are 0; that an
    // answer ends where they do is seen at its end. The first word that differs is printed.
    pub(crate) fn same_word(self, at: usize, word: u64) -> Option<usize> {
        let stored = word_at(self.words, at);
        if stored == word {
            return at.checked_add(1);
        }
        let out = self.out;
        let _ = println!(out; "word {at}: stored {stored:x}, given {word:x}");
        None
    }

    // The same of words, or of tags.
    pub(crate) fn same_words<T: Copy>(self, at: usize, items: &[T]) -> Option<usize>
    where
        u64: From<T>,
    {
        items
            .iter()
            .try_fold(at, |next, item| self.same_word(next, u64::from(*item)))
    }

    // The end of an answer whose last places may be 0, and are then not stored.
    pub(crate) fn end(self, at: usize) -> Option<usize> {
        (self.words.len() <= at).then_some(self.words.len())
    }
}

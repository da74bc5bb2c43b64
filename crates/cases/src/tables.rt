// A table: its count, its flag, and its places, each of them four words, start, end, node and usage.
use super::kinds::{usage, usage_number};
use super::ranges::range;
use super::words::{Stored, low_32_bits, words_at};
use address_space::{AddressRange, AddressSpaceManager};
use std::array;

fn entry_of(words: [u64; 4]) -> AddressRange {
    let [start, end, node, number] = words;
    AddressRange {
        range: range(start, end),
        vnode: low_32_bits(node),
        usage: usage(number),
    }
}

fn entry_words(entry: AddressRange) -> [u64; 4] {
    let range = entry.range;
    let usage = entry.usage;
    [
        range.start,
        range.end,
        u64::from(entry.vnode),
        usage_number(usage),
    ]
}

// Places that no words are given for are 0.
pub(crate) fn table_of(words: &[u64], count: u64, flag: u64) -> AddressSpaceManager {
    let mut table = AddressSpaceManager::new();
    table.address_space = array::from_fn(|i| entry_of(words_at(words, 4 * i)));
    table.count = count as usize;
    table.vtl2_pool = flag == 1;
    table
}

// All places, those behind the entries too.
pub(crate) fn same_table(stored: Stored, at: usize, table: AddressSpaceManager) -> Option<usize> {
    let counts = [table.count as u64, table.has_vtl2_pool() as u64];
    let mut next = stored.same_words(at, &counts)?;
    for entry in &table.address_space {
        next = stored.same_words(next, &entry_words(*entry))?;
    }
    stored.end(next)
}

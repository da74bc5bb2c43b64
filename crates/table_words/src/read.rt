// Words read as a table.
ghost use Rattle.std.specs.Prelude.{◌≡◌, ◌≤◌, length, drop};
ghost use Rattle.address_space.specs.Table.{max_address_ranges};
ghost use Rattle.table_words.specs.Rows.{rows};
ghost use Rattle.table_words.specs.Table.{table_of, table_length, entries_as, head_good, read_as};

use crate::entry::entry_of;
use address_space::{AddressSpaceManager, MAX_ADDRESS_RANGES};

// Two words, and four for each entry.
pub const TABLE_WORDS: usize = 1026;

// The first count entries, with the flag.
fn read_entries(words: &[u64], count: usize, flag: bool) -> Option<AddressSpaceManager>
    requires { (length words.now ≡ table_length) × (count ≤ max_address_ranges) }
    ensures { result ≡ read_as (entries_as (rows 4 count (drop 2 words.now)) flag) }
{
    let mut manager = AddressSpaceManager::new();
    for (i, row) in (0..count).zip(words[2..].chunks_exact(4)) {
        manager.address_space[i] = entry_of(row)?;
    }
    manager.count = count;
    manager.vtl2_pool = flag;
    Some(manager)
}

// Whether the count and the flag stand for something, in words of the right length.
fn head_good(words: &[u64]) -> bool
    ensures { result ≡ head_good words.now }
{
    words.len() == TABLE_WORDS && (words[0] <= MAX_ADDRESS_RANGES as u64 && words[1] <= 1)
}

// The table, where the words stand for one. What lies behind the count of entries is not looked at.
pub fn read_table(words: &[u64]) -> Option<AddressSpaceManager>
    ensures { result ≡ read_as (table_of words.now) }
{
    if !head_good(words) {
        return None;
    }
    read_entries(words, words[0] as usize, words[1] == 1)
}

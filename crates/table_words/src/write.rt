// A table written as words.
ghost use Rattle.std.specs.Prelude.{◌≡◌, length};
ghost use Rattle.std.proofs.lemmas.List.Edits.{sets};
ghost use Rattle.address_space.specs.Table.{entries_of, pool_of};
ghost use Rattle.table_words.specs.Table.{table_length, entries_words, written};

use crate::read::TABLE_WORDS;
use crate::usage::usage_word;
use address_space::AddressSpaceManager;

// Words from an index on; nothing is written past the end.
pub fn put_words(words: &mut [u64], at: usize, values: &[u64])
    ensures { words.new ≡ sets words.old at values.now }
{
    for (place, value) in (at..words.len()).zip(values) {
        words[place] = *value;
    }
}

// The entries, behind the count and the flag.
fn write_entries(words: &mut [u64], manager: &AddressSpaceManager)
    requires { length words.old ≡ table_length }
    ensures { words.new ≡ sets words.old 2 (entries_words (entries_of manager.now)) }
{
    for (i, entry) in manager.entries().iter().enumerate() {
        put_words(
            words,
            2 + 4 * i,
            &[
                entry.range.start,
                entry.range.end,
                u64::from(entry.vnode),
                usage_word(entry.usage),
            ],
        );
    }
}

// Words of another length than a table's are kept, and so are those behind the last entry.
pub fn write_table(words: &mut [u64], manager: &AddressSpaceManager)
    ensures { words.new ≡ written words.old (entries_of manager.now) (pool_of manager.now) }
{
    if words.len() != TABLE_WORDS {
        return;
    }
    words[0] = manager.len() as u64;
    words[1] = u64::from(manager.vtl2_pool);
    write_entries(words, manager);
}

// A table's ranges with their types, as words.
ghost use Rattle.std.specs.Prelude.{◌≡◌, length};
ghost use Rattle.std.proofs.lemmas.List.Edits.{sets};
ghost use Rattle.address_space.specs.List.{vtl2_ranges};
ghost use Rattle.address_space.specs.Table.{entries_of};
ghost use Rattle.table_calls.specs.Ranges.{ranges_words};

use address_space::{AddressSpaceManager, type_number};
use table_words::put_words;

// Three words for each range; a table has no more ranges than entries.
pub const RANGES_ROOM: usize = 768;

// Touching ranges of one type are joined. Answers how many ranges there are; nothing is written past the
// end.
pub fn write_vtl2_ranges(words: &mut [u64], manager: AddressSpaceManager) -> usize
    ensures { let ranges = vtl2_ranges (entries_of manager) in
        (result ≡ length ranges) × (words.new ≡ sets words.old 0 (ranges_words ranges)) }
{
    let list = manager.all_vtl2_ranges();
    for (i, found) in list.ranges[..list.count].iter().enumerate() {
        put_words(
            words,
            3 * i,
            &[
                found.range.start,
                found.range.end,
                u64::from(type_number(found.vtl_type)),
            ],
        );
    }
    list.count
}

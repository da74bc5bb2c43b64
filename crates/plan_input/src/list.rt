// Lists: the records of one word that follow one another. What a list has no room for is counted and
// looked at, and not stored.
ghost use Rattle.std.specs.Prelude.{◌≡◌, length, map};
ghost use Rattle.std.proofs.lemmas.List.Edits.{sets};
ghost use Rattle.plan_input.specs.Record.{records_at, Moved};
ghost use Rattle.plan_input.specs.Word.{words_first, behind_words};
ghost use Rattle.plan_input.specs.Range.{range_in};
ghost use Rattle.plan_input.specs.Entry.{entry_in};
ghost use Rattle.host_map.specs.Rows.{check_start, checked_all};

use crate::entry::entry_in;
use crate::range::range_in;
use crate::word::Cursor;
use host_map::RangeCheck;
use host_params::MemoryEntry;
use memory_range::{HasRange, MemoryRange, put};
use plan_record::Record;

// What the records of a word hold: an item each.
pub(crate) trait Item: HasRange + Copy {
    ghost use Rattle.plan_record.specs.declared.record.Record.{Record};

    ghost item_of: { Record → Self };

    fn item_of(record: Record) -> Self
        ensures { result ≡ item_of «record» };
}

impl Item for MemoryRange {
    ghost item_of = { range_in };

    fn item_of(record: Record) -> MemoryRange {
        range_in(record)
    }
}

impl Item for MemoryEntry {
    ghost item_of = { entry_in };

    fn item_of(record: Record) -> MemoryEntry {
        entry_in(record)
    }
}

// How many items there are, and rows 4 and 5 of their ranges.
#[derive(Clone, Copy)]
pub(crate) struct ListRead {
    pub count: usize,
    pub check: RangeCheck,
}

impl Cursor {
    pub(crate) fn read_list<T: Item>(&mut self, text: &[u8], place: u8, list: &mut [T]) -> ListRead
        ensures count { result.count ≡ length (map T.item_of (words_first place (records_at text.now self.old.at))) }
        ensures check { let items = map T.item_of (words_first place (records_at text.now self.old.at)) in
            result.check ≡ checked_all check_start (map T.HasRange.range_in items) }
        ensures moved { Moved text.now self.old self.new (behind_words place (records_at text.now self.old.at)) }
        ensures stored { list.new ≡ sets list.old 0 (map T.item_of (words_first place (records_at text.now self.old.at))) }
    {
        let mut count = 0;
        let mut check = RangeCheck::start();
        while let Some(record) = self.read_word(text, place) {
            let item = T::item_of(record);
            put(list, count, item);
            check = check.with(item.range());
            count += 1;
        }
        ListRead { count, check }
    }
}

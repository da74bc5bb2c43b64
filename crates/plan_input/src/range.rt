// A record that holds a range and nothing else.
ghost use Rattle.std.specs.Prelude.{◌≡◌};
ghost use Rattle.plan_input.specs.Record.{records_at, Moved};
ghost use Rattle.plan_input.specs.Word.{behind_word};
ghost use Rattle.plan_input.specs.Range.{range_in, range_first, or_empty};

use crate::word::Cursor;
use memory_range::MemoryRange;
use plan_record::Record;

// The places of such records' words among the fourteen words: numbers, as in the definitions.
pub(crate) const FILE: u8 = 1;

pub(crate) const IMPORT: u8 = 3;

pub(crate) const USED: u8 = 4;

pub(crate) const STATE: u8 = 5;

pub(crate) const CONFIG: u8 = 6;

pub(crate) const KEEP: u8 = 7;

pub(crate) const SIDE: u8 = 8;

pub(crate) const TABLES: u8 = 9;

pub(crate) const LOG: u8 = 10;

pub(crate) const GPOOL: u8 = 11;

// The range that a record holds. A record of another word is never asked for one.
pub(crate) fn range_in(record: Record) -> MemoryRange
    ensures { result ≡ range_in «record» }
{
    match record {
        Record::File(range)
        | Record::Import(range)
        | Record::Used(range)
        | Record::State(range)
        | Record::Config(range)
        | Record::Keep(range)
        | Record::Side(range)
        | Record::Tables(range)
        | Record::Log(range)
        | Record::Gpool(range) => range,
        Record::Shape(_) | Record::Mem(_) | Record::Pool(_) | Record::Get(_) => {
            MemoryRange { start: 0, end: 0 }
        }
    }
}

impl Cursor {
    // The range of the record here, if it is one of that word.
    pub(crate) fn read_range(&mut self, text: &[u8], place: u8) -> Option<MemoryRange>
        ensures value { result ≡ range_first place (records_at text.now self.old.at) }
        ensures moved { Moved text.now self.old self.new (behind_word place (records_at text.now self.old.at)) }
    {
        Some(range_in(self.read_word(text, place)?))
    }
}

// The range of a record that must stand.
pub(crate) fn or_empty(range: Option<MemoryRange>) -> MemoryRange
    ensures { result ≡ or_empty range }
{
    range.unwrap_or(MemoryRange { start: 0, end: 0 })
}

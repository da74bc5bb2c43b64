// A record of the host's map.
ghost use Rattle.std.specs.Prelude.{◌≡◌};
ghost use Rattle.plan_input.specs.Entry.{entry_in};

use host_map::no_entry;
use host_params::{MemoryEntry, MemoryMapEntryType};
use memory_range::MemoryRange;
use plan_record::Record;

// In a place of a map's array before an entry is stored there. Its bytes are all 0, so that such an array is cleared
// at once and not filled place by place.
pub const BLANK_ENTRY: MemoryEntry = MemoryEntry {
    range: MemoryRange { start: 0, end: 0 },
    vnode: 0,
    mem_type: MemoryMapEntryType::Vtl2Protectable,
};

// The place of its word among the fourteen words.
pub(crate) const MEM: u8 = 2;

// The entry that a record holds. A record of another word is never asked for one.
pub(crate) fn entry_in(record: Record) -> MemoryEntry
    ensures { result ≡ entry_in «record» }
{
    match record {
        Record::Mem(entry) => entry,
        _ => no_entry(),
    }
}

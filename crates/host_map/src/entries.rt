// The room of a map, an entry that stands for none, what an entry's type says, and a copy of a map.
ghost use Rattle.std.specs.Prelude.{◌≡◌, ◌<◌, ◌+◌, ◌%◌, [], set};
ghost use Rattle.host_map.specs.Map.{type_of, map_of, is_protectable, max_entries};
ghost use Rattle.host_map.specs.Rows.{checked_with};
ghost use Rattle.host_map.specs.Entries.{no_entry, no_entries, entries_held};

use crate::rows::RangeCheck;
use host_params::{MemoryEntry, MemoryMapEntryType};
use memory_range::MemoryRange;

pub const MAX_PARTITION_RAM_RANGES: usize = 1024;

// One above the bound, so that a list that is too long is refused by its row.
pub const MAP_ROOM: usize = MAX_PARTITION_RAM_RANGES + 1;

#[derive(Clone, Copy)]
pub struct Entries {
    // All entries, in order, where they are within the bound. A longer map is refused, and what is left of
    // it here is not looked at.
    pub entries: [MemoryEntry; MAX_PARTITION_RAM_RANGES],
    // How many entries the map has.
    pub count: usize,
    // Rows 4 and 5 of all of them.
    pub check: RangeCheck,
}

// In the place of an entry that is not there.
pub fn no_entry() -> MemoryEntry
    ensures { result ≡ no_entry }
{
    MemoryEntry {
        range: MemoryRange { start: 0, end: 0 },
        vnode: 0,
        mem_type: MemoryMapEntryType::Memory,
    }
}

pub fn is_protectable(mem_type: MemoryMapEntryType) -> bool
    ensures { result ≡ is_protectable mem_type }
{
    mem_type == MemoryMapEntryType::Vtl2Protectable
}

fn type_of(protectable: bool) -> MemoryMapEntryType
    ensures { result ≡ type_of protectable }
{
    if protectable {
        MemoryMapEntryType::Vtl2Protectable
    } else {
        MemoryMapEntryType::Memory
    }
}

fn no_entries() -> [MemoryEntry; MAX_PARTITION_RAM_RANGES]
    ensures { result ≡ no_entries }
{
    [no_entry(); MAX_PARTITION_RAM_RANGES]
}

impl Entries {
    // Of a map without entries.
    fn new() -> Entries
        ensures { result ≡ entries_held [] }
    {
        Entries {
            entries: no_entries(),
            count: 0,
            check: RangeCheck::start(),
        }
    }

    // Puts an entry behind the others, and looks at its range.
    fn put(&mut self, entry: MemoryEntry)
        requires { self.old.count < usize.MAX }
        ensures entries { self.new.entries ≡ set self.old.entries (self.old.count % max_entries) entry }
        ensures count { self.new.count ≡ self.old.count + 1 }
        ensures check { self.new.check ≡ checked_with self.old.check entry.range }
    {
        let place = self.count % MAX_PARTITION_RAM_RANGES;
        self.entries[place] = entry;
        self.count += 1;
        self.check = self.check.with(entry.range);
    }
}

// The map is lent as the caller's own list of entries.
pub fn copy_entries(map: &[MemoryEntry]) -> Entries
    ensures { result ≡ entries_held map.now }
{
    let mut held = Entries::new();
    for entry in map {
        held.put(*entry);
    }
    held
}

// The same from lists of the fields of the map's entries. Of lists that differ in length the shortest tells how
// many entries there are.
pub fn copy_lists(starts: &[u64], ends: &[u64], nodes: &[u32], protectable: &[bool]) -> Entries
    ensures { result ≡ entries_held (map_of starts.now ends.now nodes.now protectable.now) }
{
    let ranges = starts.len().min(ends.len());
    let count = ranges.min(nodes.len()).min(protectable.len());
    let mut held = Entries::new();
    for i in 0..count {
        held.put(MemoryEntry {
            range: MemoryRange {
                start: starts[i],
                end: ends[i],
            },
            vnode: nodes[i],
            mem_type: type_of(protectable[i]),
        });
    }
    held
}

// The split of the chosen entry.
ghost use Rattle.std.specs.Prelude.{◌≡◌, ◌+◌};
ghost use Rattle.address_space.specs.Split.{allotted, free_entry, handed_out, part_count, parts_of};

use crate::table::AddressRange;
use crate::usage::AddressUsage;
use host_params::AllocationPolicy;
use memory_range::MemoryRange;

// The part of a range that is handed out: low from the bottom, high from the top.
pub(crate) fn allotted_part(range: MemoryRange, len: u64, policy: AllocationPolicy) -> MemoryRange
    ensures { result ≡ allotted policy len range }
{
    match policy {
        AllocationPolicy::LowMemory => range.split_at_offset(len).left,
        AllocationPolicy::HighMemory => {
            if range.len() <= len {
                return range.split_at_offset(0).right;
            }
            range.split_at_offset(range.len() - len).right
        }
    }
}

// What a split leaves free.
fn free_entry(range: MemoryRange, vnode: u32) -> AddressRange
    ensures { result ≡ free_entry vnode range }
{
    AddressRange {
        range,
        vnode,
        usage: AddressUsage::Free,
    }
}

// What a split hands out.
fn handed_out(range: MemoryRange, vnode: u32, usage: AddressUsage) -> AddressRange
    ensures { result ≡ handed_out vnode usage range }
{
    AddressRange {
        range,
        vnode,
        usage,
    }
}

// How many entries a remainder needs.
fn part_count(start: u64, end: u64) -> usize
    ensures { result ≡ part_count start end }
{
    usize::from(start < end)
}

// How many entries the split adds to the table.
fn added_by(range: MemoryRange, used: MemoryRange) -> usize
    ensures { result ≡ part_count range.start used.start + part_count used.end range.end }
{
    part_count(range.start, used.start) + part_count(used.end, range.end)
}

// The parts of an entry that is split: the first and the last of them, the one handed out and how many
// are below it, and how many entries they add to the table.
#[derive(Clone, Copy)]
pub(crate) struct SplitParts {
    pub first: AddressRange,
    pub used: AddressRange,
    pub last: AddressRange,
    pub below: usize,
    pub added: usize,
}

pub(crate) fn split_parts(entry: AddressRange, used: MemoryRange, usage: AddressUsage) -> SplitParts
    ensures { result ≡ parts_of used usage entry }
{
    let handed = handed_out(used, entry.vnode, usage);
    let mut first = handed;
    let mut last = handed;
    if entry.range.start < used.start {
        let range = MemoryRange {
            start: entry.range.start,
            end: used.start,
        };
        first = free_entry(range, entry.vnode);
    }
    if used.end < entry.range.end {
        let range = MemoryRange {
            start: used.end,
            end: entry.range.end,
        };
        last = free_entry(range, entry.vnode);
    }
    SplitParts {
        first,
        used: handed,
        last,
        below: part_count(entry.range.start, used.start),
        added: added_by(entry.range, used),
    }
}

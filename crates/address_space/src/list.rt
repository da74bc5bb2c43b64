// The lists that are reported: each step answers the next item from an index of the table on, and the
// index to go on from. The joined ranges are answered all at once too.
ghost use Rattle.std.specs.Prelude.{◌≡◌, length, take, drop};
ghost use Rattle.address_space.specs.List.{continues_at, is_free_on, numbered_range, numbered_ranges, typed_range, vtl2_ranges, vtl2_stepped, reserved_ranges, reserved_stepped, free_ranges, free_stepped};
ghost use Rattle.address_space.specs.Table.{entries_of};
ghost use Rattle.address_space.specs.Usage.{type_number};

use crate::table::{AddressRange, AddressSpaceManager, MAX_ADDRESS_RANGES};
use crate::usage::{AddressUsage, ReservedMemoryType};
use host_params::MemoryVtlType;
use memory_range::MemoryRange;

#[derive(Clone, Copy)]
pub struct Vtl2Range {
    pub range: MemoryRange,
    pub vtl_type: MemoryVtlType,
}

// The first `count` of them are the list. Callers hand the array on.
#[derive(Clone, Copy)]
pub struct Vtl2Ranges {
    pub ranges: [Vtl2Range; MAX_ADDRESS_RANGES],
    pub count: usize,
}

#[derive(Clone, Copy)]
pub struct ReservedRange {
    pub range: MemoryRange,
    pub reserved_type: ReservedMemoryType,
}

// Whether an entry goes on where a range of that type ends.
fn continues_at(end: u64, vtl_type: MemoryVtlType, entry: AddressRange) -> bool
    ensures { result ≡ continues_at end (type_number vtl_type) entry }
{
    end == entry.range.start && vtl_type == entry.usage.vtl_type()
}

// The range of an entry, with its type.
fn vtl2_range(entry: AddressRange) -> Vtl2Range
    ensures { numbered_range result ≡ typed_range entry }
{
    Vtl2Range {
        range: entry.range,
        vtl_type: entry.usage.vtl_type(),
    }
}

fn is_free_on(vnode: u32, entry: AddressRange) -> bool
    ensures { result ≡ is_free_on vnode entry }
{
    entry.vnode == vnode && entry.usage.is_free()
}

impl AddressSpaceManager {
    // All ranges with their types, touching ones of one type joined.
    pub fn vtl2_ranges(self, at: usize) -> Option<(Vtl2Range, usize)>
        ensures { vtl2_ranges (drop at (entries_of self)) ≡ vtl2_stepped (entries_of self) result }
    {
        let entries = self.entries();
        let mut current = vtl2_range(*entries.get(at)?);
        for next in at + 1..entries.len() {
            let entry = entries[next];
            if !continues_at(current.range.end, current.vtl_type, entry) {
                return Some((current, next));
            }
            current.range.end = entry.range.end;
        }
        Some((current, entries.len()))
    }

    // The same, all at once: a call copies the table, so a caller that wants all of them makes one.
    pub fn all_vtl2_ranges(self) -> Vtl2Ranges
        ensures { (numbered_ranges (take result.count result.ranges) ≡ vtl2_ranges (entries_of self)) × (result.count ≡ length (vtl2_ranges (entries_of self))) }
    {
        let none = Vtl2Range {
            range: MemoryRange { start: 0, end: 0 },
            vtl_type: MemoryVtlType::Ram,
        };
        let mut list = Vtl2Ranges {
            ranges: [none; MAX_ADDRESS_RANGES],
            count: 0,
        };
        let entries = self.entries();
        let Some(first) = entries.first() else {
            return list;
        };
        let mut current = vtl2_range(*first);
        let mut found = 0;
        for next in 1..entries.len() {
            let entry = entries[next];
            if continues_at(current.range.end, current.vtl_type, entry) {
                current.range.end = entry.range.end;
            } else {
                list.ranges[found] = current;
                found += 1;
                current = vtl2_range(entry);
            }
        }
        list.ranges[found] = current;
        list.count = found + 1;
        list
    }

    // The reserved entries, which the kernel is not to take for RAM.
    pub fn reserved_vtl2_ranges(self, at: usize) -> Option<(ReservedRange, usize)>
        ensures { reserved_ranges (drop at (entries_of self)) ≡ reserved_stepped (entries_of self) result }
    {
        for next in at..self.len() {
            let entry = self.address_space[next];
            if let AddressUsage::Reserved(reserved_type) = entry.usage {
                let range = entry.range;
                return Some((
                    ReservedRange {
                        range,
                        reserved_type,
                    },
                    next + 1,
                ));
            }
        }
        None
    }

    // The free entries of a node.
    pub fn free_ranges(self, vnode: u32, at: usize) -> Option<(MemoryRange, usize)>
        ensures { free_ranges vnode (drop at (entries_of self)) ≡ free_stepped vnode (entries_of self) result }
    {
        for next in at..self.len() {
            let entry = self.address_space[next];
            if is_free_on(vnode, entry) {
                return Some((entry.range, next + 1));
            }
        }
        None
    }
}

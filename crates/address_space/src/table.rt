// The table.
ghost use Rattle.std.specs.Prelude.{◌≡◌, length};
ghost use Rattle.address_space.specs.Table.{entries_of, pool_of, empty_table};

use crate::usage::AddressUsage;
use memory_range::MemoryRange;

pub const MAX_ADDRESS_RANGES: usize = 256;

// An entry of the table.
#[derive(Clone, Copy)]
pub struct AddressRange {
    pub range: MemoryRange,
    pub vnode: u32,
    pub usage: AddressUsage,
}

// A list with room for 256 entries, in an array with a count: no heap, and by value, as document 01 wants
// the table handed in and out.
#[derive(Clone, Copy)]
pub struct AddressSpaceManager {
    // The first `count` of them are the table, in order of address where a build made it.
    pub address_space: [AddressRange; MAX_ADDRESS_RANGES],
    pub count: usize,
    // Whether the private pool has a range.
    pub vtl2_pool: bool,
}

impl AddressSpaceManager {
    // A table without entries.
    pub fn new() -> AddressSpaceManager
        ensures { result ≡ empty_table }
    {
        let none = AddressRange {
            range: MemoryRange { start: 0, end: 0 },
            vnode: 0,
            usage: AddressUsage::Free,
        };
        AddressSpaceManager {
            address_space: [none; MAX_ADDRESS_RANGES],
            count: 0,
            vtl2_pool: false,
        }
    }

    // The number of entries.
    pub fn len(self) -> usize
        ensures { result ≡ length (entries_of self) }
    {
        self.count.min(MAX_ADDRESS_RANGES)
    }

    // The entries.
    pub fn entries(&self) -> &[AddressRange]
        ensures { result.now ≡ entries_of self.now }
    {
        &self.address_space[..self.count.min(MAX_ADDRESS_RANGES)]
    }

    // Whether the private pool has a range.
    pub fn has_vtl2_pool(self) -> bool
        ensures { result ≡ pool_of self }
    {
        self.vtl2_pool
    }
}

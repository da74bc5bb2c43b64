// The plain types that several layers of the planner share, by the Rust's names: what the host and
// the command line say of a guest, what a request for memory asks, and what memory is for.
#![tactic(auto)]

use memory_range::{HasRange, MemoryRange};

// The RAM of VTL2 has at most so many entries.
pub const MAX_VTL2_RAM_RANGES: usize = 64;

// Who chooses the RAM of VTL2: the host, or the boot shim from the host's map.
#[derive(Clone, Copy, PartialEq, Eq)]
pub enum MemoryAllocationMode {
    Host,
    Vtl2,
}

#[derive(Clone, Copy, PartialEq, Eq)]
pub enum IsolationType {
    None,
    Vbs,
    Snp,
    Tdx,
    Cca,
}

#[derive(Clone, Copy, PartialEq, Eq)]
pub enum MemoryMapEntryType {
    // Memory that the host keeps for VTL2.
    Vtl2Protectable,
    // Any other memory.
    Memory,
}

// An entry of the host's map.
#[derive(Clone, Copy)]
pub struct MemoryEntry {
    pub range: MemoryRange,
    pub vnode: u32,
    pub mem_type: MemoryMapEntryType,
}

impl HasRange for MemoryEntry {
    ghost use Rattle.std.proofs.Common.{arith};

    ghost range_in = { λ e. e.range };

    ghost sized = { omega arith };

    fn range(self) -> MemoryRange {
        self.range
    }
}

// Which table sizes the private pool.
#[derive(Clone, Copy, PartialEq, Eq)]
pub enum Vtl2GpaPoolLookupTable {
    Release,
    Debug,
}

#[derive(Clone, Copy, PartialEq, Eq)]
pub enum Vtl2GpaPoolConfig {
    // Sized by a lookup table, unless the host gives a size.
    Heuristics(Vtl2GpaPoolLookupTable),
    // No pool.
    Off,
    // That many pages.
    Pages(u64),
}

#[derive(Clone, Copy, PartialEq, Eq)]
pub enum AllocationPolicy {
    LowMemory,
    HighMemory,
}

#[derive(Clone, Copy, PartialEq, Eq)]
pub enum AllocationType {
    GpaPool,
    SidecarNode,
    TdxPageTables,
}

// What a range of the RAM is for, as it is reported. Free and used RAM is `Ram`.
#[derive(Clone, Copy, PartialEq, Eq)]
pub enum MemoryVtlType {
    Ram,
    Config,
    SidecarImage,
    SidecarNode,
    Reserved,
    GpaPool,
    TdxPageTables,
    BootshimLogBuffer,
    PersistedStateHeader,
    PersistedStatePayload,
}

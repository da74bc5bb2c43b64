// Numbers for what memory is for, as bindings/bootplan.h has them for an entry of a table. Memory that is
// reported as RAM has the number of free memory.
use address_space::{AddressUsage, ReservedMemoryType};
use host_params::MemoryVtlType;

fn reserved(number: u64) -> ReservedMemoryType {
    match number {
        2 => ReservedMemoryType::Vtl2Config,
        3 => ReservedMemoryType::Vtl2Reserved,
        4 => ReservedMemoryType::SidecarImage,
        5 => ReservedMemoryType::SidecarNode,
        6 => ReservedMemoryType::Vtl2GpaPool,
        7 => ReservedMemoryType::TdxPageTables,
        8 => ReservedMemoryType::BootshimLogBuffer,
        9 => ReservedMemoryType::PersistedStateHeader,
        _ => ReservedMemoryType::PersistedStatePayload,
    }
}

pub(crate) fn usage(number: u64) -> AddressUsage {
    match number {
        0 => AddressUsage::Free,
        1 => AddressUsage::Used,
        _ => AddressUsage::Reserved(reserved(number)),
    }
}

pub(crate) fn reserved_number(reserved: ReservedMemoryType) -> u64 {
    match reserved {
        ReservedMemoryType::Vtl2Config => 2,
        ReservedMemoryType::Vtl2Reserved => 3,
        ReservedMemoryType::SidecarImage => 4,
        ReservedMemoryType::SidecarNode => 5,
        ReservedMemoryType::Vtl2GpaPool => 6,
        ReservedMemoryType::TdxPageTables => 7,
        ReservedMemoryType::BootshimLogBuffer => 8,
        ReservedMemoryType::PersistedStateHeader => 9,
        ReservedMemoryType::PersistedStatePayload => 10,
    }
}

pub(crate) fn usage_number(usage: AddressUsage) -> u64 {
    match usage {
        AddressUsage::Free => 0,
        AddressUsage::Used => 1,
        AddressUsage::Reserved(reserved) => reserved_number(reserved),
    }
}

pub(crate) fn vtl_type_number(vtl_type: MemoryVtlType) -> u64 {
    match vtl_type {
        MemoryVtlType::Ram => 0,
        MemoryVtlType::Config => 2,
        MemoryVtlType::Reserved => 3,
        MemoryVtlType::SidecarImage => 4,
        MemoryVtlType::SidecarNode => 5,
        MemoryVtlType::GpaPool => 6,
        MemoryVtlType::TdxPageTables => 7,
        MemoryVtlType::BootshimLogBuffer => 8,
        MemoryVtlType::PersistedStateHeader => 9,
        MemoryVtlType::PersistedStatePayload => 10,
    }
}

// A number that may be absent: the second of two words, where the first is 1.
pub(crate) fn optional(is_given: u64, number: u64) -> Option<u64> {
    (is_given != 0).then_some(number)
}

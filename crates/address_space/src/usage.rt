// What a range of the RAM is used for.
ghost use Rattle.std.specs.Prelude.{◌≡◌};
ghost use Rattle.address_space.specs.Usage.{is_free, reserved_vtl_type, vtl_type_of, type_number, reserved_number_of, usage_of, usage_for, is_pool};

use host_params::{AllocationType, MemoryVtlType};

#[derive(Clone, Copy)]
pub enum ReservedMemoryType {
    // VTL2's parameters.
    Vtl2Config,
    // Kept from the kernel and from user mode.
    Vtl2Reserved,
    SidecarImage,
    // One for each node that a sidecar serves.
    SidecarNode,
    // The private pool, which outlives a servicing.
    Vtl2GpaPool,
    // Page tables to start processors with, on TDX.
    TdxPageTables,
    BootshimLogBuffer,
    PersistedStateHeader,
    PersistedStatePayload,
}

#[derive(Clone, Copy)]
pub enum AddressUsage {
    // Free to be handed out.
    Free,
    // Held by the boot shim; the kernel takes it over.
    Used,
    // Kept out of the RAM that the kernel is told of.
    Reserved(ReservedMemoryType),
}

impl ReservedMemoryType {
    // The type that the kernel is told.
    pub fn vtl_type(self) -> MemoryVtlType
        ensures { result ≡ reserved_vtl_type self }
    {
        match self {
            ReservedMemoryType::Vtl2Config => MemoryVtlType::Config,
            ReservedMemoryType::Vtl2Reserved => MemoryVtlType::Reserved,
            ReservedMemoryType::SidecarImage => MemoryVtlType::SidecarImage,
            ReservedMemoryType::SidecarNode => MemoryVtlType::SidecarNode,
            ReservedMemoryType::Vtl2GpaPool => MemoryVtlType::GpaPool,
            ReservedMemoryType::TdxPageTables => MemoryVtlType::TdxPageTables,
            ReservedMemoryType::BootshimLogBuffer => MemoryVtlType::BootshimLogBuffer,
            ReservedMemoryType::PersistedStateHeader => MemoryVtlType::PersistedStateHeader,
            ReservedMemoryType::PersistedStatePayload => MemoryVtlType::PersistedStatePayload,
        }
    }
}

impl AddressUsage {
    pub fn is_free(self) -> bool
        ensures { result ≡ is_free self }
    {
        matches!(self, AddressUsage::Free)
    }

    // The type that the kernel is told: free and used memory is RAM to it.
    pub fn vtl_type(self) -> MemoryVtlType
        ensures { result ≡ vtl_type_of self }
    {
        match self {
            AddressUsage::Free => MemoryVtlType::Ram,
            AddressUsage::Used => MemoryVtlType::Ram,
            AddressUsage::Reserved(reserved) => reserved.vtl_type(),
        }
    }
}

// The number of what is used and not reserved.
pub const USED: u32 = 0;

// A number for each type: a range in a list of tagged ranges carries it, in the definitions as well.
pub fn type_number(vtl_type: MemoryVtlType) -> u32
    ensures { result ≡ type_number vtl_type }
{
    match vtl_type {
        MemoryVtlType::Ram => 0,
        MemoryVtlType::Config => 1,
        MemoryVtlType::Reserved => 2,
        MemoryVtlType::SidecarImage => 3,
        MemoryVtlType::SidecarNode => 4,
        MemoryVtlType::GpaPool => 5,
        MemoryVtlType::TdxPageTables => 6,
        MemoryVtlType::BootshimLogBuffer => 7,
        MemoryVtlType::PersistedStateHeader => 8,
        MemoryVtlType::PersistedStatePayload => 9,
    }
}

// The number of a reserved type, as a range in a list of tagged ranges carries it.
pub fn reserved_number(reserved: ReservedMemoryType) -> u32
    ensures { result ≡ reserved_number_of reserved }
{
    type_number(reserved.vtl_type())
}

// Of a number that no reserved type has, used.
#[tactic(auto, unfolding(crate::specs::Usage::usage_of))]
pub fn usage_of(number: u32) -> AddressUsage
    ensures { result ≡ usage_of number }
{
    match number {
        1 => AddressUsage::Reserved(ReservedMemoryType::Vtl2Config),
        2 => AddressUsage::Reserved(ReservedMemoryType::Vtl2Reserved),
        3 => AddressUsage::Reserved(ReservedMemoryType::SidecarImage),
        4 => AddressUsage::Reserved(ReservedMemoryType::SidecarNode),
        5 => AddressUsage::Reserved(ReservedMemoryType::Vtl2GpaPool),
        6 => AddressUsage::Reserved(ReservedMemoryType::TdxPageTables),
        7 => AddressUsage::Reserved(ReservedMemoryType::BootshimLogBuffer),
        8 => AddressUsage::Reserved(ReservedMemoryType::PersistedStateHeader),
        9 => AddressUsage::Reserved(ReservedMemoryType::PersistedStatePayload),
        _ => AddressUsage::Used,
    }
}

// What a range is used for once it is handed out.
pub(crate) fn usage_for(allocation_type: AllocationType) -> AddressUsage
    ensures { result ≡ usage_for allocation_type }
{
    match allocation_type {
        AllocationType::GpaPool => AddressUsage::Reserved(ReservedMemoryType::Vtl2GpaPool),
        AllocationType::SidecarNode => AddressUsage::Reserved(ReservedMemoryType::SidecarNode),
        AllocationType::TdxPageTables => AddressUsage::Reserved(ReservedMemoryType::TdxPageTables),
    }
}

pub(crate) fn is_pool(allocation_type: AllocationType) -> bool
    ensures { result ≡ is_pool allocation_type }
{
    matches!(allocation_type, AllocationType::GpaPool)
}

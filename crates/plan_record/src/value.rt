// The values of single fields: words, numbers that may be absent, nodes.
ghost use Rattle.std.specs.Prelude.{◌≡◌, take};
ghost use Rattle.plan_fields.specs.Cut.{first_of};
ghost use Rattle.plan_fields.specs.Word.{same_bytes};
ghost use Rattle.plan_record.specs.Value.{mode_of, isolation_of, entry_type_of, policy_of, kind_of, split_of};
ghost use Rattle.plan_record.specs.Value.{absent_first, optional_of, node_from, optional_node_from, config_of};

use host_params::{
    AllocationPolicy, AllocationType, IsolationType, MemoryAllocationMode, MemoryMapEntryType,
    Vtl2GpaPoolConfig, Vtl2GpaPoolLookupTable,
};
use plan_fields::{first_number, read_number, same_bytes, word_value};

const MODES: [(&[u8], MemoryAllocationMode); 2] = [
    (b"h", MemoryAllocationMode::Host),
    (b"b", MemoryAllocationMode::Vtl2),
];

pub(crate) fn read_mode(field: &[u8]) -> Option<MemoryAllocationMode>
    ensures { result ≡ mode_of field.now }
{
    word_value(field, &MODES)
}

const ISOLATIONS: [(&[u8], IsolationType); 5] = [
    (b"none", IsolationType::None),
    (b"vbs", IsolationType::Vbs),
    (b"snp", IsolationType::Snp),
    (b"tdx", IsolationType::Tdx),
    (b"cca", IsolationType::Cca),
];

pub(crate) fn read_isolation(field: &[u8]) -> Option<IsolationType>
    ensures { result ≡ isolation_of field.now }
{
    word_value(field, &ISOLATIONS)
}

const ENTRY_TYPES: [(&[u8], MemoryMapEntryType); 2] = [
    (b"p", MemoryMapEntryType::Vtl2Protectable),
    (b"o", MemoryMapEntryType::Memory),
];

pub(crate) fn read_entry_type(field: &[u8]) -> Option<MemoryMapEntryType>
    ensures { result ≡ entry_type_of field.now }
{
    word_value(field, &ENTRY_TYPES)
}

const POLICIES: [(&[u8], AllocationPolicy); 2] = [
    (b"l", AllocationPolicy::LowMemory),
    (b"h", AllocationPolicy::HighMemory),
];

pub(crate) fn read_policy(field: &[u8]) -> Option<AllocationPolicy>
    ensures { result ≡ policy_of field.now }
{
    word_value(field, &POLICIES)
}

const KINDS: [(&[u8], AllocationType); 3] = [
    (b"p", AllocationType::GpaPool),
    (b"s", AllocationType::SidecarNode),
    (b"t", AllocationType::TdxPageTables),
];

pub(crate) fn read_kind(field: &[u8]) -> Option<AllocationType>
    ensures { result ≡ kind_of field.now }
{
    word_value(field, &KINDS)
}

const SPLITS: [(&[u8], bool); 2] = [(b"y", true), (b"n", false)];

pub(crate) fn read_split(field: &[u8]) -> Option<bool>
    ensures { result ≡ split_of field.now }
{
    word_value(field, &SPLITS)
}

// A number, or `-`.
pub(crate) fn read_optional(field: &[u8]) -> Option<Option<u64>>
    ensures { result ≡ optional_of field.now }
{
    if same_bytes(field, b"-") {
        return Some(None);
    }
    Some(Some(read_number(field)?))
}

// A number, or `-`, as the first of several fields, and the size of that field.
pub(crate) fn first_optional(fields: &[u8]) -> Option<(Option<u64>, usize)>
    ensures { result ≡ first_of optional_of fields.now }
{
    if fields.starts_with(b"-\t") {
        return Some((None, 1));
    }
    let (number, size) = first_number(fields)?;
    Some((Some(number), size))
}

// A number of 32 bits.
pub(crate) fn read_node(number: u64) -> Option<u32>
    ensures { result ≡ node_from number }
{
    u32::try_from(number).ok()
}

// A node, or that it is absent.
pub(crate) fn read_optional_node(number: Option<u64>) -> Option<Option<u32>>
    ensures { result ≡ optional_node_from number }
{
    let Some(number) = number else {
        return Some(None);
    };
    Some(Some(read_node(number)?))
}

const KINDS_WITHOUT_PAGES: [(&[u8], Vtl2GpaPoolConfig); 3] = [
    (b"off", Vtl2GpaPoolConfig::Off),
    (
        b"release",
        Vtl2GpaPoolConfig::Heuristics(Vtl2GpaPoolLookupTable::Release),
    ),
    (
        b"debug",
        Vtl2GpaPoolConfig::Heuristics(Vtl2GpaPoolLookupTable::Debug),
    ),
];

// The kind of pool with its pages, which are `-` exactly unless the kind is `pages`.
pub(crate) fn read_pool_config(kind: &[u8], pages: &[u8]) -> Option<Vtl2GpaPoolConfig>
    ensures { result ≡ config_of kind.now pages.now }
{
    if same_bytes(kind, b"pages") {
        return Some(Vtl2GpaPoolConfig::Pages(read_number(pages)?));
    }
    if !same_bytes(pages, b"-") {
        return None;
    }
    word_value(kind, &KINDS_WITHOUT_PAGES)
}

// The reserved ranges.
ghost use Rattle.std.specs.Prelude.{◌≡◌, ◌++◌, ◌∷◌, [], ◌+◌, ◌≤◌, ◌<◌, length};
ghost use Rattle.arrayvec.specs.ArrayVec.{array_vec_len};
ghost use Rattle.memory.specs.Builder.{option_count, option_as, all_as, given_range, options_of, reserved_as, reserved_of, reserved_count};
ghost use Rattle.memory.specs.Rows.{max_reserved};

use crate::builder::AddressSpaceManagerBuilder;
use crate::rows::MAX_RESERVED_RANGES;
use address_space::{ReservedMemoryType, reserved_number};
use arrayvec::ArrayVec;
use memory_range::{MemoryRange, PAGE_SIZE, TaggedRange};

pub(crate) type ReservedList = ArrayVec<TaggedRange, MAX_RESERVED_RANGES>;

fn reserved_as(reserved: ReservedMemoryType, range: MemoryRange) -> TaggedRange
    ensures { result ≡ reserved_as reserved range }
{
    TaggedRange {
        range,
        tag: reserved_number(reserved),
    }
}

// Puts the ranges of a list behind those that are there.
pub(crate) fn push_all<const N: usize>(
    list: &mut ArrayVec<TaggedRange, N>,
    reserved: ReservedMemoryType,
    ranges: &[MemoryRange],
)
    requires { array_vec_len list.old + length ranges.now ≤ N }
    ensures { list.new.items ≡ list.old.items ++ all_as reserved ranges.now }
{
    for range in ranges {
        list.push(reserved_as(reserved, *range));
    }
}

// Puts a range, if there is one, behind those that are there.
fn push_option(list: &mut ReservedList, reserved: ReservedMemoryType, range: Option<MemoryRange>)
    requires { array_vec_len list.old + option_count range ≤ max_reserved }
    ensures { list.new.items ≡ list.old.items ++ option_as reserved range }
{
    if let Some(range) = range {
        list.push(reserved_as(reserved, range));
    }
}

// A range that has bytes.
fn given_range(range: MemoryRange) -> Option<MemoryRange>
    ensures { result ≡ given_range range }
{
    if range.start < range.end {
        return Some(range);
    }
    None
}

// Puts the optional ranges that are given behind those that are there.
fn push_options(list: &mut ReservedList, builder: AddressSpaceManagerBuilder)
    requires { array_vec_len list.old + length (options_of builder) ≤ max_reserved }
    ensures { list.new.items ≡ list.old.items ++ options_of builder }
{
    push_option(
        list,
        ReservedMemoryType::Vtl2Reserved,
        builder.reserved_range,
    );
    push_option(
        list,
        ReservedMemoryType::SidecarImage,
        builder.sidecar_image,
    );
    push_option(list, ReservedMemoryType::TdxPageTables, builder.page_tables);
    push_option(
        list,
        ReservedMemoryType::BootshimLogBuffer,
        builder.log_buffer,
    );
}

// Lists the reserved ranges, in the order of their kinds.
pub(crate) fn list_reserved(
    builder: AddressSpaceManagerBuilder,
    configs: &[MemoryRange],
    list: &mut ReservedList,
)
    requires { reserved_count builder configs.now ≤ max_reserved }
    ensures { list.new.items ≡ reserved_of builder configs.now }
{
    let state = builder.persisted_state_region.split_at_offset(PAGE_SIZE);
    list.clear();
    list.push(reserved_as(ReservedMemoryType::PersistedStateHeader, state.left));
    push_option(
        list,
        ReservedMemoryType::PersistedStatePayload,
        given_range(state.right),
    );
    push_all(list, ReservedMemoryType::Vtl2Config, configs);
    push_options(list, builder);
}

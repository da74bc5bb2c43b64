// The checks of a selection's lists.
ghost use Rattle.std.specs.Prelude.{◌≡◌};
ghost use Rattle.refusal.specs.Answer.{rows_as};
ghost use Rattle.host_map.specs.Map.{map_ranges};
ghost use Rattle.vtl2_ram.specs.Rows.{counts_good, rows_known, rows_refusal};

use host_map::{MAX_PARTITION_RAM_RANGES, RangeCheck, check_ranges};
use host_params::{MemoryAllocationMode, MemoryEntry};
use memory_range::{MemoryRange, ranges_ascend, ranges_valid};
use refusal::Refusal;

const MAX_IMPORTS: usize = 256;

fn counts_good(mode: MemoryAllocationMode, map_count: usize, import_count: usize) -> bool
    ensures { result ≡ counts_good mode map_count import_count }
{
    map_count <= MAX_PARTITION_RAM_RANGES
        && import_count <= MAX_IMPORTS
        && !(mode == MemoryAllocationMode::Vtl2 && map_count == 0)
}

// Row 4 over all ranges, then 5 over both lists, then 6. Of the map it is known what was seen of its ranges.
#[tactic(auto, unfolding(crate::specs::Rows::rows_known))]
pub(crate) fn check_known(
    mode: MemoryAllocationMode,
    file: MemoryRange,
    map_check: RangeCheck,
    map_count: usize,
    imports: &[MemoryRange],
) -> Result<(), Refusal>
    ensures { result ≡ rows_as (rows_known mode file map_check.valid map_check.ascending map_count imports.now) }
{
    if !(file.is_valid() && map_check.valid && ranges_valid(imports)) {
        return Err(Refusal::RangeInvalid);
    }
    if !(map_check.ascending && ranges_ascend(imports)) {
        return Err(Refusal::RangesNotAscending);
    }
    if !counts_good(mode, map_count, imports.len()) {
        return Err(Refusal::MapCount);
    }
    Ok(())
}

pub(crate) fn check_rows(
    mode: MemoryAllocationMode,
    file: MemoryRange,
    map: &[MemoryEntry],
    imports: &[MemoryRange],
) -> Result<(), Refusal>
    ensures { result ≡ rows_as (rows_refusal mode file (map_ranges map.now) imports.now) }
{
    check_known(mode, file, check_ranges(map), map.len(), imports)
}

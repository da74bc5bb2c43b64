// Selection: the rows of the chart are looked at in turn, and then boot or host mode chooses.
ghost use Rattle.std.specs.Prelude.{◌≡◌, take};
ghost use Rattle.host_map.specs.Map.{map_of, entries_in};
ghost use Rattle.boot_nodes.specs.Node.{nodes_in, nodes_held};
ghost use Rattle.vtl2_ram.specs.Boot.{RowsPassed};
ghost use Rattle.vtl2_ram.specs.Copied.{copied_map, Copied, choice_copied};
ghost use Rattle.vtl2_ram.specs.Ram.{ram_as};
ghost use Rattle.vtl2_ram.specs.Select.{choice_by, choice};

use crate::boot::allocate_vtl2_ram;
use crate::host::parse_host_vtl2_ram;
use crate::ram::Vtl2Ram;
use crate::rows::{check_known, check_rows};
use host_map::{Entries, MAP_ROOM, copy_lists};
use host_params::{IsolationType, MemoryAllocationMode, MemoryEntry};
use memory_range::MemoryRange;
use refusal::Refusal;

// The mode's own choice, once rows 4 to 6 are passed.
fn select_passed(
    mode: MemoryAllocationMode,
    isolation: IsolationType,
    ram_size: Option<u64>,
    file: MemoryRange,
    map: &[MemoryEntry],
    imports: &[MemoryRange],
) -> Result<Vtl2Ram, Refusal>
    requires { RowsPassed file (entries_in map.now) imports.now }
    ensures { result ≡ ram_as (choice_by mode isolation ram_size file map.now imports.now) }
{
    match mode {
        MemoryAllocationMode::Host => parse_host_vtl2_ram(isolation, file, map),
        MemoryAllocationMode::Vtl2 => allocate_vtl2_ram(isolation, ram_size, file, map, imports),
    }
}

// The RAM of VTL2, or the refusal, from the host's map as the caller lends it.
pub fn select_vtl2_ram(
    mode: MemoryAllocationMode,
    isolation: IsolationType,
    ram_size: Option<u64>,
    file: MemoryRange,
    map: &[MemoryEntry],
    imports: &[MemoryRange],
) -> Result<Vtl2Ram, Refusal>
    ensures { result ≡ ram_as (choice mode isolation ram_size file map.now imports.now) }
{
    check_rows(mode, file, map, imports)?;
    select_passed(mode, isolation, ram_size, file, map, imports)
}

// The same from the first entries of an array, for a caller that holds the map by value.
pub fn select_from_array(
    mode: MemoryAllocationMode,
    isolation: IsolationType,
    ram_size: Option<u64>,
    file: MemoryRange,
    map: [MemoryEntry; MAP_ROOM],
    count: usize,
    imports: &[MemoryRange],
) -> Result<Vtl2Ram, Refusal>
    ensures { result ≡ ram_as (choice mode isolation ram_size file (take count map) imports.now) }
{
    let entries = &map[..count.min(MAP_ROOM)];
    select_vtl2_ram(mode, isolation, ram_size, file, entries, imports)
}

// From a copy of the map: the rows, by what was seen of it, and then the mode's own choice.
fn select_copied(
    mode: MemoryAllocationMode,
    isolation: IsolationType,
    ram_size: Option<u64>,
    file: MemoryRange,
    map: &Entries,
    imports: &[MemoryRange],
) -> Result<Vtl2Ram, Refusal>
    requires { let nodes = nodes_held (nodes_in (copied_map map.now)) in Copied map.now nodes }
    ensures { result ≡ ram_as (choice_copied mode isolation ram_size file map.now imports.now) }
{
    check_known(mode, file, map.check, map.count, imports)?;
    let entries = &map.entries[..map.count];
    select_passed(mode, isolation, ram_size, file, entries, imports)
}

// The same from lists of the fields of the map's entries, for a caller that holds them so. Of lists that differ
// in length the shortest tells how many entries there are.
pub fn select_from_lists(
    mode: MemoryAllocationMode,
    isolation: IsolationType,
    ram_size: Option<u64>,
    file: MemoryRange,
    map_starts: &[u64],
    map_ends: &[u64],
    map_nodes: &[u32],
    map_protectable: &[bool],
    imports: &[MemoryRange],
) -> Result<Vtl2Ram, Refusal>
    ensures { let map = map_of map_starts.now map_ends.now map_nodes.now map_protectable.now in
        result ≡ ram_as (choice mode isolation ram_size file map imports.now) }
{
    let copy = copy_lists(map_starts, map_ends, map_nodes, map_protectable);
    select_copied(mode, isolation, ram_size, file, &copy, imports)
}

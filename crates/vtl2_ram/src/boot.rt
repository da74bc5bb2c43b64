// Boot mode: the shim chooses from the host's map.
ghost use Rattle.std.specs.Prelude.{◌≡◌, ℕ};
ghost use Rattle.boot_nodes.specs.Share.{share_of};
ghost use Rattle.boot_nodes.specs.Node.{count_up};
ghost use Rattle.host_map.specs.Map.{entries_in};
ghost use Rattle.vtl2_ram.specs.Ram.{ram_as};
ghost use Rattle.vtl2_ram.specs.Boot.{size_wanted, share_as, share_too_large_for, share_refusal, RowsPassed, boot_parts, boot_choice};

use crate::ram::{Vtl2Ram, chosen_ram};
use arrayvec::ArrayVec;
use boot_nodes::{numa_node_count, numa_nodes, ram_per_node};
use boot_ram::{imports_clear, walk_file, walk_imports};
use boot_take::take_ram;
use host_params::{IsolationType, MemoryEntry};
use memory_range::MemoryRange;
use range_lists::sort_by_start;
use refusal::Refusal;

// Each node's share.
fn share_of(vtl2_size: u64, numa_node_count: usize) -> Result<u64, Refusal>
    ensures { result ≡ share_as (share_too_large_for vtl2_size numa_node_count) (share_of vtl2_size numa_node_count) }
{
    ram_per_node(vtl2_size, numa_node_count).ok_or(Refusal::ShareTooLarge)
}

// The RAM size is the host's, or the file's where the host gives none.
fn node_share(
    ram_size: Option<u64>,
    file: MemoryRange,
    numa_node_count: usize,
) -> Result<u64, Refusal>
    ensures { result ≡ share_as (share_refusal ram_size file numa_node_count) (share_of (size_wanted ram_size file) numa_node_count) }
{
    let file_size = file.len();
    let vtl2_size = ram_size.unwrap_or(file_size);
    if vtl2_size < file_size {
        return Err(Refusal::RamSizeBelowFile);
    }
    share_of(vtl2_size, numa_node_count)
}

// The four parts, and all that is chosen in order of start.
fn choose_ram(
    isolation: IsolationType,
    file: MemoryRange,
    map: &[MemoryEntry],
    imports: &[MemoryRange],
    share: u64,
    numa_node_count: u32,
) -> Result<Vtl2Ram, Refusal>
    requires { RowsPassed file (entries_in map.now) imports.now }
    ensures { result ≡ ram_as (boot_parts isolation file (entries_in map.now) imports.now share (count_up 0 numa_node_count)) }
{
    let mut chosen = ArrayVec::new();
    let mut found = ArrayVec::new();
    walk_file(file, map, &mut chosen, &mut found)?;
    if !imports_clear(file, imports) {
        return Err(Refusal::ImportCrossesFile);
    }
    let mut free = ArrayVec::new();
    walk_imports(isolation, file, imports, found.as_slice(), &mut free)?;
    take_ram(share, numa_node_count, &free, &mut chosen)?;
    sort_by_start(chosen.as_mut_slice());
    Ok(chosen_ram(&chosen))
}

// Rows 7 to 9, then the parts.
pub(crate) fn allocate_vtl2_ram(
    isolation: IsolationType,
    ram_size: Option<u64>,
    file: MemoryRange,
    map: &[MemoryEntry],
    imports: &[MemoryRange],
) -> Result<Vtl2Ram, Refusal>
    requires { RowsPassed file (entries_in map.now) imports.now }
    ensures { result ≡ ram_as (boot_choice isolation ram_size file (entries_in map.now) imports.now) }
{
    let count = numa_node_count(numa_nodes(map))?;
    let share = node_share(ram_size, file, count)?;
    choose_ram(isolation, file, map, imports, share, count as u32)
}

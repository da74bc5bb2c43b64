// Host mode: the host says which memory VTL2 gets.
ghost use Rattle.std.specs.Prelude.{◌≡◌, true, MatchResult, Some, None};
ghost use Rattle.memory_range.specs.Bytes.{Ordered};
ghost use Rattle.memory_range.specs.Valid.{valid_range};
ghost use Rattle.boot_ram.specs.Held.{bytes_of};
ghost use Rattle.host_map.specs.Map.{map_ranges, protectable_in};
ghost use Rattle.vtl2_ram.specs.Ram.{ram_as};
ghost use Rattle.vtl2_ram.specs.Host.{is_hardware_isolated, isolated_choice, protectable_refusal, protectable_choice, host_choice};

use crate::ram::{Vtl2Ram, chosen_ram, ram_on_node_0};
use arrayvec::ArrayVec;
use boot_ram::{Chosen, hold};
use host_map::is_protectable;
use host_params::{IsolationType, MemoryEntry};
use memory_range::MemoryRange;
use refusal::Refusal;

// The highest page multiple.
const LAST_PAGE: u64 = 0xfffffffffffff000;

fn is_hardware_isolated(isolation: IsolationType) -> bool
    ensures { result ≡ is_hardware_isolated isolation }
{
    matches!(
        isolation,
        IsolationType::Snp | IsolationType::Tdx | IsolationType::Cca
    )
}

// The bytes of all protectable entries. They are disjoint, so that 64 bits hold their number.
fn protectable_bytes(map: &[MemoryEntry]) -> u64
    requires { Ordered 0 (map_ranges map.now) }
    ensures { result ≡ bytes_of (protectable_in map.now) }
{
    let mut bytes: u64 = 0;
    for entry in map {
        if is_protectable(entry.mem_type) {
            bytes += entry.range.end - entry.range.start;
        }
    }
    bytes
}

// One range from the file's start. Its length is the greater of the file's and of the protectable
// entries' together.
fn isolated_ram(file: MemoryRange, protectable: u64) -> Result<Vtl2Ram, Refusal>
    requires { valid_range file ≡ true }
    ensures { result ≡ ram_as (isolated_choice file protectable) }
{
    let vtl2_size = protectable.max(file.len());
    if LAST_PAGE - file.start < vtl2_size {
        return Err(Refusal::ShareTooLarge);
    }
    Ok(ram_on_node_0(MemoryRange {
        start: file.start,
        end: file.start + vtl2_size,
    }))
}

// The protectable entries, as they stand.
fn list_protectable(map: &[MemoryEntry]) -> Result<Chosen, Refusal>
    ensures { MatchResult result
        (λ entries. (entries.items ≡ protectable_in map.now) × (protectable_refusal (protectable_in map.now) ≡ None))
        (λ refusal. protectable_refusal (protectable_in map.now) ≡ Some refusal) }
{
    let mut entries = ArrayVec::new();
    for entry in map {
        if is_protectable(entry.mem_type) {
            hold(&mut entries, entry.range, entry.vnode)?;
        }
    }
    Ok(entries)
}

// Without a protectable entry it is the file.
fn protectable_ram(file: MemoryRange, map: &[MemoryEntry]) -> Result<Vtl2Ram, Refusal>
    requires { Ordered 0 (map_ranges map.now) }
    ensures { result ≡ ram_as (protectable_choice file (protectable_in map.now)) }
{
    let entries = list_protectable(map)?;
    if entries.is_empty() {
        return Ok(ram_on_node_0(file));
    }
    Ok(chosen_ram(&entries))
}

// RAM size and imported ranges have no say.
pub(crate) fn parse_host_vtl2_ram(
    isolation: IsolationType,
    file: MemoryRange,
    map: &[MemoryEntry],
) -> Result<Vtl2Ram, Refusal>
    requires file_valid { valid_range file ≡ true }
    requires ordered { Ordered 0 (map_ranges map.now) }
    ensures { result ≡ ram_as (host_choice isolation file map.now) }
{
    if is_hardware_isolated(isolation) {
        return isolated_ram(file, protectable_bytes(map));
    }
    protectable_ram(file, map)
}

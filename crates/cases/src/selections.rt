// Selections. An entry of a map is four words: start, end, node, and 1 where it is protectable.
use super::kinds::optional;
use super::line::Case;
use super::lists::ranges_of;
use super::ranges::range;
use super::words::{Stored, low_32_bits, words_at};
use host_map::MAP_ROOM;
use host_params::{
    IsolationType, MAX_VTL2_RAM_RANGES, MemoryAllocationMode, MemoryEntry, MemoryMapEntryType,
};
use memory_range::{MemoryRange, TaggedRange};
use refusal::Refusal;
use std::array;
use vtl2_ram::{Vtl2Ram, select_vtl2_ram};

fn entry_of(words: [u64; 4]) -> MemoryEntry {
    let [start, end, node, is_protectable] = words;
    let mem_type = match is_protectable {
        0 => MemoryMapEntryType::Memory,
        _ => MemoryMapEntryType::Vtl2Protectable,
    };
    MemoryEntry {
        range: range(start, end),
        vnode: low_32_bits(node),
        mem_type,
    }
}

fn map_of(words: &[u64]) -> [MemoryEntry; MAP_ROOM] {
    array::from_fn(|i| entry_of(words_at(words, 4 * i)))
}

fn mode(number: u64) -> MemoryAllocationMode {
    match number {
        0 => MemoryAllocationMode::Host,
        _ => MemoryAllocationMode::Vtl2,
    }
}

fn isolation(number: u64) -> IsolationType {
    match number {
        0 => IsolationType::None,
        1 => IsolationType::Vbs,
        2 => IsolationType::Snp,
        3 => IsolationType::Tdx,
        _ => IsolationType::Cca,
    }
}

fn select(words: &[u64], map: &[u64], imports: &[MemoryRange]) -> Result<Vtl2Ram, Refusal> {
    let [to_mode, to_isolation, has_size, size, start, end] = words_at::<6>(words, 0);
    let entries = map_of(map);
    let count = (map.len() / 4).min(MAP_ROOM);
    select_vtl2_ram(
        mode(to_mode),
        isolation(to_isolation),
        optional(has_size, size),
        range(start, end),
        &entries[..count],
        imports,
    )
}

// The places of the chosen entries, start, end and node of each. Those that no entry stands in are 0.
fn same_entries(stored: Stored, at: usize, entries: &[TaggedRange]) -> Option<usize> {
    let mut next = at;
    for i in 0..MAX_VTL2_RAM_RANGES {
        let entry = entries.get(i).copied().unwrap_or_default();
        let range = entry.range;
        next = stored.same_words(next, &[range.start, range.end, u64::from(entry.tag)])?;
    }
    stored.end(next)
}

// The refusal's number; or 0, the count and the bytes. Then the entries.
pub(crate) fn selected(stored: Stored, case: &Case, words: &[u64]) -> Option<usize> {
    let imports = ranges_of(case.list(words, 2), case.list(words, 3));
    match select(words, case.list(words, 1), imports.as_slice()) {
        Err(refusal) => {
            let at = stored.same_word(0, u64::from(refusal.number()))?;
            same_entries(stored, at, &[])
        }
        Ok(ram) => {
            let entries = ram.as_slice();
            let at = stored.same_words(0, &[0, entries.len() as u64, ram.bytes])?;
            same_entries(stored, at, entries)
        }
    }
}

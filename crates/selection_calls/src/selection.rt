// Selection, by numbers and words.
ghost use Rattle.std.specs.Prelude.{true, ◌≡◌, ◌/◌, ◌≤◌, ◌<◌, ◌^◌, length, map};
ghost use Rattle.std.proofs.lemmas.List.Edits.{sets};
ghost use Rattle.refusal.specs.Answer.{rows_as};
ghost use Rattle.host_map.specs.Map.{type_of};
ghost use Rattle.host_map.specs.Rows.{check_start, checked_all};
ghost use Rattle.vtl2_ram.specs.Ram.{ram_as};
ghost use Rattle.vtl2_ram.specs.Select.{choice};
ghost use Rattle.table_words.specs.List.{range_in, ranges_in};
ghost use Rattle.table_words.specs.Rows.{rows};
ghost use Rattle.selection_calls.specs.Selection.{mode_of, isolation_of, is_protectable_word, entry_stands, entry_of, word_entries, map_stands, numbers_stand, ram_words, rows_of, rows_long, asked, count_of, ram_after};

use host_map::{MAP_ROOM, RangeCheck};
use host_params::{
    IsolationType, MAX_VTL2_RAM_RANGES, MemoryAllocationMode, MemoryEntry, MemoryMapEntryType,
};
use memory_range::{MemoryRange, TaggedRange, put};
use plan_input::{BLANK_ENTRY, IMPORT_ROOM};
use refusal::Refusal;
use table_words::{CallError, NODE_BOUND, put_words, read_ranges};
use vtl2_ram::{Vtl2Ram, select_vtl2_ram};

// The words of an entry of the map: start, end, node, type.
const ENTRY_WORDS: usize = 4;

// The words of an imported range: start, end.
const RANGE_WORDS: usize = 2;

// The words of an entry of the RAM: start, end, node.
const RAM_ENTRY_WORDS: usize = 3;

// The words of as many entries of the map as there is room for.
const MAP_WORDS: usize = MAP_ROOM * ENTRY_WORDS;

// The words of as many imported ranges as there is room for.
const IMPORT_WORDS: usize = IMPORT_ROOM * RANGE_WORDS;

// Room for the most entries that are chosen.
const RAM_WORDS: usize = MAX_VTL2_RAM_RANGES * RAM_ENTRY_WORDS;

// 0 is the host, 1 the boot shim.
fn mode_of(mode: u8) -> MemoryAllocationMode
    ensures { result ≡ mode_of mode }
{
    match mode {
        1 => MemoryAllocationMode::Vtl2,
        _ => MemoryAllocationMode::Host,
    }
}

fn isolation_of(isolation: u8) -> IsolationType
    ensures { result ≡ isolation_of isolation }
{
    match isolation {
        1 => IsolationType::Vbs,
        2 => IsolationType::Snp,
        3 => IsolationType::Tdx,
        4 => IsolationType::Cca,
        _ => IsolationType::None,
    }
}

fn type_of(number: u64) -> MemoryMapEntryType
    ensures { result ≡ type_of (is_protectable_word number) }
{
    if number == 1 {
        MemoryMapEntryType::Vtl2Protectable
    } else {
        MemoryMapEntryType::Memory
    }
}

fn entry_of(start: u64, end: u64, node: u64, number: u64) -> MemoryEntry
    requires { node < 2 ^ 32 }
    ensures { result ≡ entry_of start end node number }
{
    MemoryEntry {
        range: MemoryRange { start, end },
        vnode: node as u32,
        mem_type: type_of(number),
    }
}

fn entry_stands(node: u64, number: u64) -> bool
    ensures { result ≡ entry_stands node number }
{
    node < NODE_BOUND && number <= 1
}

fn map_stands(words: &[u64]) -> bool
    ensures { result ≡ map_stands words.now }
{
    for entry in words.chunks_exact(ENTRY_WORDS) {
        if !entry_stands(entry[2], entry[3]) {
            return false;
        }
    }
    words.len() % ENTRY_WORDS == 0
}

// Whether the numbers and the lengths all stand for something.
fn numbers_stand(mode: u8, isolation: u8, map: &[u64], imports: &[u64]) -> bool
    ensures { result ≡ numbers_stand mode isolation map.now imports.now }
{
    mode <= 1 && isolation <= 4 && map_stands(map) && imports.len() % RANGE_WORDS == 0
}

// Stores the map's entries, as far as there is room.
fn read_map(words: &[u64], map: &mut [MemoryEntry])
    requires { map_stands words.now ≡ true }
    ensures { map.new ≡ sets map.old 0 (word_entries words.now) }
{
    for (at, row) in words.chunks_exact(ENTRY_WORDS).enumerate() {
        put(map, at, entry_of(row[0], row[1], row[2], row[3]));
    }
}

// Rows 4 and 5 of ranges, so many words for each, of which the first two are its start and its end.
fn check_ranges(words: &[u64], size: usize) -> RangeCheck
    requires { 2 ≤ size }
    ensures { result ≡ checked_all check_start (map range_in (rows size (length words.now / size) words.now)) }
{
    let mut check = RangeCheck::start();
    for row in words.chunks_exact(size) {
        check = check.with(MemoryRange {
            start: row[0],
            end: row[1],
        });
    }
    check
}

// Nothing is written past the end.
fn write_ram(entries: &[TaggedRange], ram: &mut [u64])
    ensures { ram.new ≡ sets ram.old 0 (ram_words entries.now) }
{
    for (i, entry) in entries.iter().enumerate() {
        put_words(
            ram,
            RAM_ENTRY_WORDS * i,
            &[entry.range.start, entry.range.end, u64::from(entry.tag)],
        );
    }
}

// Rows 4 and 5, by what was seen of both lists.
fn check_rows(file: MemoryRange, map: RangeCheck, imports: RangeCheck) -> Result<(), Refusal>
    ensures { result ≡ rows_as (rows_of file map imports) }
{
    if !(file.is_valid() && map.valid && imports.valid) {
        return Err(Refusal::RangeInvalid);
    }
    if !(map.ascending && imports.ascending) {
        return Err(Refusal::RangesNotAscending);
    }
    Ok(())
}

// Rows 4 and 5 of the whole of both lists, where one is longer than its room. Otherwise selection is given
// the whole, and looks at these rows itself.
fn check_long(file: MemoryRange, map: &[u64], imports: &[u64]) -> Result<(), Refusal>
    ensures { result ≡ rows_as (rows_long file map.now imports.now) }
{
    if map.len() <= MAP_WORDS && imports.len() <= IMPORT_WORDS {
        return Ok(());
    }
    check_rows(
        file,
        check_ranges(map, ENTRY_WORDS),
        check_ranges(imports, RANGE_WORDS),
    )
}

// Selection is given as much of both lists as there is room for.
fn select_read(
    mode: MemoryAllocationMode,
    isolation: IsolationType,
    ram_size: Option<u64>,
    file: MemoryRange,
    map: &[u64],
    imports: &[u64],
) -> Result<Vtl2Ram, Refusal>
    requires { map_stands map.now ≡ true }
    ensures { result ≡ ram_as (choice mode isolation ram_size file (word_entries map.now) (ranges_in imports.now)) }
{
    check_long(file, map, imports)?;
    let mut entries = [BLANK_ENTRY; MAP_ROOM];
    read_map(map, &mut entries);
    let mut ranges = [MemoryRange { start: 0, end: 0 }; IMPORT_ROOM];
    read_ranges(imports, &mut ranges);
    let map_count = (map.len() / ENTRY_WORDS).min(MAP_ROOM);
    let import_count = (imports.len() / RANGE_WORDS).min(IMPORT_ROOM);
    select_vtl2_ram(
        mode,
        isolation,
        ram_size,
        file,
        &entries[..map_count],
        &ranges[..import_count],
    )
}

// How many entries are chosen; their words are written. Too little room for 64 entries comes first, then numbers
// that stand for nothing, then selection. An error leaves the RAM as found.
pub fn select_words(
    mode: u8,
    isolation: u8,
    ram_size: Option<u64>,
    file: MemoryRange,
    map: &[u64],
    imports: &[u64],
    ram: &mut [u64],
) -> Result<usize, CallError>
    ensures answer { result ≡ count_of (asked mode isolation ram_size file map.now imports.now ram.old) }
    ensures lent { ram.new ≡ ram_after (asked mode isolation ram_size file map.now imports.now ram.old) ram.old }
{
    if ram.len() < RAM_WORDS {
        return Err(CallError::NoRoom);
    }
    if !numbers_stand(mode, isolation, map, imports) {
        return Err(CallError::BadNumber);
    }
    let chosen = select_read(
        mode_of(mode),
        isolation_of(isolation),
        ram_size,
        file,
        map,
        imports,
    )?;
    let entries = chosen.as_slice();
    write_ram(entries, ram);
    Ok(entries.len())
}

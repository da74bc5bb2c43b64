// Selection: which RAM the guest's VTL2 gets.
ghost use Rattle.std.specs.Prelude.{◌≡◌};
ghost use Rattle.memory_range.specs.Range.{range};
ghost use Rattle.table_words.specs.Code.{code_of, done_of};
ghost use Rattle.selection_calls.specs.Selection.{asked, ram_after, count_or};
ghost use Rattle.bootplan_c.specs.Number.{given_number};

use crate::number::given_number;
use memory_range::MemoryRange;
use selection_calls::select_words;
use table_words::{CallError, code_of};

fn select_ram(
    mode: u8,
    isolation: u8,
    ram_size: Option<u64>,
    file: MemoryRange,
    map: &[u64],
    imports: &[u64],
    ram: &mut [u64],
    count: &mut usize,
) -> Result<(), CallError>
    ensures value { result ≡ done_of (asked mode isolation ram_size file map.now imports.now ram.old) }
    ensures buffer_after { ram.new ≡ ram_after (asked mode isolation ram_size file map.now imports.now ram.old) ram.old }
    ensures count_after { count.new ≡ count_or (asked mode isolation ram_size file map.now imports.now ram.old) count.old }
{
    *count = select_words(mode, isolation, ram_size, file, map, imports, ram)?;
    Ok(())
}

// Chooses the RAM of VTL2. `mode` is 0 where the host chooses and 1 where the boot shim does; `isolation`
// is 0 none, 1 vbs, 2 snp, 3 tdx, 4 cca. The map has four words for each entry: start, end, node, and
// type, 1 for memory that the host keeps for VTL2 and 0 for any other; the imported ranges have two,
// start and end. The RAM, which has room for 64 entries, gets three words for each of `count` entries:
// start, end, node. Anything but 0 leaves both as found.
#[unsafe(no_mangle)]
pub extern "C" fn bootplan_select_ram(
    mode: u8,
    isolation: u8,
    size_given: bool,
    ram_size: u64,
    file_start: u64,
    file_end: u64,
    map: &[u64],
    imports: &[u64],
    ram: &mut [u64],
    count: &mut usize,
) -> u8
    ensures value { let size = given_number size_given ram_size in
        let file = range file_start file_end in
        let answer = asked mode isolation size file map.now imports.now ram.old in
        result ≡ code_of answer }
    ensures buffer_after { let size = given_number size_given ram_size in
        let file = range file_start file_end in
        let answer = asked mode isolation size file map.now imports.now ram.old in
        ram.new ≡ ram_after answer ram.old }
    ensures count_after { let size = given_number size_given ram_size in
        let file = range file_start file_end in
        let answer = asked mode isolation size file map.now imports.now ram.old in
        count.new ≡ count_or answer count.old }
{
    let file = MemoryRange {
        start: file_start,
        end: file_end,
    };
    let ram_size = given_number(size_given, ram_size);
    code_of(select_ram(mode, isolation, ram_size, file, map, imports, ram, count))
}

// The plan of a text. What is lent as output is written only once no refusal of the whole plan can
// follow.
ghost use Rattle.std.specs.Prelude.{◌≡◌, ◌≤◌, length, take};
ghost use Rattle.boot_ram.specs.Held.{bytes_of};
ghost use Rattle.vtl2_ram.specs.Ram.{ram_entries, ram_as};
ghost use Rattle.vtl2_ram.specs.Select.{choice};
ghost use Rattle.address_space.specs.Table.{entries_of};
ghost use Rattle.memory.specs.Build.{built};
ghost use Rattle.plan_input.specs.Record.{records_at};
ghost use Rattle.plan_input.specs.Input.{gets_first};
ghost use Rattle.private_pool.specs.Pool.{max_pool_ranges};
ghost use Rattle.plan.specs.Line.{Room, Wrote};
ghost use Rattle.plan.specs.Planner.{plan_lines, after_build, plan_of, planned_as, output_as, Answers, output_size_for, planned_to, output_to, TextRead, Selected};

use crate::get::answer_gets;
use crate::pool::place_pool;
use crate::write::{write_map_lines, write_pool_lines, write_ram_lines};
use address_space::{AddressSpaceManager, MAX_ADDRESS_RANGES};
use host_map::MAP_ROOM;
use host_params::{IsolationType, MAX_VTL2_RAM_RANGES, MemoryEntry};
use memory_range::{MemoryRange, TaggedRange};
use plan_input::{
    BLANK_ENTRY, BuildRead, CONFIG_ROOM, IMPORT_ROOM, POOL_ROOM, PoolRead, SelectionRead,
    read_build, read_pool, read_selection,
};
use plan_output::LINE_SIZE;
use plan_text::{TEXT_SIZE, check_from};
use private_pool::PrivatePool;
use refusal::Refusal;
use vtl2_ram::{Vtl2Ram, select_vtl2_ram};

// The bytes of the shortest request: `get`, five fields of a byte, and the byte behind each of the six.
const SHORTEST_GET: usize = 3 + 5 + 6;

// The most lines of a plan beside those of requests: of the RAM, of the pool, and of the table.
const MOST_OTHER_LINES: usize = MAX_VTL2_RAM_RANGES + MAX_VTL2_RAM_RANGES + MAX_ADDRESS_RANGES;

// So many bytes suffice for every plan.
pub const OUTPUT_SIZE: usize = (MOST_OTHER_LINES + TEXT_SIZE / SHORTEST_GET) * LINE_SIZE;

// Why no plan is written.
#[derive(Clone, Copy, PartialEq, Eq)]
pub enum PlanError {
    Refused(Refusal),
    // The output is too short for some plan of a text of that length.
    NoRoom,
}

impl From<Refusal> for PlanError {
    ghost use Rattle.std.specs.Prelude.{◌≡◌};
    ghost use Rattle.plan.specs.declared.planner.PlanError.TheVariants.{Refused};

    ghost from_gives = { λ refusal error. error ≡ Refused refusal };

    fn from(refusal: Refusal) -> PlanError {
        PlanError::Refused(refusal)
    }
}

// What was read of a text before its requests, of its lists as much as there is room for.
#[derive(Clone, Copy)]
struct InputRead<'a> {
    selection: SelectionRead,
    map: &'a [MemoryEntry],
    imports: &'a [MemoryRange],
    build: BuildRead,
    configs: &'a [MemoryRange],
    pools: &'a [MemoryRange],
    pool: PoolRead,
}

// The lines, in the order of the output. The requests are answered as they are read.
fn write_plan(
    text: &[u8],
    gets: usize,
    ram: &[TaggedRange],
    mut pool: PrivatePool,
    pool_count: usize,
    output: &mut [u8],
) -> usize
    requires count_within { pool_count ≤ max_pool_ranges }
    requires room { let requests = gets_first (records_at text.now gets) in
        let lines = plan_lines ram.now (take pool_count pool.ranges) requests (entries_of pool.manager) in
        Room (length lines) 0 output.old }
    ensures { let requests = gets_first (records_at text.now gets) in
        let lines = plan_lines ram.now (take pool_count pool.ranges) requests (entries_of pool.manager) in
        Wrote lines 0 output.old output.new result }
{
    let pool_at = write_ram_lines(output, 0, ram);
    let gets_at = write_pool_lines(output, pool_at, &pool.ranges[..pool_count]);
    let map_at = answer_gets(text, gets, &mut pool.manager, output, gets_at);
    write_map_lines(output, map_at, pool.manager)
}

// The pool is sized by the RAM's bytes and placed in the table, and the plan is written.
fn plan_table(
    text: &[u8],
    pool: PoolRead,
    isolation: IsolationType,
    ram: &Vtl2Ram,
    table: AddressSpaceManager,
    output: &mut [u8],
) -> Result<usize, Refusal>
    requires suffices { output_size_for (length text.now) ≤ length output.old }
    requires total { ram.now.bytes ≡ bytes_of (ram_entries ram.now) }
    requires plan { let requests = gets_first (records_at text.now pool.next) in
        plan_of text.now ≡ after_build isolation pool.pool (ram_entries ram.now) requests (built (entries_of table)) }
    ensures { Answers (plan_of text.now) output.old output.new result }
{
    let placed = place_pool(isolation, pool.pool, ram.bytes, table);
    let count = placed.answer?;
    let entries = ram.as_slice();
    Ok(write_plan(text, pool.next, entries, placed, count, output))
}

// The table is built in the RAM.
fn plan_ram(
    text: &[u8],
    read: InputRead<'_>,
    ram: &Vtl2Ram,
    output: &mut [u8],
) -> Result<usize, Refusal>
    requires suffices { output_size_for (length text.now) ≤ length output.old }
    requires selected { let requests = gets_first (records_at text.now read.pool.next) in
        Selected text.now read.selection.shape.isolation read.pool.pool read.build.builder requests read.configs.now read.pools.now ram.now }
    ensures { Answers (plan_of text.now) output.old output.new result }
{
    let entries = ram.as_slice();
    let builder = read.build.builder;
    let init = builder.init(
        AddressSpaceManager::new(),
        entries,
        read.configs,
        read.pools,
    );
    init.answer?;
    let isolation = read.selection.shape.isolation;
    plan_table(text, read.pool, isolation, ram, init.manager, output)
}

// RAM is selected from what was read.
fn select_ram(read: InputRead<'_>) -> Result<Vtl2Ram, Refusal>
    ensures { let shape = read.entry.selection.shape in
        result ≡ ram_as (choice shape.mode shape.isolation shape.memory_size read.entry.selection.file read.entry.map.now read.entry.imports.now) }
{
    let shape = read.selection.shape;
    select_vtl2_ram(
        shape.mode,
        shape.isolation,
        shape.memory_size,
        read.selection.file,
        read.map,
        read.imports,
    )
}

// Rows 4 and 5 are looked at over all ranges of the text, and then RAM is selected.
fn plan_accepted(text: &[u8], read: InputRead<'_>, output: &mut [u8]) -> Result<usize, Refusal>
    requires suffices { output_size_for (length text.now) ≤ length output.old }
    requires read { TextRead text.now read.selection read.build read.pool read.map.now read.imports.now read.configs.now read.pools.now }
    ensures { Answers (plan_of text.now) output.old output.new result }
{
    if !(read.selection.valid && read.build.valid) {
        return Err(Refusal::RangeInvalid);
    }
    let ascending = read.selection.ascending;
    if !ascending {
        return Err(Refusal::RangesNotAscending);
    }
    let ram = select_ram(read)?;
    plan_ram(text, read, &ram, output)
}

// Every stage, on an output that suffices. The text is read once, but for its requests, and the refusals
// of its form come before all others.
fn plan_within(text: &[u8], output: &mut [u8]) -> Result<usize, Refusal>
    requires { output_size_for (length text.now) ≤ length output.old }
    ensures { Answers (plan_of text.now) output.old output.new result }
{
    if TEXT_SIZE < text.len() {
        return Err(Refusal::TextTooLong);
    }
    let none = MemoryRange::default();
    let mut map = [BLANK_ENTRY; MAP_ROOM];
    let mut imports = [none; IMPORT_ROOM];
    let selection = read_selection(text, &mut map, &mut imports);
    let mut configs = [none; CONFIG_ROOM];
    let mut pools = [none; POOL_ROOM];
    let build = read_build(
        text,
        selection.next,
        selection.order,
        &mut configs,
        &mut pools,
    );
    let pool = read_pool(text, build.next, build.order);
    check_from(text, pool.next, pool.order)?;
    let entries = selection.map_count.min(MAP_ROOM);
    let imported = selection.import_count.min(IMPORT_ROOM);
    let configured = build.config_count.min(CONFIG_ROOM);
    let pooled = build.pool_count.min(POOL_ROOM);
    let read = InputRead {
        selection,
        map: &map[..entries],
        imports: &imports[..imported],
        build,
        configs: &configs[..configured],
        pools: &pools[..pooled],
        pool,
    };
    plan_accepted(text, read, output)
}

// Writes the plan of a text at the start of the output, or answers its refusal and leaves the output as
// found.
pub fn plan(text: &[u8], output: &mut [u8; OUTPUT_SIZE]) -> Result<usize, Refusal>
    ensures value { result ≡ planned_as (plan_of text.now) }
    ensures output_after { output.new ≡ output_as (plan_of text.now) output.old }
{
    plan_within(text, output)
}

// So many bytes suffice for the plan of every text of that many bytes.
pub fn output_size(text_len: usize) -> usize
    ensures { result ≡ output_size_for text_len }
{
    (MOST_OTHER_LINES + text_len.min(TEXT_SIZE) / SHORTEST_GET) * LINE_SIZE
}

// The same where the output is as long as the caller has it. One that could be too short for a text of
// that length is left as found.
pub fn plan_to(text: &[u8], output: &mut [u8]) -> Result<usize, PlanError>
    ensures value { result ≡ planned_to text.now output.old }
    ensures output_after { output.new ≡ output_to text.now output.old }
{
    if output.len() < output_size(text.len()) {
        return Err(PlanError::NoRoom);
    }
    Ok(plan_within(text, output)?)
}

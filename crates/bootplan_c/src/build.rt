// A table of words, built from lists of words.
ghost use Rattle.std.specs.Prelude.{◌≡◌};
ghost use Rattle.table_words.specs.Code.{code_of, done_of};
ghost use Rattle.bootplan_c.specs.Build.{given, build_call, build_table};

use memory_range::MemoryRange;
use table_calls::build_words;
use table_words::{CallError, code_of, read_table, write_table};

#[tactic(auto, unfolding(crate::specs::Build::build_call))]
fn build(
    ram: &[u64],
    used: MemoryRange,
    state: MemoryRange,
    reserved: &[u64],
    configs: &[u64],
    pools: &[u64],
    table: &mut [u64],
) -> Result<(), CallError>
    ensures value { result ≡ done_of (build_call (given used.start used.end state.start state.end ram.now
        reserved.now configs.now pools.now) table.old) }
    ensures table_after { table.new ≡ build_table table.old (build_call (given used.start used.end state.start state.end ram.now
        reserved.now configs.now pools.now) table.old) }
{
    let manager = read_table(table).ok_or(CallError::BadTable)?;
    let built = build_words(used, state, manager, ram, reserved, configs, pools)?;
    write_table(table, &built);
    Ok(())
}

// Builds the table. A RAM entry is start, end and node; a config or pool range is start and end; and
// `reserved` has start and end of the reserved range, the sidecar image, the page tables and the log
// buffer, 0 and 0 where absent. Any answer but 0 leaves the table as found.
#[unsafe(no_mangle)]
pub extern "C" fn bootplan_build(
    ram: &[u64],
    used_start: u64,
    used_end: u64,
    state_start: u64,
    state_end: u64,
    reserved: &[u64],
    configs: &[u64],
    pools: &[u64],
    table: &mut [u64],
) -> u8
    ensures value { result ≡ code_of (build_call (given used_start used_end state_start state_end ram.now
        reserved.now configs.now pools.now) table.old) }
    ensures table_after { table.new ≡ build_table table.old (build_call (given used_start used_end state_start state_end ram.now
        reserved.now configs.now pools.now) table.old) }
{
    let used = MemoryRange {
        start: used_start,
        end: used_end,
    };
    let state = MemoryRange {
        start: state_start,
        end: state_end,
    };
    code_of(build(ram, used, state, reserved, configs, pools, table))
}

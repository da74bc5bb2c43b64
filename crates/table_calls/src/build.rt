// What a build is given, as words.
ghost use Rattle.std.specs.Prelude.{◌≡◌, ◌<◌, length};
ghost use Rattle.address_space.specs.Table.{entries_of};
ghost use Rattle.memory.specs.Build.{build, has_pool, init_as};
ghost use Rattle.table_words.specs.List.{ranges_in, rams_in};
ghost use Rattle.table_words.specs.Table.{table_in};
ghost use Rattle.table_calls.specs.Build.{option_of, builder_of, list_good, given_good, words_build, built_in, words_init};
ghost use Rattle.table_calls.specs.Laws.Build.{Lists};

use address_space::AddressSpaceManager;
use memory::{AddressSpaceManagerBuilder, Init};
use memory_range::{MemoryRange, TaggedRange};
use table_words::{CallError, nodes_good, read_ram, read_ranges};

// At most so many items of a list are taken. This is above the bounds of rows 15, 17 and 20, so that a
// list that is too long for its row is refused by it, and rows 4 and 5 before it.
const LIST_ROOM: usize = 128;

// 0 to 0 is absent.
fn option_of(start: u64, end: u64) -> Option<MemoryRange>
    ensures { result ≡ option_of start end }
{
    if start == 0 && end == 0 {
        return None;
    }
    Some(MemoryRange { start, end })
}

fn builder_of(used: MemoryRange, state: MemoryRange, reserved: &[u64]) -> AddressSpaceManagerBuilder
    requires { length reserved.now ≡ 8 }
    ensures { result ≡ builder_of used state reserved.now }
{
    AddressSpaceManagerBuilder {
        bootshim_used: used,
        persisted_state_region: state,
        reserved_range: option_of(reserved[0], reserved[1]),
        sidecar_image: option_of(reserved[2], reserved[3]),
        page_tables: option_of(reserved[4], reserved[5]),
        log_buffer: option_of(reserved[6], reserved[7]),
    }
}

fn list_good(words: &[u64], width: usize) -> bool
    requires { 0 < width }
    ensures { result ≡ list_good width words.now }
{
    words.len() % width == 0 && words.len() / width <= LIST_ROOM
}

fn given_good(ram: &[u64], reserved: &[u64], configs: &[u64], pools: &[u64]) -> bool
    ensures { result ≡ given_good ram.now reserved.now configs.now pools.now }
{
    list_good(ram, 3)
        && (reserved.len() == 8
            && (list_good(configs, 2) && (list_good(pools, 2) && nodes_good(ram))))
}

// The lists are read into arrays, which the builder is lent.
fn build_lists(
    builder: AddressSpaceManagerBuilder,
    manager: AddressSpaceManager,
    ram: &[u64],
    configs: &[u64],
    pools: &[u64],
) -> Init
    requires { Lists ram.now configs.now pools.now }
    ensures { let pool_ranges = ranges_in pools.now in
        let built = build builder (length (entries_of manager)) (rams_in ram.now) (ranges_in configs.now) pool_ranges in
        result ≡ init_as manager (has_pool pool_ranges) built }
{
    let none = MemoryRange { start: 0, end: 0 };
    let mut ram_list = [TaggedRange {
        range: none,
        tag: 0,
    }; LIST_ROOM];
    read_ram(ram, &mut ram_list);
    let mut config_list = [none; LIST_ROOM];
    read_ranges(configs, &mut config_list);
    let mut pool_list = [none; LIST_ROOM];
    read_ranges(pools, &mut pool_list);
    builder.init(
        manager,
        &ram_list[..ram.len() / 3],
        &config_list[..configs.len() / 2],
        &pool_list[..pools.len() / 2],
    )
}

// The table that is built: its entries and its flag, and as a whole, with what lies behind the entries.
pub fn build_words(
    used: MemoryRange,
    state: MemoryRange,
    manager: AddressSpaceManager,
    ram: &[u64],
    reserved: &[u64],
    configs: &[u64],
    pools: &[u64],
) -> Result<AddressSpaceManager, CallError>
    ensures entries { built_in result ≡ words_build used state (table_in manager) ram.now reserved.now configs.now pools.now }
    ensures whole { result ≡ words_init used state manager ram.now reserved.now configs.now pools.now }
{
    if !given_good(ram, reserved, configs, pools) {
        return Err(CallError::BadNumber);
    }
    let builder = builder_of(used, state, reserved);
    let init = build_lists(builder, manager, ram, configs, pools);
    init.answer?;
    Ok(init.manager)
}

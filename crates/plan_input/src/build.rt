// What the build is given.
ghost use Rattle.std.specs.Prelude.{◌≡◌};
ghost use Rattle.std.proofs.lemmas.List.Edits.{sets};
ghost use Rattle.plan_input.specs.Record.{records_at, SameCheck};
ghost use Rattle.plan_input.specs.Build.{build_in, BuildHeld};

use crate::range::{CONFIG, GPOOL, KEEP, LOG, SIDE, STATE, TABLES, USED, or_empty};
use crate::word::Cursor;
use memory::AddressSpaceManagerBuilder;
use memory_range::MemoryRange;

// One above the bounds of rows 17 and 20, so that a list that is too long is refused by its row.
pub const CONFIG_ROOM: usize = 21;

pub const POOL_ROOM: usize = 65;

#[derive(Clone, Copy)]
pub struct BuildRead {
    pub builder: AddressSpaceManagerBuilder,
    pub config_count: usize,
    pub pool_count: usize,
    // Row 4 of all these ranges.
    pub valid: bool,
    // The place behind the last record read, and the order that it leaves.
    pub next: usize,
    pub order: u8,
}

pub fn read_build(
    text: &[u8],
    at: usize,
    order: u8,
    configs: &mut [MemoryRange; CONFIG_ROOM],
    pools: &mut [MemoryRange; POOL_ROOM],
) -> BuildRead
    ensures { let bytes = text.now in
        let given = build_in (records_at bytes at) in BuildHeld bytes given result
        × SameCheck bytes order at result.order result.next
        × (configs.new ≡ sets configs.old 0 given.configs)
        × (pools.new ≡ sets pools.old 0 given.pools) }
{
    let mut cursor = Cursor { at, order };
    let used = cursor.read_range(text, USED);
    let state = cursor.read_range(text, STATE);
    let configured = cursor.read_list(text, CONFIG, configs);
    let reserved_range = cursor.read_range(text, KEEP);
    let sidecar_image = cursor.read_range(text, SIDE);
    let page_tables = cursor.read_range(text, TABLES);
    let log_buffer = cursor.read_range(text, LOG);
    let pooled = cursor.read_list(text, GPOOL, pools);
    let builder = AddressSpaceManagerBuilder {
        bootshim_used: or_empty(used),
        persisted_state_region: or_empty(state),
        reserved_range,
        sidecar_image,
        page_tables,
        log_buffer,
    };
    BuildRead {
        builder,
        config_count: configured.count,
        pool_count: pooled.count,
        valid: builder.is_valid() & configured.check.valid & pooled.check.valid,
        next: cursor.at,
        order: cursor.order,
    }
}

// The table from the RAM and what of it is used.
ghost use Rattle.std.specs.Prelude.{◌≡◌, ◌≤◌, length};
ghost use Rattle.address_space.specs.Table.{entry};
ghost use Rattle.memory.specs.Build.{filled, finished_with, init_as, refused_with};
ghost use Rattle.memory.specs.Rows.{max_ram};
ghost use Rattle.memory.specs.Used.{max_used};

use crate::init::Init;
use address_space::{AddressRange, AddressSpaceManager, AddressUsage, usage_of};
use memory_range::{MemoryRange, TaggedRange};
use range_lists::{RangeWalkResult, WalkCursor, walk_ranges};
use refusal::Refusal;

pub(crate) fn refused(manager: AddressSpaceManager, refusal: Refusal) -> Init
    ensures { result ≡ refused_with manager refusal }
{
    Init {
        answer: Err(refusal),
        manager,
    }
}

// An entry of a new table.
fn built_entry(range: MemoryRange, vnode: u32, usage: AddressUsage) -> AddressRange
    ensures { result ≡ entry range vnode usage }
{
    AddressRange {
        range,
        vnode,
        usage,
    }
}

// Row 21, and the table.
pub(crate) fn fill_table(
    manager: AddressSpaceManager,
    pool: bool,
    ram: &[TaggedRange],
    used: &[TaggedRange],
) -> Init
    requires ram_fits { length ram.now ≤ max_ram }
    requires used_fits { length used.now ≤ max_used }
    ensures { result ≡ init_as manager pool (filled ram.now used.now) }
{
    let mut table = manager;
    let mut count = 0;
    let mut at = WalkCursor::start();
    while let Some((piece, next)) = walk_ranges(ram, used, at) {
        let (item, usage) = match piece.result {
            RangeWalkResult::Left(item) => (item, AddressUsage::Free),
            RangeWalkResult::Right(_) => return refused(manager, Refusal::UsedOutsideRam),
            RangeWalkResult::Both(item, used_item) => (item, usage_of(used[used_item].tag)),
        };
        table.address_space[count] = built_entry(piece.range, ram[item].tag, usage);
        count += 1;
        at = next;
    }
    finished(table, count, pool)
}

// The table with so many entries, and its flag set where there are pool ranges.
fn finished(mut table: AddressSpaceManager, count: usize, pool: bool) -> Init
    ensures { result ≡ finished_with table count pool }
{
    table.count = count;
    table.vtl2_pool |= pool;
    Init {
        answer: Ok(()),
        manager: table,
    }
}

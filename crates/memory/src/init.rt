// The build.
ghost use Rattle.std.specs.Prelude.{◌≡◌, length, None};
ghost use Rattle.refusal.specs.Rows.{unless};
ghost use Rattle.memory_range.specs.List.{ranges_in};
ghost use Rattle.address_space.specs.Table.{entries_of};
ghost use Rattle.memory.specs.Build.{build, filled, has_pool, init_as, refused as build_refused};
ghost use Rattle.memory.specs.Rows.{rows_refusal};
ghost use Rattle.memory.specs.Used.{used_of, used_refusal};

use crate::builder::AddressSpaceManagerBuilder;
use crate::fill::{fill_table, refused};
use crate::rows::check_rows;
use crate::used::{UsedList, list_used};
use address_space::AddressSpaceManager;
use memory_range::{MemoryRange, TaggedRange};
use refusal::Refusal;

// Whether the table is built, and the table afterwards.
#[derive(Clone, Copy)]
pub struct Init {
    pub answer: Result<(), Refusal>,
    pub manager: AddressSpaceManager,
}

// What is used is listed, and the table filled.
fn build_table(
    builder: AddressSpaceManagerBuilder,
    manager: AddressSpaceManager,
    ram: &[TaggedRange],
    configs: &[MemoryRange],
    pools: &[MemoryRange],
) -> Init
    requires { rows_refusal builder 0 (ranges_in ram.now) configs.now pools.now ≡ None }
    ensures { result ≡ init_as manager (has_pool pools.now)
        (unless build_refused (used_refusal builder configs.now pools.now) (filled ram.now (used_of builder configs.now pools.now))) }
{
    let mut used = UsedList::new();
    match list_used(builder, configs, pools, &mut used) {
        Err(refusal) => refused(manager, refusal),
        Ok(()) => fill_table(manager, !pools.is_empty(), ram, used.as_slice()),
    }
}

impl AddressSpaceManagerBuilder {
    // Builds the table from the RAM list. The table is to be empty.
    pub fn init(
        self,
        manager: AddressSpaceManager,
        ram: &[TaggedRange],
        configs: &[MemoryRange],
        pools: &[MemoryRange],
    ) -> Init
        ensures { result ≡ init_as manager (has_pool pools.now) (build self (length (entries_of manager)) ram.now configs.now pools.now) }
    {
        match check_rows(self, manager.len(), ram, configs, pools) {
            Err(refusal) => refused(manager, refusal),
            Ok(()) => build_table(self, manager, ram, configs, pools),
        }
    }
}

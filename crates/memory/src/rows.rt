// The rows that are looked at before anything is listed: 4, 5, and 15 to 17.
ghost use Rattle.std.specs.Prelude.{◌≡◌, length};
ghost use Rattle.memory_range.specs.List.{ranges_in};
ghost use Rattle.memory.specs.Builder.{option_valid, option_count, singles_valid, options_of};
ghost use Rattle.memory.specs.Rows.{all_valid, rows_refusal};
ghost use Rattle.refusal.specs.Answer.{rows_as};

use crate::builder::AddressSpaceManagerBuilder;
use host_params::MAX_VTL2_RAM_RANGES;
use memory_range::{MemoryRange, TaggedRange, ranges_ascend, ranges_valid};
use refusal::Refusal;

pub(crate) const MAX_RESERVED_RANGES: usize = 20;

fn option_valid(range: Option<MemoryRange>) -> bool
    ensures { result ≡ option_valid range }
{
    range.is_none_or(|range| range.is_valid())
}

fn option_count(range: Option<MemoryRange>) -> usize
    ensures { result ≡ option_count range }
{
    usize::from(range.is_some())
}

impl AddressSpaceManagerBuilder {
    // Row 4 of the single ranges.
    #[tactic(auto, unfolding(crate::specs::Builder::singles_valid))]
    pub fn is_valid(self) -> bool
        ensures { result ≡ singles_valid self }
    {
        self.bootshim_used.is_valid()
            && (self.persisted_state_region.is_valid()
                && (option_valid(self.reserved_range)
                    && (option_valid(self.sidecar_image)
                        && (option_valid(self.page_tables) && option_valid(self.log_buffer)))))
    }

    // How many optional ranges there are.
    fn option_count(self) -> usize
        ensures { result ≡ length (options_of self) }
    {
        option_count(self.reserved_range)
            + option_count(self.sidecar_image)
            + option_count(self.page_tables)
            + option_count(self.log_buffer)
    }
}

// Row 4 of all ranges.
fn all_valid(
    builder: AddressSpaceManagerBuilder,
    ram: &[TaggedRange],
    configs: &[MemoryRange],
    pools: &[MemoryRange],
) -> bool
    ensures { result ≡ all_valid builder (ranges_in ram.now) configs.now pools.now }
{
    builder.is_valid() && (ranges_valid(ram) && (ranges_valid(configs) && ranges_valid(pools)))
}

// Rows 4, 5, 15, 16 and 17, for a table with so many entries.
pub(crate) fn check_rows(
    builder: AddressSpaceManagerBuilder,
    entries: usize,
    ram: &[TaggedRange],
    configs: &[MemoryRange],
    pools: &[MemoryRange],
) -> Result<(), Refusal>
    ensures { result ≡ rows_as (rows_refusal builder entries (ranges_in ram.now) configs.now pools.now) }
{
    if !all_valid(builder, ram, configs, pools) {
        return Err(Refusal::RangeInvalid);
    }
    if !ranges_ascend(ram) {
        return Err(Refusal::RangesNotAscending);
    }
    if ram.len() > MAX_VTL2_RAM_RANGES {
        return Err(Refusal::RamCount);
    }
    if entries != 0 {
        return Err(Refusal::TableNotEmpty);
    }
    // The header and the payload are reserved too.
    let others = builder.option_count() + 2;
    if configs.len() > MAX_RESERVED_RANGES - others {
        return Err(Refusal::ReservedCount);
    }
    Ok(())
}

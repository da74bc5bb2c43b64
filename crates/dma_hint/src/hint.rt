// The pages that a lookup table gives a guest.
ghost use Rattle.std.specs.Prelude.{◌≡◌, ◌<◌, ◌^◌, T};
ghost use Rattle.dma_hint.specs.Table.{ascends, hints_given};
ghost use Rattle.dma_hint.specs.Hint.{dma_hint_of, table_pages};

use crate::lookup::{Lookup, find_rows};
use crate::pages::extrapolate;
use crate::ratio::collect_ratios;
use crate::table::{Row, table_rows};
use host_params::Vtl2GpaPoolLookupTable;

const ONE_MB: u64 = 1_048_576;

const PAGES_PER_MB: u64 = 256;

// Memory from here on is not looked up.
const MAX_DMA_HINT_MEM_SIZE: u64 = 0xFFFFFFFF00000;

// A table's numbers have 16 bits; the guest's are compared by their lowest 16.
fn table_pages(rows: &[Row], vp_count: u64, mem_size_mb: u64) -> u64
    requires ascending { T (ascends rows.now) }
    requires hints { T (hints_given rows.now) }
    requires memory { mem_size_mb < 2 ^ 32 }
    ensures { result ≡ table_pages rows.now vp_count mem_size_mb }
{
    let found = find_rows(rows, vp_count % 65_536, mem_size_mb % 65_536);
    match found {
        Lookup::Exact(dma_hint_mb) => u64::from(dma_hint_mb) * PAGES_PER_MB,
        Lookup::Nearest(first, end) => extrapolate(mem_size_mb, collect_ratios(&rows[first..end])),
    }
}

// In pages; 0 for no memory, and for too much.
pub fn vtl2_calculate_dma_hint(table: Vtl2GpaPoolLookupTable, vp_count: u64, mem_size: u64) -> u64
    ensures { result ≡ dma_hint_of table vp_count mem_size }
{
    if mem_size == 0 || mem_size >= MAX_DMA_HINT_MEM_SIZE {
        return 0;
    }
    table_pages(table_rows(table), vp_count, mem_size / ONE_MB)
}

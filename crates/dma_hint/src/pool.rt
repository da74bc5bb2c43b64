// The private pool's size.
ghost use Rattle.std.specs.Prelude.{◌≡◌};
ghost use Rattle.dma_hint.specs.Pool.{pool_size};

use crate::hint::vtl2_calculate_dma_hint;
use host_params::Vtl2GpaPoolConfig;

// In pages; none where no pool is wanted. What the command line says wins; with a table named there, the
// host's number does, unless it is 0.
pub fn pick_private_pool_size(
    cmdline: Vtl2GpaPoolConfig,
    host_pages: Option<u64>,
    vp_count: u64,
    mem_size: u64,
) -> Option<u64>
    ensures { result ≡ pool_size cmdline host_pages vp_count mem_size }
{
    match cmdline {
        Vtl2GpaPoolConfig::Off => None,
        Vtl2GpaPoolConfig::Pages(pages) => Some(pages),
        Vtl2GpaPoolConfig::Heuristics(table) => match host_pages {
            Some(pages) if pages != 0 => Some(pages),
            _ => Some(vtl2_calculate_dma_hint(table, vp_count, mem_size)),
        },
    }
}

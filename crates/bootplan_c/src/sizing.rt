// The private pool's size.
ghost use Rattle.std.specs.Prelude.{◌≡◌};
ghost use Rattle.host_params.specs.declared.Vtl2GpaPoolLookupTable.TheVariants.{Release, Debug};
ghost use Rattle.dma_hint.specs.Hint.{dma_hint_of};
ghost use Rattle.bootplan_c.specs.Sizing.{config_of, picked_size, is_some, or_kept};

use crate::number::given_number;
use host_params::{Vtl2GpaPoolConfig, Vtl2GpaPoolLookupTable};

// The release table's hint, in pages.
#[unsafe(no_mangle)]
pub extern "C" fn bootplan_release_hint(vp_count: u64, mem_size: u64) -> u64
    ensures { result ≡ dma_hint_of Release vp_count mem_size }
{
    dma_hint::vtl2_calculate_dma_hint(Vtl2GpaPoolLookupTable::Release, vp_count, mem_size)
}

// The debug table's hint, in pages.
#[unsafe(no_mangle)]
pub extern "C" fn bootplan_debug_hint(vp_count: u64, mem_size: u64) -> u64
    ensures { result ≡ dma_hint_of Debug vp_count mem_size }
{
    dma_hint::vtl2_calculate_dma_hint(Vtl2GpaPoolLookupTable::Debug, vp_count, mem_size)
}

// A pool's kind as a number: 1 is `pages`, 2 is `release`, 3 is `debug`; any other is `off`.
fn config_of(kind: u8, pages: u64) -> Vtl2GpaPoolConfig
    ensures { result ≡ config_of kind pages }
{
    match kind {
        1 => Vtl2GpaPoolConfig::Pages(pages),
        2 => Vtl2GpaPoolConfig::Heuristics(Vtl2GpaPoolLookupTable::Release),
        3 => Vtl2GpaPoolConfig::Heuristics(Vtl2GpaPoolLookupTable::Debug),
        _ => Vtl2GpaPoolConfig::Off,
    }
}

// Whether there is a pool. If so, `size` becomes its pages; if not, it is kept.
#[unsafe(no_mangle)]
pub extern "C" fn bootplan_pool_size(
    kind: u8,
    pages: u64,
    host_given: bool,
    host_pages: u64,
    vp_count: u64,
    mem_size: u64,
    size: &mut u64,
) -> bool
    ensures value { result ≡ is_some (picked_size kind pages host_given host_pages vp_count mem_size) }
    ensures size_after { size.new ≡ or_kept (picked_size kind pages host_given host_pages vp_count mem_size) size.old }
{
    let picked = dma_hint::pick_private_pool_size(
        config_of(kind, pages),
        given_number(host_given, host_pages),
        vp_count,
        mem_size,
    );
    match picked {
        None => false,
        Some(pages) => {
            *size = pages;
            true
        }
    }
}

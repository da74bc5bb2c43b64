// From the two ratios to pages: the same for every lookup.
ghost use Rattle.std.specs.Prelude.{◌≡◌, ◌<◌, ◌≤◌, ◌+◌, ◌-◌, ◌^◌};
ghost use Rattle.memory_range.specs.Round.{round_up};
ghost use Rattle.dma_hint.specs.Pages.{ratio_pages};

use crate::ratio::Ratios;
use memory_range::padding;

const PAGES_PER_2MB: u64 = 512;

// The pages of a MiB, for ratios in thousandths.
const PAGES_PER_MB_1000TH: u64 = 256_000;

fn round_up_to_2mb(pages_4k: u64) -> u64
    requires { pages_4k ≤ 2 ^ 64 - 512 }
    ensures { result ≡ round_up 512 pages_4k }
{
    pages_4k + padding(pages_4k, PAGES_PER_2MB)
}

// The pages for this memory, by the mean of the two ratios.
pub(crate) fn extrapolate(mem_size_mb: u64, ratios: Ratios) -> u64
    requires memory { mem_size_mb < 2 ^ 32 }
    requires mean_given { 1 < ratios.min_ratio_1000th + ratios.max_ratio_1000th }
    ensures { result ≡ ratio_pages mem_size_mb ratios.min_ratio_1000th ratios.max_ratio_1000th }
{
    let sum = u64::from(ratios.min_ratio_1000th) + u64::from(ratios.max_ratio_1000th);
    round_up_to_2mb(mem_size_mb * PAGES_PER_MB_1000TH / (sum / 2))
}

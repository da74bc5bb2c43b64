// The ratios of memory to hint that rows of a lookup table give, in thousandths.
ghost use Rattle.std.specs.Prelude.{◌≡◌, ◌<◌, T};
ghost use Rattle.dma_hint.specs.Table.{hint_of, hints_given};
ghost use Rattle.dma_hint.specs.Ratio.{ratio, smallest, largest};

use crate::table::{DMA_HINT_MB, Row, VTL2_MEMORY_MB};

#[derive(Clone, Copy)]
pub(crate) struct Ratios {
    pub min_ratio_1000th: u32,
    pub max_ratio_1000th: u32,
}

fn row_ratio(row: Row) -> u32
    requires { 0 < hint_of row }
    ensures { result ≡ ratio row }
{
    u32::from(row[VTL2_MEMORY_MB]) * 1_000 / u32::from(row[DMA_HINT_MB])
}

pub(crate) fn collect_ratios(rows: &[Row]) -> Ratios
    requires { T (hints_given rows.now) }
    ensures smallest_ratio { result.min_ratio_1000th ≡ smallest rows.now }
    ensures largest_ratio { result.max_ratio_1000th ≡ largest rows.now }
{
    let mut min_ratio_1000th = 100_000;
    let mut max_ratio_1000th = 1_000;
    for row in rows {
        let ratio = row_ratio(*row);
        min_ratio_1000th = ratio.min(min_ratio_1000th);
        max_ratio_1000th = ratio.max(max_ratio_1000th);
    }
    Ratios {
        min_ratio_1000th,
        max_ratio_1000th,
    }
}

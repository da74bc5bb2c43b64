// Finding the rows of a lookup table that size a guest.
ghost use Rattle.std.specs.Prelude.{◌≡◌, T};
ghost use Rattle.dma_hint.specs.Table.{ascends};
ghost use Rattle.dma_hint.specs.Lookup.{lookup, found_within, Within};

use crate::table::{DMA_HINT_MB, Row, VP_COUNT, VTL2_MEMORY_MB};

#[derive(Clone, Copy)]
pub(crate) enum Lookup {
    // The hint, in MiB, of the row of exactly this count and memory.
    Exact(u16),
    // The nearest rows: from the first place to before the second.
    Nearest(usize, usize),
}

// The rows ascend by count: the nearest ones stand together, before the first row of a larger count,
// and the search ends there. A row of a lower count, as most are, is told by one comparison.
pub(crate) fn find_rows(rows: &[Row], vp_count: u64, mem_size_mb: u64) -> Lookup
    requires { T (ascends rows.now) }
    ensures what_is_found { found_within rows.now result ≡ lookup vp_count mem_size_mb rows.now }
    ensures places_within { Within rows.now result }
{
    let mut nearest = 0;
    let mut first = 0;
    for (i, row) in rows.iter().enumerate() {
        let row_count = u64::from(row[VP_COUNT]);
        if row_count >= vp_count {
            if row_count > vp_count {
                return Lookup::Nearest(first, i);
            }
            if u64::from(row[VTL2_MEMORY_MB]) == mem_size_mb {
                return Lookup::Exact(row[DMA_HINT_MB]);
            }
        }
        if row_count != nearest {
            nearest = row_count;
            first = i;
        }
    }
    Lookup::Nearest(first, rows.len())
}

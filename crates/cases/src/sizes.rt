// The operations of `dma_hint`.
use super::kinds::optional;
use super::words::{Stored, words_at};
use host_params::{Vtl2GpaPoolConfig, Vtl2GpaPoolLookupTable};

// The hint of each processor count with the memory behind it.
pub(crate) fn hints(stored: Stored, table: Vtl2GpaPoolLookupTable, words: &[u64]) -> Option<usize> {
    let mut at = 0;
    for pair in words.chunks_exact(2) {
        let pages = dma_hint::vtl2_calculate_dma_hint(table, pair[0], pair[1]);
        at = stored.same_word(at, pages)?;
    }
    Some(at)
}

fn config_of(kind: u64, pages: u64) -> Vtl2GpaPoolConfig {
    match kind {
        0 => Vtl2GpaPoolConfig::Off,
        1 => Vtl2GpaPoolConfig::Pages(pages),
        2 => Vtl2GpaPoolConfig::Heuristics(Vtl2GpaPoolLookupTable::Release),
        _ => Vtl2GpaPoolConfig::Heuristics(Vtl2GpaPoolLookupTable::Debug),
    }
}

// 0, or 1 and the pages.
pub(crate) fn pool_size(stored: Stored, words: &[u64]) -> Option<usize> {
    let [
        kind,
        pages,
        has_host_pages,
        host_pages,
        processors,
        ram_bytes,
    ] = words_at::<6>(words, 0);
    let config = config_of(kind, pages);
    let host_pages = optional(has_host_pages, host_pages);
    match dma_hint::pick_private_pool_size(config, host_pages, processors, ram_bytes) {
        None => stored.same_word(0, 0),
        Some(pages) => stored.same_words(0, &[1, pages]),
    }
}

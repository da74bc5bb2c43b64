// A record as words: the place of its first field among the fourteen, then its values, a word by its place
// among those of its field, but 1 for `p` and 0 for `o`. A value that may be absent has 1 in front, or is 0
// with 0 in front.
use super::words::Stored;
use host_params::{MemoryEntry, MemoryMapEntryType, Vtl2GpaPoolConfig, Vtl2GpaPoolLookupTable};
use memory_range::MemoryRange;
use plan_record::{Get, Pool, Record, Shape};

fn optional(value: Option<u64>) -> [u64; 2] {
    match value {
        None => [0, 0],
        Some(n) => [1, n],
    }
}

fn same_shape(stored: Stored, at: usize, shape: Shape) -> Option<usize> {
    let mode = shape.mode;
    let isolation = shape.isolation;
    let [has_size, size] = optional(shape.memory_size);
    let words = [0, mode as u64, isolation as u64, has_size, size];
    stored.same_words(at, &words)
}

fn same_range(stored: Stored, at: usize, place: u64, range: MemoryRange) -> Option<usize> {
    stored.same_words(at, &[place, range.start, range.end])
}

fn same_mem(stored: Stored, at: usize, entry: MemoryEntry) -> Option<usize> {
    let at = same_range(stored, at, 2, entry.range)?;
    let is_protectable = entry.mem_type == MemoryMapEntryType::Vtl2Protectable;
    stored.same_words(at, &[u64::from(entry.vnode), is_protectable as u64])
}

// The place of the kind, and the pages.
fn kind(config: Vtl2GpaPoolConfig) -> [u64; 2] {
    match config {
        Vtl2GpaPoolConfig::Off => [0, 0],
        Vtl2GpaPoolConfig::Pages(pages) => [1, pages],
        Vtl2GpaPoolConfig::Heuristics(Vtl2GpaPoolLookupTable::Release) => [2, 0],
        Vtl2GpaPoolConfig::Heuristics(Vtl2GpaPoolLookupTable::Debug) => [3, 0],
    }
}

fn same_pool(stored: Stored, at: usize, pool: Pool) -> Option<usize> {
    let at = stored.same_word(at, 12)?;
    let at = stored.same_words(at, &kind(pool.config))?;
    let at = stored.same_words(at, &optional(pool.host_pages))?;
    stored.same_words(at, &[pool.processors, pool.split as u64])
}

fn same_get(stored: Stored, at: usize, get: Get) -> Option<usize> {
    let policy = get.allocation_policy;
    let allocation_type = get.allocation_type;
    let at = stored.same_word(at, 13)?;
    let vnode = get.required_vnode.map(u64::from);
    let at = stored.same_words(at, &optional(vnode))?;
    let words = [get.len, policy as u64, allocation_type as u64];
    let at = stored.same_words(at, &words)?;
    stored.same_words(at, &optional(get.alignment))
}

pub(crate) fn same_record(stored: Stored, at: usize, record: Record) -> Option<usize> {
    match record {
        Record::Shape(shape) => same_shape(stored, at, shape),
        Record::File(range) => same_range(stored, at, 1, range),
        Record::Mem(entry) => same_mem(stored, at, entry),
        Record::Import(range) => same_range(stored, at, 3, range),
        Record::Used(range) => same_range(stored, at, 4, range),
        Record::State(range) => same_range(stored, at, 5, range),
        Record::Config(range) => same_range(stored, at, 6, range),
        Record::Keep(range) => same_range(stored, at, 7, range),
        Record::Side(range) => same_range(stored, at, 8, range),
        Record::Tables(range) => same_range(stored, at, 9, range),
        Record::Log(range) => same_range(stored, at, 10, range),
        Record::Gpool(range) => same_range(stored, at, 11, range),
        Record::Pool(pool) => same_pool(stored, at, pool),
        Record::Get(get) => same_get(stored, at, get),
    }
}

// Lists as words, read into slices.
ghost use Rattle.std.specs.Prelude.{◌≡◌, ◌≤◌, map, length};
ghost use Rattle.std.proofs.lemmas.List.Edits.{sets};
ghost use Rattle.table_words.specs.List.{ram_rows, range_in, ranges_in, ram_low, nodes_good};

use memory_range::{MemoryRange, TaggedRange, put};

// A node has 32 bits.
pub const NODE_BOUND: u64 = 0x1_0000_0000;

// Whether the third word of every three is a node.
pub fn nodes_good(words: &[u64]) -> bool
    ensures { result ≡ nodes_good (ram_rows words.now) }
{
    words.chunks_exact(3).all(|row| row[2] < NODE_BOUND)
}

// The first two words are the start and the end.
pub(crate) fn range_in(row: &[u64]) -> MemoryRange
    requires { 2 ≤ length row.now }
    ensures { result ≡ range_in row.now }
{
    MemoryRange {
        start: row[0],
        end: row[1],
    }
}

// Ranges of two words each.
pub fn read_ranges(words: &[u64], ranges: &mut [MemoryRange])
    ensures { ranges.new ≡ sets ranges.old 0 (ranges_in words.now) }
{
    for (i, row) in words.chunks_exact(2).enumerate() {
        put(ranges, i, range_in(row));
    }
}

// Ranges with their nodes, three words each. Of a word that is no node its lowest 32 bits.
pub fn read_ram(words: &[u64], ram: &mut [TaggedRange])
    ensures { ram.new ≡ sets ram.old 0 (map ram_low (ram_rows words.now)) }
{
    for (i, row) in words.chunks_exact(3).enumerate() {
        let range = range_in(row);
        let tag = (row[2] % NODE_BOUND) as u32;
        put(ram, i, TaggedRange { range, tag });
    }
}

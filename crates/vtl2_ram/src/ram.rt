// The chosen RAM.
ghost use Rattle.std.specs.Prelude.{◌≡◌, [], ◌∷◌};
ghost use Rattle.memory_range.specs.Bytes.{Ordered};
ghost use Rattle.memory_range.specs.List.{ranges_in};
ghost use Rattle.boot_ram.specs.Held.{bytes_of, holding};
ghost use Rattle.vtl2_ram.specs.Ram.{no_entries, ram_of, ram_entries};

use boot_ram::Chosen;
use host_params::MAX_VTL2_RAM_RANGES;
use memory_range::{MemoryRange, TaggedRange};

// The chosen entries stand in the first places, ascending by start. In the places behind them is no range.
#[derive(Clone, Copy)]
pub struct Vtl2Ram {
    pub entries: [TaggedRange; MAX_VTL2_RAM_RANGES],
    pub count: usize,
    // The bytes of all entries.
    pub bytes: u64,
}

impl Vtl2Ram {
    // The chosen entries.
    pub fn as_slice(&self) -> &[TaggedRange]
        ensures { result.now ≡ ram_entries self.now }
    {
        &self.entries[..self.count.min(MAX_VTL2_RAM_RANGES)]
    }
}

fn no_entries() -> [TaggedRange; MAX_VTL2_RAM_RANGES]
    ensures { result ≡ no_entries }
{
    [TaggedRange::default(); MAX_VTL2_RAM_RANGES]
}

// The bytes of entries in order. They are disjoint, so that 64 bits hold their number.
pub(crate) fn total_bytes(entries: &[TaggedRange]) -> u64
    requires { Ordered 0 (ranges_in entries.now) }
    ensures { result ≡ bytes_of entries.now }
{
    let mut bytes: u64 = 0;
    for entry in entries {
        bytes += entry.range.end - entry.range.start;
    }
    bytes
}

pub(crate) fn chosen_ram(chosen: &Chosen) -> Vtl2Ram
    requires { Ordered 0 (ranges_in chosen.now.items) }
    ensures { result ≡ ram_of chosen.now.items }
{
    let list = chosen.as_slice();
    let count = list.len();
    let mut entries = no_entries();
    entries[..count].copy_from_slice(list);
    Vtl2Ram {
        entries,
        count,
        bytes: total_bytes(list),
    }
}

// One range on node 0.
pub(crate) fn ram_on_node_0(range: MemoryRange) -> Vtl2Ram
    ensures { result ≡ ram_of (holding range 0 ∷ []) }
{
    let mut entries = no_entries();
    entries[0] = TaggedRange { range, tag: 0 };
    Vtl2Ram {
        entries,
        count: 1,
        bytes: range.len(),
    }
}

// The memory that each node gives.
ghost use Rattle.std.specs.Prelude.{◌≡◌};
ghost use Rattle.boot_nodes.specs.Share.{share_per_node};

use memory_range::round_up;

// The lower VTL's permission bitmaps have a byte for eight pages, and RAM has to end where such a
// byte does.
pub const ALIGNMENT_GRANULARITY: u64 = 32_768;

// Divided down first, then rounded up.
pub fn ram_per_node(vtl2_size: u64, numa_node_count: usize) -> Option<u64>
    ensures { result ≡ share_per_node vtl2_size numa_node_count }
{
    if numa_node_count == 0 {
        return Some(0);
    }
    round_up(vtl2_size / numa_node_count as u64, ALIGNMENT_GRANULARITY)
}

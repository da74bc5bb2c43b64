// The nodes of a table.
ghost use Rattle.std.specs.Prelude.{◌≡◌, ◌++◌, ◌≤◌, length, drop};
ghost use Rattle.address_space.specs.Table.{entries_of};
ghost use Rattle.private_pool.specs.Piece.{table_nodes};
ghost use Rattle.private_pool.specs.Pool.{max_pool_ranges};

use crate::pool::MAX_POOL_RANGES;
use address_space::AddressSpaceManager;
use range_lists::insert_node;

// Puts the nodes of the table's entries into the array, ascending and without repeats, and answers
// how many there are. A table has no more entries than the array has places, so there is always
// room, and None is never answered.
pub(crate) fn table_nodes(
    manager: AddressSpaceManager,
    numa_nodes: &mut [u32; MAX_POOL_RANGES],
) -> usize
    requires { length numa_nodes.old ≡ max_pool_ranges }
    ensures { let nodes = table_nodes (entries_of manager) in (result ≡ length nodes)
        × (result ≤ max_pool_ranges)
        × (numa_nodes.new ≡ nodes ++ drop (length nodes) numa_nodes.old) }
{
    let mut count = 0;
    for entry in manager.entries() {
        match insert_node(numa_nodes, count, entry.vnode) {
            Some(more) => count = more,
            None => return count,
        }
    }
    count
}

// The pool split over the nodes of the table.
ghost use Rattle.std.specs.Prelude.{◌≡◌, ◌+◌, ◌≤◌, ◌<◌, cond, eqb, length};
ghost use Rattle.address_space.specs.Table.{entries_of};
ghost use Rattle.private_pool.specs.Piece.{split_pieces};
ghost use Rattle.private_pool.specs.Pool.{max_pool_ranges, pages_bound, place_pieces, split_placed, pool_as};

use crate::nodes::table_nodes;
use crate::piece::{piece_refusal, place_piece};
use crate::pool::{MAX_POOL_RANGES, PrivatePool, no_range, refused};
use address_space::AddressSpaceManager;
use refusal::Refusal;

// The pages of the piece at an index: the last one has those that the others leave.
fn piece_pages(share: u64, remainder: u64, at: usize, count: usize) -> u64
    requires among { at < count }
    requires fits { share + remainder < pages_bound }
    ensures { result ≡ cond (eqb (at + 1) count) (share + remainder) share }
{
    if at + 1 == count {
        return share + remainder;
    }
    share
}

// A piece on each of the nodes, each on the table that the one before it left. The pieces are placed
// in a copy of the table, so that a refusal has the table that was given. How long a piece is depends on
// its index.
fn place_pieces(manager: AddressSpaceManager, pages: u64, nodes: &[u32]) -> PrivatePool
    requires some { 0 < length nodes.now }
    requires room { length nodes.now ≤ max_pool_ranges }
    requires fits { pages < pages_bound }
    ensures { result ≡ pool_as manager (place_pieces (split_pieces pages nodes.now) (entries_of manager)) }
{
    let count = nodes.len();
    let share = pages / count as u64;
    let remainder = pages % count as u64;
    let none = no_range();
    let mut ranges = [none; MAX_POOL_RANGES];
    let mut current = manager;
    for i in 0..count {
        let piece = piece_pages(share, remainder, i, count);
        let allocation = place_piece(current, nodes[i], piece);
        match allocation.answer {
            Ok(range) => ranges[i] = range,
            Err(refusal) => return refused(manager, piece_refusal(refusal)),
        }
        current = allocation.manager;
    }
    PrivatePool {
        answer: Ok(count),
        ranges,
        manager: current,
    }
}

// Every node of the table needs a page at least.
pub(crate) fn split_pool(manager: AddressSpaceManager, pages: u64) -> PrivatePool
    requires { pages < pages_bound }
    ensures { result ≡ pool_as manager (split_placed pages (entries_of manager)) }
{
    let mut numa_nodes = [0u32; MAX_POOL_RANGES];
    let count = table_nodes(manager, &mut numa_nodes);
    if count == 0 || pages < count as u64 {
        return refused(manager, Refusal::PoolSplit);
    }
    place_pieces(manager, pages, &numa_nodes[..count])
}

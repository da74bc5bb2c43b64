// The placement of the pool.
ghost use Rattle.std.specs.Prelude.{◌≡◌, ◌∷◌, drop, Ok};
ghost use Rattle.address_space.specs.Table.{entries_of};
ghost use Rattle.private_pool.specs.Pool.{pool_placed, no_ranges, pool_as};

use crate::piece::place_piece;
use crate::pool::{MAX_POOL_RANGES, PrivatePool, no_range, refused};
use crate::split::split_pool;
use address_space::{AddressSpaceManager, AllocatedRange};
use refusal::Refusal;

// A pool has fewer pages than these: the bytes of so many need more than 64 bits.
const POOL_PAGES_BOUND: u64 = 0x10_0000_0000_0000;

// A pool of one range, and the table that it was placed in.
fn whole_pool(manager: AddressSpaceManager, range: AllocatedRange) -> PrivatePool
    ensures { result ≡ record { answer = Ok 1; ranges = range ∷ drop 1 no_ranges; manager = manager } }
{
    let none = no_range();
    let mut ranges = [none; MAX_POOL_RANGES];
    ranges[0] = range;
    PrivatePool {
        answer: Ok(1),
        ranges,
        manager,
    }
}

// The whole pool on node 0 comes first, since older images know no split pool. All is taken from the
// top, so that what the boot shim uses may grow at the bottom. A pool without pages is not searched
// for on node 0. A refusal there that is not for want of an entry that fits is the answer: only
// where no entry fits is the pool split.
pub fn allocate_private_pool(
    manager: AddressSpaceManager,
    pages: u64,
    force_numa_split: bool,
) -> PrivatePool
    ensures { result ≡ pool_as manager (pool_placed pages force_numa_split (entries_of manager)) }
{
    if POOL_PAGES_BOUND <= pages {
        return refused(manager, Refusal::PoolTooLarge);
    }
    if force_numa_split || pages == 0 {
        return split_pool(manager, pages);
    }
    let allocation = place_piece(manager, 0, pages);
    match allocation.answer {
        Ok(range) => whole_pool(allocation.manager, range),
        Err(refusal) => {
            if refusal == Refusal::NoFit {
                return split_pool(manager, pages);
            }
            refused(manager, refusal)
        }
    }
}

// What a placement answers.
ghost use Rattle.std.specs.Prelude.{◌≡◌};
ghost use Rattle.private_pool.specs.Pool.{no_range, pool_refused_with};

use address_space::{AddressSpaceManager, AllocatedRange};
use memory_range::MemoryRange;
use refusal::Refusal;

// A table of 256 entries has at most so many nodes, and a pool one range on each.
pub const MAX_POOL_RANGES: usize = 256;

// How many ranges are placed, the ranges in the order of their nodes, and the table afterwards.
#[derive(Clone, Copy)]
pub struct PrivatePool {
    pub answer: Result<usize, Refusal>,
    pub ranges: [AllocatedRange; MAX_POOL_RANGES],
    pub manager: AddressSpaceManager,
}

// What the places of an answer hold that no range is stored in.
pub(crate) fn no_range() -> AllocatedRange
    ensures { result ≡ no_range }
{
    AllocatedRange {
        range: MemoryRange { start: 0, end: 0 },
        vnode: 0,
    }
}

// A refusal has no ranges, and the table is the one that was given.
pub(crate) fn refused(manager: AddressSpaceManager, refusal: Refusal) -> PrivatePool
    ensures { result ≡ pool_refused_with manager refusal }
{
    let none = no_range();
    PrivatePool {
        answer: Err(refusal),
        ranges: [none; MAX_POOL_RANGES],
        manager,
    }
}

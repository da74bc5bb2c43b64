// The private pool of a plan.
ghost use Rattle.std.specs.Prelude.{◌≡◌};
ghost use Rattle.plan.specs.Pool.{has_pool, pages_wanted, no_pool_in, pool_for};

use address_space::{AddressSpaceManager, AllocatedRange};
use dma_hint::pick_private_pool_size;
use host_params::IsolationType;
use memory_range::MemoryRange;
use plan_record::Pool;
use private_pool::{MAX_POOL_RANGES, PrivatePool, allocate_private_pool};

// An isolated guest has no private pool.
fn has_pool(isolation: IsolationType) -> bool
    ensures { result ≡ has_pool isolation }
{
    isolation == IsolationType::None
}

// The pages of the pool for so many bytes of RAM, if there is to be one.
#[tactic(auto, unfolding(crate::specs::Pool::pages_wanted))]
fn pages_wanted(isolation: IsolationType, pool: Pool, ram_bytes: u64) -> Option<u64>
    ensures { result ≡ pages_wanted isolation pool ram_bytes }
{
    if !has_pool(isolation) {
        return None;
    }
    pick_private_pool_size(pool.config, pool.host_pages, pool.processors, ram_bytes)
}

fn no_pool(manager: AddressSpaceManager) -> PrivatePool
    ensures { result ≡ no_pool_in manager }
{
    let none = AllocatedRange {
        range: MemoryRange { start: 0, end: 0 },
        vnode: 0,
    };
    PrivatePool {
        answer: Ok(0),
        ranges: [none; MAX_POOL_RANGES],
        manager,
    }
}

// The pool is sized by the RAM's bytes and placed in the table.
pub(crate) fn place_pool(
    isolation: IsolationType,
    pool: Pool,
    ram_bytes: u64,
    manager: AddressSpaceManager,
) -> PrivatePool
    ensures { result ≡ pool_for (pages_wanted isolation pool ram_bytes) pool.split manager }
{
    match pages_wanted(isolation, pool, ram_bytes) {
        None => no_pool(manager),
        Some(pages) => allocate_private_pool(manager, pages, pool.split),
    }
}

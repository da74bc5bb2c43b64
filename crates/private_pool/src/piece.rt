// A piece of the pool.
ghost use Rattle.std.specs.Prelude.{◌≡◌, ◌<◌};
ghost use Rattle.address_space.specs.Request.{allocation_as};
ghost use Rattle.address_space.specs.Table.{entries_of};
ghost use Rattle.host_params.specs.declared.AllocationType.TheVariants as type;
ghost use Rattle.private_pool.specs.Piece.{piece};
ghost use Rattle.private_pool.specs.Pool.{pages_bound, piece_on, piece_refusal};

use address_space::{AddressSpaceManager, Allocation};
use host_params::{AllocationPolicy, AllocationType};
use memory_range::PAGE_SIZE;
use refusal::Refusal;

// So many pages of a node, from the top of its highest entry that has them.
pub(crate) fn place_piece(manager: AddressSpaceManager, vnode: u32, pages: u64) -> Allocation
    requires { pages < pages_bound }
    ensures { result ≡ allocation_as manager type.GpaPool (piece_on (piece vnode pages) (entries_of manager)) }
{
    manager.allocate_inner(
        Some(vnode),
        pages * PAGE_SIZE,
        AllocationType::GpaPool,
        AllocationPolicy::HighMemory,
        None,
    )
}

// What a split is refused with where a piece of it is.
pub(crate) fn piece_refusal(refusal: Refusal) -> Refusal
    ensures { result ≡ piece_refusal refusal }
{
    match refusal {
        Refusal::NoFit => Refusal::PoolNodeNoFit,
        other => other,
    }
}

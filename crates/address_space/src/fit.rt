// Whether an entry can serve a request.
ghost use Rattle.std.specs.Prelude.{◌≡◌};
ghost use Rattle.address_space.specs.Fit.{on_asked_node, aligned_to, fits_in};

use crate::table::AddressRange;
use memory_range::MemoryRange;

fn on_asked_node(required_vnode: Option<u32>, vnode: u32) -> bool
    ensures { result ≡ on_asked_node required_vnode vnode }
{
    required_vnode.is_none_or(|node| node == vnode)
}

// The part that a request may be cut from.
pub(crate) fn aligned_to(alignment: Option<u64>, range: MemoryRange) -> MemoryRange
    ensures { result ≡ aligned_to alignment range }
{
    alignment.map_or(range, |alignment| range.aligned_subrange(alignment))
}

pub(crate) fn fits_in(
    entry: AddressRange,
    required_vnode: Option<u32>,
    len: u64,
    alignment: Option<u64>,
) -> bool
    ensures { result ≡ fits_in required_vnode len alignment entry }
{
    entry.usage.is_free()
        && (on_asked_node(required_vnode, entry.vnode)
            && (len <= entry.range.len() && len <= aligned_to(alignment, entry.range).len()))
}

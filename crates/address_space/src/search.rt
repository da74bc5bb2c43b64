// The search for an entry that fits.
ghost use Rattle.std.specs.Prelude.{◌≡◌};
ghost use Rattle.address_space.specs.Fit.{fits_in};
ghost use Rattle.address_space.specs.Search.{searched, place_found};

use crate::fit::fits_in;
use crate::table::AddressRange;
use host_params::AllocationPolicy;

// The index of the chosen entry, if there is one. Low looks from the bottom, high from the top.
pub(crate) fn find_index(
    entries: &[AddressRange],
    required_vnode: Option<u32>,
    len: u64,
    policy: AllocationPolicy,
    alignment: Option<u64>,
) -> Option<usize>
    ensures { result ≡ place_found policy (searched policy (fits_in required_vnode len alignment) entries.now) }
{
    let fits = |entry: &AddressRange| fits_in(*entry, required_vnode, len, alignment);
    match policy {
        AllocationPolicy::LowMemory => entries.iter().position(fits),
        AllocationPolicy::HighMemory => entries.iter().rposition(fits),
    }
}

// Requests that change the table in its place: each stores what the request by value gives.
ghost use Rattle.std.specs.Prelude.{◌≡◌, Some, None};
ghost use Rattle.address_space.specs.Request.{requested_on};

use crate::request::AllocatedRange;
use crate::table::AddressSpaceManager;
use host_params::{AllocationPolicy, AllocationType};
use refusal::Refusal;

impl AddressSpaceManager {
    // Hands out a range of at least len bytes, of the node if one is given. A refusal leaves the table as
    // found.
    pub fn allocate(
        &mut self,
        required_vnode: Option<u32>,
        len: u64,
        allocation_type: AllocationType,
        allocation_policy: AllocationPolicy,
    ) -> Result<AllocatedRange, Refusal>
        ensures { let allocation = requested_on self.old required_vnode len allocation_type allocation_policy None in (result ≡ allocation.answer) × (self.new ≡ allocation.manager) }
    {
        let allocation = self.request(required_vnode, len, allocation_type, allocation_policy);
        *self = allocation.manager;
        allocation.answer
    }

    // The same, with the start of a low range, or the end of a high one, a multiple of the alignment.
    pub fn allocate_aligned(
        &mut self,
        required_vnode: Option<u32>,
        len: u64,
        allocation_type: AllocationType,
        allocation_policy: AllocationPolicy,
        alignment: u64,
    ) -> Result<AllocatedRange, Refusal>
        ensures { let aligned = requested_on self.old required_vnode len allocation_type allocation_policy (Some alignment) in (result ≡ aligned.answer) × (self.new ≡ aligned.manager) }
    {
        let allocation = self.request_aligned(
            required_vnode,
            len,
            allocation_type,
            allocation_policy,
            alignment,
        );
        *self = allocation.manager;
        allocation.answer
    }
}

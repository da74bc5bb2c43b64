// Requests for memory.
ghost use Rattle.std.specs.Prelude.{◌≡◌, ◌+◌, ◌<◌, length, take, drop, get_or, Some, None};
ghost use Rattle.memory_range.specs.Round.{round_up};
ghost use Rattle.memory_range.specs.Valid.{page_size};
ghost use Rattle.refusal.specs.Answer.{rows_as};
ghost use Rattle.address_space.specs.Request.{alignment_good, rows_refusal, length_as, placed, allocated, refused_with, allocation_as, requested_on, search_refusal};
ghost use Rattle.address_space.specs.Table.{entries_of, no_entry};

use crate::fit::aligned_to;
use crate::search::find_index;
use crate::split::{allotted_part, split_parts};
use crate::table::{AddressSpaceManager, MAX_ADDRESS_RANGES};
use crate::usage::{is_pool, usage_for};
use host_params::{AllocationPolicy, AllocationType};
use memory_range::{MemoryRange, PAGE_SIZE, is_power_of_two, round_up};
use refusal::Refusal;

// What is handed out.
#[derive(Clone, Copy)]
pub struct AllocatedRange {
    pub range: MemoryRange,
    pub vnode: u32,
}

// The answer, and the table afterwards.
#[derive(Clone, Copy)]
pub struct Allocation {
    pub answer: Result<AllocatedRange, Refusal>,
    pub manager: AddressSpaceManager,
}

fn is_good(alignment: Option<u64>) -> bool
    ensures { result ≡ alignment_good alignment }
{
    alignment.is_none_or(|alignment| is_power_of_two(alignment))
}

// Rows 22 to 24, and the length rounded up to pages.
fn check_rows(len: u64, alignment: Option<u64>) -> Result<u64, Refusal>
    ensures { result ≡ length_as (rows_refusal len alignment) (round_up page_size len) }
{
    if len == 0 {
        return Err(Refusal::LengthZero);
    }
    let Some(rounded) = round_up(len, PAGE_SIZE) else {
        return Err(Refusal::LengthTooLarge);
    };
    if !is_good(alignment) {
        return Err(Refusal::AlignmentInvalid);
    }
    Ok(rounded)
}

fn refused(manager: &AddressSpaceManager, refusal: Refusal) -> Allocation
    ensures { result ≡ refused_with manager.now refusal }
{
    Allocation {
        answer: Err(refusal),
        manager: *manager,
    }
}

// The entry at an index is split, unless the table has no room for its parts. The table is lent down to
// here and copied once: each function that takes it and gives it back would copy it twice.
fn allocate_range(
    manager: &AddressSpaceManager,
    at: usize,
    len: u64,
    allocation_type: AllocationType,
    allocation_policy: AllocationPolicy,
    alignment: Option<u64>,
) -> Allocation
    requires { at < length (entries_of manager.now) }
    ensures { let es = entries_of manager.now in result ≡ allocation_as manager.now allocation_type
        (placed len allocation_type allocation_policy alignment (take at es) (get_or es at no_entry) (drop (at + 1) es)) }
{
    let entry = manager.address_space[at];
    let used = allotted_part(aligned_to(alignment, entry.range), len, allocation_policy);
    let parts = split_parts(entry, used, usage_for(allocation_type));
    let count = manager.len();
    if MAX_ADDRESS_RANGES < count + parts.added {
        return refused(manager, Refusal::TableFull);
    }
    let mut table = *manager;
    table
        .address_space
        .copy_within(at + 1..count, at + 1 + parts.added);
    table.address_space[at] = parts.first;
    table.address_space[at + parts.below] = parts.used;
    table.address_space[at + parts.added] = parts.last;
    table.count = count + parts.added;
    table.vtl2_pool |= is_pool(allocation_type);
    Allocation {
        answer: Ok(AllocatedRange {
            range: used,
            vnode: entry.vnode,
        }),
        manager: table,
    }
}

impl AddressSpaceManager {
    // The search and the split, for a length in whole pages and an alignment that is good. They stand
    // apart from the rows above them, since a private pool's pieces are placed by them alone.
    pub fn allocate_inner(
        self,
        required_vnode: Option<u32>,
        len: u64,
        allocation_type: AllocationType,
        allocation_policy: AllocationPolicy,
        alignment: Option<u64>,
    ) -> Allocation
        ensures { result ≡ allocation_as self allocation_type
            (allocated required_vnode len allocation_type allocation_policy alignment (entries_of self)) }
    {
        match find_index(
            self.entries(),
            required_vnode,
            len,
            allocation_policy,
            alignment,
        ) {
            None => refused(&self, Refusal::NoFit),
            Some(at) => allocate_range(
                &self,
                at,
                len,
                allocation_type,
                allocation_policy,
                alignment,
            ),
        }
    }

    // Rows 22 to 25 of a request: that it is refused by one, or that an entry fits. The table is lent and only
    // the answer comes back, so a caller that asks this first copies none for a request that is refused.
    pub fn check_request(
        &self,
        required_vnode: Option<u32>,
        len: u64,
        allocation_policy: AllocationPolicy,
        alignment: Option<u64>,
    ) -> Result<(), Refusal>
        ensures { result ≡ rows_as (search_refusal required_vnode len allocation_policy alignment (entries_of self.now)) }
    {
        let len = check_rows(len, alignment)?;
        match find_index(
            self.entries(),
            required_vnode,
            len,
            allocation_policy,
            alignment,
        ) {
            None => Err(Refusal::NoFit),
            Some(_) => Ok(()),
        }
    }

    // The rows above the search, and then the search and the split.
    fn request_with(
        &self,
        required_vnode: Option<u32>,
        len: u64,
        allocation_type: AllocationType,
        allocation_policy: AllocationPolicy,
        alignment: Option<u64>,
    ) -> Allocation
        ensures { result ≡ requested_on self.now required_vnode len allocation_type allocation_policy alignment }
    {
        match check_rows(len, alignment) {
            Err(refusal) => refused(self, refusal),
            Ok(len) => (*self).allocate_inner(
                required_vnode,
                len,
                allocation_type,
                allocation_policy,
                alignment,
            ),
        }
    }

    // Hands out a range of at least len bytes, of the node if one is given. By value, for callers that
    // keep the table themselves.
    pub fn request(
        self,
        required_vnode: Option<u32>,
        len: u64,
        allocation_type: AllocationType,
        allocation_policy: AllocationPolicy,
    ) -> Allocation
        ensures { result ≡ requested_on self required_vnode len allocation_type allocation_policy None }
    {
        self.request_with(
            required_vnode,
            len,
            allocation_type,
            allocation_policy,
            None,
        )
    }

    // The same, with the start of a low range, or the end of a high one, a multiple of the alignment.
    // By value too.
    pub fn request_aligned(
        self,
        required_vnode: Option<u32>,
        len: u64,
        allocation_type: AllocationType,
        allocation_policy: AllocationPolicy,
        alignment: u64,
    ) -> Allocation
        ensures { result ≡ requested_on self required_vnode len allocation_type allocation_policy (Some alignment) }
    {
        self.request_with(
            required_vnode,
            len,
            allocation_type,
            allocation_policy,
            Some(alignment),
        )
    }
}

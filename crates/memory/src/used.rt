// What of the RAM is not free: the used range cut up by the reserved ranges, and the pool ranges.
ghost use Rattle.std.specs.Prelude.{◌≡◌, true, [], ◌∷◌, ◌++◌, ◌+◌, ◌≤◌, length};
ghost use Rattle.refusal.specs.Number.{reserved_outside_used, pool_ranges};
ghost use Rattle.refusal.specs.Rows.{refused_if};
ghost use Rattle.arrayvec.specs.ArrayVec.{array_vec_len};
ghost use Rattle.memory_range.specs.List.{ranges_in};
ghost use Rattle.range_lists.specs.Sort.{sort_by_start};
ghost use Rattle.memory_range.specs.Valid.{all_valid_of};
ghost use Rattle.address_space.specs.declared.usage.ReservedMemoryType.TheVariants.{Vtl2GpaPool};
ghost use Rattle.memory.specs.Builder.{all_as, reserved_count, singles_valid};
ghost use Rattle.memory.specs.Rows.{max_reserved};
ghost use Rattle.memory.specs.Used.{any_outside, pieces_of, pools_bad, used_of, used_refusal, CutUp, ListedIn};

use crate::builder::AddressSpaceManagerBuilder;
use crate::reserved::{ReservedList, list_reserved, push_all};
use address_space::{ReservedMemoryType, USED};
use arrayvec::ArrayVec;
use memory_range::{MemoryRange, TaggedRange, ranges_ascend};
use range_lists::{RangeWalkResult, WalkCursor, sort_by_start, walk_ranges};
use refusal::Refusal;

const MAX_POOL_RANGES: usize = 64;

const MAX_USED_RANGES: usize = 84;

pub(crate) type UsedList = ArrayVec<TaggedRange, MAX_USED_RANGES>;

// Row 19, and the pieces of the used range.
fn walk_used(
    used: MemoryRange,
    reserved: &[TaggedRange],
    list: &mut UsedList,
) -> Result<(), Refusal>
    requires { length reserved.now ≤ max_reserved }
    ensures { let refusal = refused_if (any_outside (used ∷ []) (ranges_in reserved.now)) reserved_outside_used in
        ListedIn refusal (pieces_of used reserved.now) result list.new.items }
{
    list.clear();
    let mut at = WalkCursor::start();
    while let Some((piece, next)) = walk_ranges(&[used], reserved, at) {
        let tag = match piece.result {
            RangeWalkResult::Left(_) => USED,
            RangeWalkResult::Right(_) => return Err(Refusal::ReservedOutsideUsed),
            RangeWalkResult::Both(_, item) => reserved[item].tag,
        };
        list.push(TaggedRange {
            range: piece.range,
            tag,
        });
        at = next;
    }
    Ok(())
}

// Row 20: the pool ranges behind the used pieces, and all in order of start. An overlap shows there,
// since the pieces are the used range, which is named for the contract alone.
fn add_pools(used: MemoryRange, pools: &[MemoryRange], list: &mut UsedList) -> Result<(), Refusal>
    requires pools_valid { all_valid_of pools.now ≡ true }
    requires cut_up { CutUp used list.old.items }
    ensures { let refusal = refused_if (pools_bad used (array_vec_len list.old) pools.now) pool_ranges in
        ListedIn refusal (sort_by_start (list.old.items ++ all_as Vtl2GpaPool pools.now)) result list.new.items }
{
    if pools.len() > MAX_POOL_RANGES || pools.len() > list.remaining_capacity() {
        return Err(Refusal::PoolRanges);
    }
    push_all(list, ReservedMemoryType::Vtl2GpaPool, pools);
    sort_by_start(list.as_mut_slice());
    if !ranges_ascend(list.as_slice()) {
        return Err(Refusal::PoolRanges);
    }
    Ok(())
}

// Rows 18 to 20, and all that is not free, in order of start.
pub(crate) fn list_used(
    builder: AddressSpaceManagerBuilder,
    configs: &[MemoryRange],
    pools: &[MemoryRange],
    list: &mut UsedList,
) -> Result<(), Refusal>
    requires singles_valid { singles_valid builder ≡ true }
    requires configs_valid { all_valid_of configs.now ≡ true }
    requires pools_valid { all_valid_of pools.now ≡ true }
    requires reserved_fit { reserved_count builder configs.now ≤ max_reserved }
    ensures { ListedIn (used_refusal builder configs.now pools.now) (used_of builder configs.now pools.now) result list.new.items }
{
    let mut reserved = ReservedList::new();
    list_reserved(builder, configs, &mut reserved);
    sort_by_start(reserved.as_mut_slice());
    let sorted = reserved.as_slice();
    if !ranges_ascend(sorted) {
        return Err(Refusal::ReservedOverlap);
    }
    walk_used(builder.bootshim_used, sorted, list)?;
    add_pools(builder.bootshim_used, pools, list)
}

// The calls on a table: builds, requests, lists and placements. Where one changes the table, all of it
// afterwards is in the answer.
use super::kinds::{optional, reserved_number, vtl_type_number};
use super::line::Case;
use super::lists::{ranges_of, tagged_of};
use super::ops;
use super::ranges::range;
use super::tables::{same_table, table_of};
use super::words::{Stored, low_32_bits, part, word_at, words_at};
use address_space::{
    AddressSpaceManager, AllocatedRange, Allocation, MAX_ADDRESS_RANGES, ReservedRange, Vtl2Range,
};
use host_params::{AllocationPolicy, AllocationType};
use memory::AddressSpaceManagerBuilder;
use memory_range::MemoryRange;
use private_pool::{PrivatePool, allocate_private_pool};
use refusal::Refusal;

// Word 2 tells which of the ranges from word 7 on are given.
fn builder(words: &[u64]) -> AddressSpaceManagerBuilder {
    let [given, start, end, file_start, file_end] = words_at::<5>(words, 2);
    let [reserved_start, reserved_end, sidecar_start, sidecar_end] = words_at::<4>(words, 7);
    let [tables_start, tables_end, log_start, log_end] = words_at::<4>(words, 11);
    let used = range(start, end);
    let mut builder = AddressSpaceManagerBuilder::new(used, range(file_start, file_end));
    if given % 2 == 1 {
        builder = builder.with_reserved_range(range(reserved_start, reserved_end));
    }
    if given / 2 % 2 == 1 {
        builder = builder.with_sidecar_image(range(sidecar_start, sidecar_end));
    }
    if given / 4 % 2 == 1 {
        builder = builder.with_page_tables(range(tables_start, tables_end));
    }
    if given / 8 % 2 == 1 {
        builder = builder.with_log_buffer(range(log_start, log_end));
    }
    builder
}

// The refusal's number or 0, then the table.
fn built(stored: Stored, case: &Case, words: &[u64], table: AddressSpaceManager) -> Option<usize> {
    let ram = tagged_of(
        case.list(words, 2),
        case.list(words, 3),
        case.list(words, 4),
    );
    let configs = ranges_of(case.list(words, 5), case.list(words, 6));
    let pools = ranges_of(case.list(words, 7), case.list(words, 8));
    let init = builder(words).init(table, ram.as_slice(), configs.as_slice(), pools.as_slice());
    let number = match init.answer {
        Err(refusal) => refusal.number(),
        Ok(()) => 0,
    };
    let at = stored.same_word(0, u64::from(number))?;
    same_table(stored, at, init.manager)
}

fn vnode(is_given: u64, node: u64) -> Option<u32> {
    optional(is_given, node).map(low_32_bits)
}

fn allocation_type(number: u64) -> AllocationType {
    match number {
        0 => AllocationType::GpaPool,
        1 => AllocationType::SidecarNode,
        _ => AllocationType::TdxPageTables,
    }
}

fn policy(number: u64) -> AllocationPolicy {
    match number {
        0 => AllocationPolicy::LowMemory,
        _ => AllocationPolicy::HighMemory,
    }
}

fn request(table: AddressSpaceManager, words: &[u64]) -> Allocation {
    let [
        has_vnode,
        node,
        len,
        to_type,
        to_policy,
        is_aligned,
        alignment,
    ] = words_at::<7>(words, 2);
    let vnode = vnode(has_vnode, node);
    let allocation_type = allocation_type(to_type);
    let policy = policy(to_policy);
    if is_aligned == 1 {
        return table.request_aligned(vnode, len, allocation_type, policy, alignment);
    }
    table.request(vnode, len, allocation_type, policy)
}

fn same_allocated(stored: Stored, answer: Result<AllocatedRange, Refusal>) -> Option<usize> {
    match answer {
        Err(refusal) => stored.same_word(0, u64::from(refusal.number())),
        Ok(handed) => {
            let range = handed.range;
            stored.same_words(0, &[0, range.start, range.end, u64::from(handed.vnode)])
        }
    }
}

// The refusal's number; or 0, the range and its node. Then the table.
fn requested(stored: Stored, allocation: Allocation) -> Option<usize> {
    let at = same_allocated(stored, allocation.answer)?;
    same_table(stored, at, allocation.manager)
}

// A list of a table, with the number of its words in front, by its steps: each answers an item, and from where to
// go on. They take one turn more than a table has entries: a list that has not ended by then is too long. A list is
// gone through to its end and its number compared even behind a word that differs, and one behind such a list from
// the first place on.
fn listed<T: Copy, F: Fn(usize) -> Option<(T, usize)>, G: Fn(usize, T) -> Option<usize>>(
    stored: Stored,
    front: Option<usize>,
    step: F,
    same: G,
) -> Option<usize>
    requires steps { F.IsAlwaysCallable step }
    requires compares { G.IsAlwaysCallable same }
{
    let first = front.map_or(0, |front| front.wrapping_add(1));
    let mut at = Some(first);
    let mut index = 0;
    for _ in 0..MAX_ADDRESS_RANGES + 1 {
        let Some((item, next)) = step(index) else {
            let count = at.unwrap_or(usize::MAX).wrapping_sub(first);
            stored.same_word(front?, count as u64)?;
            return at;
        };
        if let Some(place) = at {
            at = same(place, item);
        }
        index = next;
    }
    None
}

fn joined(stored: Stored, front: Option<usize>, table: AddressSpaceManager) -> Option<usize> {
    listed(
        stored,
        front,
        |index| table.vtl2_ranges(index),
        |at, found: Vtl2Range| {
            let range = found.range;
            stored.same_words(
                at,
                &[range.start, range.end, vtl_type_number(found.vtl_type)],
            )
        },
    )
}

fn reserved(stored: Stored, front: Option<usize>, table: AddressSpaceManager) -> Option<usize> {
    listed(
        stored,
        front,
        |index| table.reserved_vtl2_ranges(index),
        |at, found: ReservedRange| {
            let range = found.range;
            stored.same_words(
                at,
                &[range.start, range.end, reserved_number(found.reserved_type)],
            )
        },
    )
}

fn free(
    stored: Stored,
    front: Option<usize>,
    table: AddressSpaceManager,
    vnode: u32,
) -> Option<usize> {
    listed(
        stored,
        front,
        |index| table.free_ranges(vnode, index),
        |at, range: MemoryRange| stored.same_words(at, &[range.start, range.end]),
    )
}

// The flag, and the three lists.
fn lists(stored: Stored, table: AddressSpaceManager, vnode: u32) -> Option<usize> {
    let front = stored.same_word(0, table.has_vtl2_pool() as u64);
    let front = joined(stored, front, table);
    let front = reserved(stored, front, table);
    free(stored, front, table, vnode)
}

// The places of the array, start, end and node of each.
fn same_pool(stored: Stored, pool: PrivatePool) -> Option<usize> {
    let mut next = 0;
    for piece in &pool.ranges {
        let range = piece.range;
        next = stored.same_words(next, &[range.start, range.end, u64::from(piece.vnode)])?;
    }
    stored.end(next)
}

// The refusal's number, no ranges and no words; or 0, the count of ranges and the number of their words.
fn placed_words(answer: Result<usize, Refusal>) -> [u64; 3] {
    match answer {
        Err(refusal) => [u64::from(refusal.number()), 0, 0],
        Ok(count) => [0, count as u64, count as u64 % 65_536 * 3],
    }
}

// These words, the ranges, and the table.
fn placed(stored: Stored, pool: PrivatePool) -> Option<usize> {
    stored.same_words(0, &placed_words(pool.answer))?;
    let end = (word_at(stored.words, 2) as usize).wrapping_add(3);
    let ranges = Stored {
        words: part(stored.words, 3, end),
        ..stored
    };
    same_pool(ranges, pool)?;
    same_table(stored, end, pool.manager)
}

// The table that a line gives: its flag and count are the first words, its entries list 1.
pub(crate) fn answer(stored: Stored, op: u64, case: &Case, words: &[u64]) -> Option<usize> {
    let [flag, count, third, fourth] = words_at::<4>(words, 0);
    let table = table_of(case.list(words, 1), count, flag);
    match op {
        ops::BUILD => built(stored, case, words, table),
        ops::GET => requested(stored, request(table, words)),
        ops::LIST => lists(stored, table, low_32_bits(third)),
        _ => placed(stored, allocate_private_pool(table, third, fourth == 1)),
    }
}

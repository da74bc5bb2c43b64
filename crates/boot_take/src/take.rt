// The taking of free memory, node by node, from the top.
ghost use Rattle.std.specs.Prelude.{◌≡◌, ◌≤◌, ◌++◌, [], length, replicate, MatchResult, Some, None};
ghost use Rattle.refusal.specs.Answer.{rows_as};
ghost use Rattle.boot_ram.specs.Laws.Verdict.{so_far, held_with};
ghost use Rattle.boot_take.specs.Take.{taken_start, need_on, taking};
ghost use Rattle.boot_nodes.specs.Node.{count_up};
ghost use Rattle.boot_take.specs.Laws.Linked.{Linked, Highest, Begins};
ghost use Rattle.boot_take.specs.Laws.TakeSteps.{take_below};

use boot_nodes::ALIGNMENT_GRANULARITY;
use boot_ram::{Chosen, Free, MAX_FREE_PIECES, hold};
use memory_range::{MemoryRange, TaggedRange};
use refusal::Refusal;

// Free entries are linked by the remainder of their node by this. The nodes of an accepted map are
// below it, so that each has a list of its own.
const NODE_CLASSES: usize = 64;

// Where the piece starts that is taken from the top of a free entry. It may be up to seven pages
// longer than what is needed, so that what is left below it ends where a byte of the bitmap does.
fn taken_start(entry: MemoryRange, need: u64) -> u64
    ensures { result ≡ taken_start need entry }
{
    let start = entry.end.saturating_sub(need);
    let aligned = start - start % ALIGNMENT_GRANULARITY;
    aligned.max(entry.start)
}

// What a node still needs beside the file's pieces on it.
fn need_on(share: u64, pieces: &[TaggedRange], node: u32) -> u64
    ensures { result ≡ need_on share pieces.now node }
{
    let mut need = share;
    for piece in pieces {
        if piece.tag == node {
            need = need.saturating_sub(piece.range.len());
        }
    }
    need
}

// Links each entry to the next lower one of the same remainder, and finds the highest of each. A
// place is an index and 1; 0 is none.
fn link_by_node(free: &[TaggedRange], highest: &mut [usize], lower: &mut [usize])
    requires { (length free.now ≤ length lower.old) × (highest.old ≡ replicate 64 0) }
    ensures linked { Linked free.now lower.new (length free.now) }
    ensures highest { Highest free.now highest.new (length free.now) }
    ensures lower_len_unchanged { length lower.new ≡ length lower.old }
    ensures highest_len { length highest.new ≡ 64 }
{
    for (i, entry) in free.iter().enumerate() {
        let class = entry.tag as usize % NODE_CLASSES;
        lower[i] = highest[class];
        highest[class] = i + 1;
    }
}

// Takes what one node needs, from the entries that are linked from a place on.
fn take_on(
    free: &[TaggedRange],
    lower: &[usize],
    top: usize,
    node: u32,
    required: u64,
    chosen: &mut Chosen,
) -> Result<(), Refusal>
    requires top_within { (top ≤ length free.now) × (top ≤ length lower.now) }
    requires linked { Linked free.now lower.now top }
    requires begins { Begins free.now node top }
    ensures { let taken = so_far [] chosen.old.items (take_below node required free.now top) in
        MatchResult result
        (λ _. taken ≡ held_with None [] chosen.new.items)
        (λ refusal. taken ≡ held_with (Some refusal) [] chosen.new.items) }
{
    let mut need = required;
    let mut place = top;
    while 0 < place && need != 0 {
        let entry = free[place - 1];
        place = lower[place - 1];
        if entry.tag == node {
            let piece = MemoryRange {
                start: taken_start(entry.range, need),
                end: entry.range.end,
            };
            hold(chosen, piece, node)?;
            need = need.saturating_sub(piece.len());
        }
    }
    if need != 0 {
        return Err(Refusal::NodeTooSmall);
    }
    Ok(())
}

// Takes what each node below the count needs to have its share. What is chosen before are the file's
// pieces.
pub fn take_ram(
    share: u64,
    numa_node_count: u32,
    free: &Free,
    chosen: &mut Chosen,
) -> Result<(), Refusal>
    ensures { let taken = taking share chosen.old.items free.now.items (count_up 0 numa_node_count) in (result ≡ rows_as taken.refusal)
        × (chosen.new.items ≡ chosen.old.items ++ taken.chosen) }
{
    let entries = free.as_slice();
    let mut highest = [0; NODE_CLASSES];
    let mut lower = [0; MAX_FREE_PIECES];
    link_by_node(entries, &mut highest, &mut lower);
    let pieces = chosen.len();
    for node in 0..numa_node_count {
        let need = need_on(share, &chosen[..pieces], node);
        let top = highest[node as usize % NODE_CLASSES];
        take_on(entries, &lower, top, node, need, chosen)?;
    }
    Ok(())
}

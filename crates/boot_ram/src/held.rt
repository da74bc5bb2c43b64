// The pieces that a part of boot selection holds, as many as there is room for.
ghost use Rattle.std.specs.Prelude.{◌≡◌, ◌++◌, ◌<◌, ◌≤◌, ◌∷◌, [], length, MatchResult};
ghost use Rattle.memory_range.specs.declared.range.TaggedRange.{TaggedRange};
ghost use Rattle.refusal.specs.Number.{too_many_pieces};
ghost use Rattle.boot_ram.specs.Held.{holding};

use arrayvec::ArrayVec;
use host_params::MAX_VTL2_RAM_RANGES;
use memory_range::{MemoryRange, TaggedRange};
use refusal::Refusal;

// A walk can hold at most so many free pieces.
pub const MAX_FREE_PIECES: usize = 1024;

pub type Chosen = ArrayVec<TaggedRange, MAX_VTL2_RAM_RANGES>;

pub type Free = ArrayVec<TaggedRange, MAX_FREE_PIECES>;

// Puts a piece with its node behind the others.
pub fn hold<const ROOM: usize>(
    held: &mut ArrayVec<TaggedRange, ROOM>,
    range: MemoryRange,
    tag: u32,
) -> Result<(), Refusal>
    ensures { MatchResult result
        (λ _. (length held.old.items < ROOM) × (held.new.items ≡ held.old.items ++ holding range tag ∷ []))
        (λ refusal. (refusal ≡ too_many_pieces) × (ROOM ≤ length held.old.items) × (held.new.items ≡ held.old.items)) }
{
    if held.is_full() {
        return Err(Refusal::TooManyPieces);
    }
    held.push(TaggedRange { range, tag });
    Ok(())
}

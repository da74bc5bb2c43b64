// The walk of the file's range with the map.
ghost use Rattle.std.specs.Prelude.{◌≡◌};
ghost use Rattle.host_map.specs.Map.{entries_in};
ghost use Rattle.refusal.specs.Answer.{rows_as};
ghost use Rattle.boot_ram.specs.File.{file_walk};

use crate::held::{Chosen, Free, hold};
use host_params::MemoryEntry;
use memory_range::MemoryRange;
use range_lists::{RangeWalkResult, WalkCursor, walk_ranges};
use refusal::Refusal;

// Pieces of the file are chosen RAM, the rest of the map is free. What both lists held before is gone.
pub fn walk_file(
    file: MemoryRange,
    map: &[MemoryEntry],
    chosen: &mut Chosen,
    free: &mut Free,
) -> Result<(), Refusal>
    ensures { let walked = file_walk file (entries_in map.now) in (result ≡ rows_as walked.refusal)
        × (chosen.new.items ≡ walked.chosen)
        × (free.new.items ≡ walked.free) }
{
    chosen.clear();
    free.clear();
    let file = [file];
    let mut at = WalkCursor::start();
    while let Some((piece, next)) = walk_ranges(&file, map, at) {
        match piece.result {
            RangeWalkResult::Left(_) => return Err(Refusal::FileNotInMap),
            RangeWalkResult::Right(item) => hold(free, piece.range, map[item].vnode)?,
            RangeWalkResult::Both(_, item) => hold(chosen, piece.range, map[item].vnode)?,
        }
        at = next;
    }
    Ok(())
}

// The imported ranges: they hold what was loaded before boot, so that nothing is taken from them.
ghost use Rattle.std.specs.Prelude.{◌≡◌};
ghost use Rattle.refusal.specs.Answer.{rows_as};
ghost use Rattle.boot_ram.specs.Import.{import_walk, imports_clear, is_tdx, is_excused, is_skipped};

use crate::held::{Free, hold};
use host_params::IsolationType;
use memory_range::{MemoryRange, TaggedRange};
use range_lists::{RangeWalkResult, WalkCursor, walk_ranges};
use refusal::Refusal;

// Whether each imported range lies inside the file or apart from it.
pub fn imports_clear(file: MemoryRange, imports: &[MemoryRange]) -> bool
    ensures { result ≡ imports_clear file imports.now }
{
    imports
        .iter()
        .all(|range| !file.overlaps(*range) || file.contains(*range))
}

fn is_tdx(isolation: IsolationType) -> bool
    ensures { result ≡ is_tdx isolation }
{
    isolation == IsolationType::Tdx
}

// A Tdx guest starts in the page below 4 GiB, which the host imports and does not count as RAM.
fn is_excused(isolation: IsolationType, range: MemoryRange) -> bool
    ensures { result ≡ is_excused isolation range }
{
    is_tdx(isolation) && (range.start == 0xfffff000 && range.end == 0x100000000)
}

// Whether a piece of an imported range that no free piece holds is passed over.
fn is_skipped(
    isolation: IsolationType,
    file: MemoryRange,
    import: MemoryRange,
    piece: MemoryRange,
) -> bool
    ensures { result ≡ is_skipped isolation file import piece }
{
    file.contains(import) || is_excused(isolation, piece)
}

// What the imported ranges leave of the free pieces that the file walk found. Those inside the file
// are skipped. What the list held before is gone.
pub fn walk_imports(
    isolation: IsolationType,
    file: MemoryRange,
    imports: &[MemoryRange],
    found: &[TaggedRange],
    free: &mut Free,
) -> Result<(), Refusal>
    ensures { let walked = import_walk isolation file imports.now found.now in (result ≡ rows_as walked.refusal)
        × (free.new.items ≡ walked.free) }
{
    free.clear();
    let mut at = WalkCursor::start();
    while let Some((piece, next)) = walk_ranges(imports, found, at) {
        match piece.result {
            RangeWalkResult::Left(item) => {
                if !is_skipped(isolation, file, imports[item], piece.range) {
                    return Err(Refusal::ImportNotInMap);
                }
            }
            RangeWalkResult::Right(item) => hold(free, piece.range, found[item].tag)?,
            RangeWalkResult::Both(_, _) => {}
        }
        at = next;
    }
    Ok(())
}

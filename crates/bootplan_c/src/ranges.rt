// The ranges of a table of words with their types.
ghost use Rattle.std.specs.Prelude.{◌≡◌, length};
ghost use Rattle.table_words.specs.Code.{code_of, done_of};
ghost use Rattle.bootplan_c.specs.Ranges.{ranges_call, ranges_after, ranges_count};

use table_calls::{RANGES_ROOM, write_vtl2_ranges};
use table_words::{CallError, code_of, read_table};

#[tactic(auto, unfolding(crate::specs::Ranges::ranges_call))]
fn vtl2_ranges(table: &[u64], ranges: &mut [u64], count: &mut usize) -> Result<(), CallError>
    ensures value { result ≡ done_of (ranges_call table.now (length ranges.old)) }
    ensures buffer_after { ranges.new ≡ ranges_after ranges.old (ranges_call table.now (length ranges.old)) }
    ensures count_after { count.new ≡ ranges_count count.old (ranges_call table.now (length ranges.old)) }
{
    if ranges.len() < RANGES_ROOM {
        return Err(CallError::NoRoom);
    }
    let manager = read_table(table).ok_or(CallError::BadTable)?;
    *count = write_vtl2_ranges(ranges, manager);
    Ok(())
}

// Lists the ranges: start, end and type, touching ranges of one type joined. `count` becomes how many
// they are. Any answer but 0 leaves all as found.
#[unsafe(no_mangle)]
pub extern "C" fn bootplan_vtl2_ranges(table: &[u64], ranges: &mut [u64], count: &mut usize) -> u8
    ensures value { result ≡ code_of (ranges_call table.now (length ranges.old)) }
    ensures buffer_after { ranges.new ≡ ranges_after ranges.old (ranges_call table.now (length ranges.old)) }
    ensures count_after { count.new ≡ ranges_count count.old (ranges_call table.now (length ranges.old)) }
{
    code_of(vtl2_ranges(table, ranges, count))
}

// The private pool, placed in a table of words.
ghost use Rattle.std.specs.Prelude.{◌≡◌, length};
ghost use Rattle.table_words.specs.Code.{code_of, done_of};
ghost use Rattle.bootplan_c.specs.Pool.{pool_call, pool_table, pool_pieces, pool_count_of};

use private_pool::allocate_private_pool;
use table_calls::{PIECES_ROOM, write_pieces};
use table_words::{CallError, code_of, read_table, write_table};

#[tactic(auto, unfolding(crate::specs::Pool::pool_call))]
fn place_pool(
    table: &mut [u64],
    pages: u64,
    split: bool,
    pieces: &mut [u64],
    count: &mut usize,
) -> Result<(), CallError>
    ensures value { result ≡ done_of (pool_call pages split table.old (length pieces.old)) }
    ensures table_after { table.new ≡ pool_table table.old (pool_call pages split table.old (length pieces.old)) }
    ensures pieces_after { pieces.new ≡ pool_pieces pieces.old (pool_call pages split table.old (length pieces.old)) }
    ensures count_after { count.new ≡ pool_count_of count.old (pool_call pages split table.old (length pieces.old)) }
{
    if pieces.len() < PIECES_ROOM {
        return Err(CallError::NoRoom);
    }
    let manager = read_table(table).ok_or(CallError::BadTable)?;
    let pool = allocate_private_pool(manager, pages, split);
    let placed = pool.answer?;
    write_table(table, &pool.manager);
    write_pieces(pieces, &pool.ranges[..placed]);
    *count = placed;
    Ok(())
}

// Places so many pages. The pieces are start, end and node, in the order of their nodes, and `count`
// becomes how many they are. Any answer but 0 leaves all as found.
#[unsafe(no_mangle)]
pub extern "C" fn bootplan_place_pool(
    table: &mut [u64],
    pages: u64,
    split: bool,
    pieces: &mut [u64],
    count: &mut usize,
) -> u8
    ensures value { result ≡ code_of (pool_call pages split table.old (length pieces.old)) }
    ensures table_after { table.new ≡ pool_table table.old (pool_call pages split table.old (length pieces.old)) }
    ensures pieces_after { pieces.new ≡ pool_pieces pieces.old (pool_call pages split table.old (length pieces.old)) }
    ensures count_after { count.new ≡ pool_count_of count.old (pool_call pages split table.old (length pieces.old)) }
{
    code_of(place_pool(table, pages, split, pieces, count))
}

// An entry from its four words: start, end, node, usage.
ghost use Rattle.std.specs.Prelude.{◌≡◌, length};
ghost use Rattle.table_words.specs.Table.{entry_read};

use crate::list::range_in;
use crate::usage::usage_of_word;
use address_space::AddressRange;

// Any words are a start and an end.
pub(crate) fn entry_of(row: &[u64]) -> Option<AddressRange>
    requires { length row.now ≡ 4 }
    ensures { result ≡ entry_read row.now }
{
    let vnode = u32::try_from(row[2]).ok()?;
    let usage = usage_of_word(row[3])?;
    Some(AddressRange {
        range: range_in(row),
        vnode,
        usage,
    })
}

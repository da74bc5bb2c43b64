// What an operation answers.
use super::line::Case;
use super::words::{Stored, part};
use super::{calls, lists, ops, output, ranges, selections, sizes, texts};
use host_params::Vtl2GpaPoolLookupTable;
use plan::OUTPUT_SIZE;
use std::io::Stdout;

// The end of its words, or none where one is not the stored one, where the answer does not end, or where there is
// no such operation; and so many bytes of the output.
#[derive(Clone, Copy)]
pub(crate) struct Answer {
    pub words: Option<usize>,
    pub bytes: usize,
}

fn on_words(stored: Stored, op: u64, case: &Case, words: &[u64]) -> Option<usize> {
    match op {
        ops::RELEASE => sizes::hints(stored, Vtl2GpaPoolLookupTable::Release, words),
        ops::DEBUG => sizes::hints(stored, Vtl2GpaPoolLookupTable::Debug, words),
        ops::POOL => sizes::pool_size(stored, words),
        ops::SELECT => selections::selected(stored, case, words),
        ops::BUILD | ops::GET | ops::LIST | ops::PLACE => calls::answer(stored, op, case, words),
        ops::RANGES_VALID
        | ops::RANGES_ASCEND
        | ops::SORT_BY_START
        | ops::INSERT_NODE
        | ops::MERGE_ADJACENT_RANGES
        | ops::WALK_RANGES
        | ops::SUBTRACT_RANGES => lists::answer(stored, op, case, words),
        _ => ranges::answer(stored, op, words),
    }
}

// An answer without bytes.
fn of_words(stored: Stored, op: u64, case: &Case, words: &[u64], text: &[u8]) -> Option<usize> {
    match op {
        ops::CHECK_TEXT | ops::NEXT_RECORD | ops::FIRST_PART | ops::READ_NUMBER => {
            texts::answer(stored, op, text)
        }
        _ => on_words(stored, op, case, words),
    }
}

// Runs a case's operation on the words and the text that it is given. Its words are compared with the stored
// ones; what it writes is in the output.
pub(crate) fn run(
    out: Stdout,
    op: u64,
    case: &Case,
    words: &[u64],
    bytes: &[u8],
    output: &mut [u8; OUTPUT_SIZE],
) -> Answer {
    let stored = Stored {
        out,
        words: part(words, case.stored_words, case.words),
    };
    let words = part(words, 0, case.stored_words);
    let text = part(bytes, 0, case.stored_bytes);
    match op {
        ops::PLAN => output::planned(text, output),
        ops::WRITE_RAM
        | ops::WRITE_POOL
        | ops::WRITE_GOT
        | ops::WRITE_MAP
        | ops::WRITE_NO
        | ops::PUT_NUMBER
        | ops::PUT_WORD => output::answer(stored, op, words, output),
        _ => Answer {
            words: of_words(stored, op, case, words, text),
            bytes: 0,
        },
    }
}

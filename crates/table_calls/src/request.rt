// Requests as words, and their answers.
ghost use Rattle.std.specs.Prelude.{◌≡◌, length};
ghost use Rattle.std.proofs.lemmas.List.Edits.{sets};
ghost use Rattle.address_space.specs.Table.{entries_of};
ghost use Rattle.table_words.specs.Table.{table_in};
ghost use Rattle.table_calls.specs.Request.{node_read, type_read, policy_read, alignment_of, request_read, answer_of, words_outcome, answer_words, after_one, answers_on, after_all, request_rows};

use address_space::{AddressSpaceManager, AllocatedRange};
use host_params::{AllocationPolicy, AllocationType};
use table_words::{CallError, put_words};

// A request has five words: node, length, type, policy, alignment. Its answer has four.
pub const REQUEST_WORDS: usize = 5;

// What is asked for.
#[derive(Clone, Copy)]
pub(crate) struct Request {
    pub node: Option<u32>,
    pub len: u64,
    pub allocation_type: AllocationType,
    pub policy: AllocationPolicy,
    pub alignment: Option<u64>,
}

// All bits 1 are for any node.
fn node_of(word: u64) -> Result<Option<u32>, CallError>
    ensures { result ≡ node_read word }
{
    if word == u64::MAX {
        return Ok(None);
    }
    let Ok(node) = u32::try_from(word) else {
        return Err(CallError::BadNumber);
    };
    Ok(Some(node))
}

fn type_of(word: u64) -> Result<AllocationType, CallError>
    ensures { result ≡ type_read word }
{
    match word {
        0 => Ok(AllocationType::GpaPool),
        1 => Ok(AllocationType::SidecarNode),
        2 => Ok(AllocationType::TdxPageTables),
        _ => Err(CallError::BadNumber),
    }
}

fn policy_of(word: u64) -> Result<AllocationPolicy, CallError>
    ensures { result ≡ policy_read word }
{
    match word {
        0 => Ok(AllocationPolicy::LowMemory),
        1 => Ok(AllocationPolicy::HighMemory),
        _ => Err(CallError::BadNumber),
    }
}

// All bits 1 are for none.
fn alignment_of(word: u64) -> Option<u64>
    ensures { result ≡ alignment_of word }
{
    if word == u64::MAX { None } else { Some(word) }
}

// Any length and alignment stand for themselves.
fn read_request(row: &[u64]) -> Result<Request, CallError>
    requires { length row.now ≡ 5 }
    ensures { result ≡ request_read row.now }
{
    Ok(Request {
        node: node_of(row[0])?,
        len: row[1],
        allocation_type: type_of(row[2])?,
        policy: policy_of(row[3])?,
        alignment: alignment_of(row[4]),
    })
}

// A request that finds no entry leaves the table, and so it is told from the others first, which spares it
// the copies of a table that is handed back.
fn answer_request(
    manager: &mut AddressSpaceManager,
    row: &[u64],
) -> Result<AllocatedRange, CallError>
    requires { length row.now ≡ 5 }
    ensures answer { result ≡ answer_of (words_outcome row.now (entries_of manager.old)) }
    ensures table { table_in manager.new ≡ after_one row.now (table_in manager.old) }
{
    let asked = read_request(row)?;
    manager.check_request(asked.node, asked.len, asked.policy, asked.alignment)?;
    let handed = match asked.alignment {
        None => manager.allocate(asked.node, asked.len, asked.allocation_type, asked.policy)?,
        Some(alignment) => manager.allocate_aligned(
            asked.node,
            asked.len,
            asked.allocation_type,
            asked.policy,
            alignment,
        )?,
    };
    Ok(handed)
}

fn put_answer(words: &mut [u64], at: usize, answer: Result<AllocatedRange, CallError>)
    ensures { words.new ≡ sets words.old at (answer_words answer) }
{
    let values = match answer {
        Ok(handed) => [
            0,
            handed.range.start,
            handed.range.end,
            u64::from(handed.vnode),
        ],
        Err(error) => [u64::from(error.code()), 0, 0, 0],
    };
    put_words(words, at, &values);
}

// The table that the last request leaves; nothing is written past the end of the answers.
pub fn answer_requests(
    mut manager: AddressSpaceManager,
    requests: &[u64],
    answers: &mut [u64],
) -> AddressSpaceManager
    ensures { let rows = request_rows requests.now in (table_in result ≡ after_all rows (table_in manager))
        × (answers.new ≡ sets answers.old 0 (answers_on rows (table_in manager))) }
{
    for (i, row) in requests.chunks_exact(REQUEST_WORDS).enumerate() {
        let answer = answer_request(&mut manager, row);
        put_answer(answers, 4 * i, answer);
    }
    manager
}

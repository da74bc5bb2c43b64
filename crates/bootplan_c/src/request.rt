// Requests, made of a table of words.
ghost use Rattle.std.specs.Prelude.{◌≡◌, length};
ghost use Rattle.table_words.specs.Code.{code_of, done_of};
ghost use Rattle.bootplan_c.specs.Request.{request_call, request_table, request_answers};

use table_calls::{REQUEST_WORDS, answer_requests};
use table_words::{CallError, code_of, read_table, write_table};

#[tactic(auto, unfolding(crate::specs::Request::request_call))]
fn request(table: &mut [u64], requests: &[u64], answers: &mut [u64]) -> Result<(), CallError>
    ensures value { result ≡ done_of (request_call table.old requests.now (length answers.old)) }
    ensures table_after { table.new ≡ request_table table.old (request_call table.old requests.now (length answers.old)) }
    ensures answers_after { answers.new ≡ request_answers answers.old (request_call table.old requests.now (length answers.old)) }
{
    if answers.len() < 4 * (requests.len() / REQUEST_WORDS) {
        return Err(CallError::NoRoom);
    }
    let manager = read_table(table).ok_or(CallError::BadTable)?;
    if requests.len() % REQUEST_WORDS != 0 {
        return Err(CallError::BadNumber);
    }
    let after = answer_requests(manager, requests, answers);
    write_table(table, &after);
    Ok(())
}

// Answers each request on the table that the one before left: 0, start, end and node, or a number and
// three words 0. Any answer of the call but 0 leaves all as found.
#[unsafe(no_mangle)]
pub extern "C" fn bootplan_request(table: &mut [u64], requests: &[u64], answers: &mut [u64]) -> u8
    ensures value { result ≡ code_of (request_call table.old requests.now (length answers.old)) }
    ensures table_after { table.new ≡ request_table table.old (request_call table.old requests.now (length answers.old)) }
    ensures answers_after { answers.new ≡ request_answers answers.old (request_call table.old requests.now (length answers.old)) }
{
    code_of(request(table, requests, answers))
}

// The text as a whole: going through its records, and the check of its form and order.
ghost use Rattle.std.specs.Prelude.{◌≡◌};
ghost use Rattle.plan_text.specs.Text.{text_check, check_from, records_from, record_step};
ghost use Rattle.plan_text.specs.OrderStep.{order_end};

use super::order::{COMPLETE, order_after};
use plan_fields::{NEWLINE, first_part};
use plan_record::{Record, read_line};
use refusal::Refusal;

// The most bytes that a text may have.
pub const TEXT_SIZE: usize = 65_536;

// The bytes of the longest line with its newline: `pool`, `pages`, three numbers of 16 digits, `y` or
// `n`, and the byte behind each of the six. Behind so many no newline is looked for.
const LONGEST_LINE: usize = 4 + 1 + 5 + 1 + 16 + 1 + 16 + 1 + 16 + 1 + 1 + 1;

// The record of the line that starts at a place of the text, and the place behind that line, unless the text ends
// there; refusal 1.
pub fn next_record(text: &[u8], at: usize) -> Result<Option<(Record, usize)>, Refusal>
    ensures { result ≡ record_step text.now at }
{
    if text.len() <= at {
        return Ok(None);
    }
    let stop = at + (text.len() - at).min(LONGEST_LINE);
    let line = first_part(&text[at..stop], NEWLINE);
    let end = at + line.len();
    if end == stop {
        return Err(Refusal::LineMalformed);
    }
    let record = read_line(line).ok_or(Refusal::LineMalformed)?;
    Ok(Some((record, end + 1)))
}

// Whether the text has the form of a plan; refusals 3, 1 and 2, in this order.
pub fn check_text(text: &[u8]) -> Result<(), Refusal>
    ensures { result ≡ text_check text.now }
{
    if TEXT_SIZE < text.len() {
        return Err(Refusal::TextTooLong);
    }
    check_from(text, 0, 0)
}

// The same from a place of the text on, at the order that the records before it left; refusals 1 and 2.
pub fn check_from(text: &[u8], at: usize, order: u8) -> Result<(), Refusal>
    ensures { result ≡ check_from order (records_from at text.now) }
{
    let mut after = order;
    let mut next = at;
    while let Some((record, behind)) = next_record(text, next)? {
        after = order_after(after, record);
        next = behind;
    }
    order_check(after)
}

fn order_check(order: u8) -> Result<(), Refusal>
    ensures { result ≡ order_end order }
{
    if order == COMPLETE {
        return Ok(());
    }
    Err(Refusal::RecordOrder)
}

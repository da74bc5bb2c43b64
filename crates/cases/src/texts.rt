// The operations of `plan_fields` and `plan_text`, each on a text.
use super::ops;
use super::records::same_record;
use super::words::{Stored, part};
use plan_fields::TAB;

// After so many steps an answer is too long for any line.
const MOST_STEPS: usize = 1024;

// The number of fields and the length of each.
fn cut(stored: Stored, text: &[u8]) -> Option<usize> {
    let count = plan_fields::part_count(text, TAB);
    let mut at = stored.same_word(0, count as u64)?;
    let mut rest = text;
    for _ in 0..count {
        let field = plan_fields::first_part(rest, TAB);
        at = stored.same_word(at, field.len() as u64)?;
        rest = part(rest, field.len().wrapping_add(1), rest.len());
    }
    Some(at)
}

// The records in order. A line that breaks its form is told by the number 14, which is no record's.
fn stepped(stored: Stored, text: &[u8]) -> Option<usize> {
    let mut at = 0;
    let mut from = 0;
    for _ in 0..MOST_STEPS {
        match plan_text::next_record(text, from) {
            Ok(None) => return Some(at),
            Err(_) => return stored.same_word(at, 14),
            Ok(Some((record, behind))) => {
                at = same_record(stored, at, record)?;
                from = behind;
            }
        }
    }
    None
}

// The number of the refusal, or 0.
fn checked(text: &[u8]) -> u64 {
    match plan_text::check_text(text) {
        Ok(()) => 0,
        Err(refusal) => u64::from(refusal.number()),
    }
}

// 1 and the number, or 0.
fn spelled(stored: Stored, text: &[u8]) -> Option<usize> {
    match plan_fields::read_number(text) {
        Some(n) => stored.same_words(0, &[1, n]),
        None => stored.same_word(0, 0),
    }
}

pub(crate) fn answer(stored: Stored, op: u64, text: &[u8]) -> Option<usize> {
    match op {
        ops::CHECK_TEXT => stored.same_word(0, checked(text)),
        ops::READ_NUMBER => spelled(stored, text),
        ops::FIRST_PART => cut(stored, text),
        _ => stepped(stored, text),
    }
}

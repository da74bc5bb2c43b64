// The plan text as a whole: the order of its records, and a step that goes through them.
#![tactic(auto)]

mod order;
mod text;

pub use order::{order_after, record_place};
pub use text::{TEXT_SIZE, check_from, check_text, next_record};

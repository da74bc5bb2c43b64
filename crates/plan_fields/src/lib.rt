// The fields of a line of text: cutting them, comparing them with words, and reading numbers.
#![tactic(auto)]

mod cut;
mod number;
mod word;

pub use cut::{NEWLINE, TAB, first_part, later_parts, part_count};
pub use number::{first_number, read_number};
pub use word::{same_bytes, word_value};

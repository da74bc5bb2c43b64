// The lines that a plan is written as, and the words and numbers that they are made of.
#![tactic(auto)]

mod line;
mod put;

pub use line::{LINE_SIZE, write_got, write_map, write_no, write_pool, write_ram};
pub use put::{put_number, put_word};

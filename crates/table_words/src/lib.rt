// The typed address table as a slice of words, for callers that lend it so: its count of entries, its
// flag, and four words for each entry. Every bit pattern of the words is taken. And what the calls of the
// library come to, with the numbers that C is told.
#![tactic(auto)]

mod code;
mod entry;
mod list;
mod read;
mod usage;
mod write;

pub use code::{CallError, code_of};
pub use list::{NODE_BOUND, nodes_good, read_ram, read_ranges};
pub use read::{TABLE_WORDS, read_table};
pub use write::{put_words, write_table};

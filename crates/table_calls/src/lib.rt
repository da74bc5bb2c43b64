// What the library's calls are given and answer, as words: requests, the pool's pieces, a table's
// ranges, and what a table is built from.
#![tactic(auto)]

mod build;
mod pool;
mod ranges;
mod request;

pub use build::build_words;
pub use pool::{PIECES_ROOM, write_pieces};
pub use ranges::{RANGES_ROOM, write_vtl2_ranges};
pub use request::{REQUEST_WORDS, answer_requests};

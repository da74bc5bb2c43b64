// What an accepted plan text gives the planner, read in the order of its records: what selection is
// given, what the build is given, and the pool. The requests behind them are answered as they are read.
#![tactic(auto)]

mod build;
mod entry;
mod list;
mod once;
mod range;
mod selection;
mod word;

pub use build::{BuildRead, CONFIG_ROOM, POOL_ROOM, read_build};
pub use entry::BLANK_ENTRY;
pub use once::{PoolRead, read_pool};
pub use selection::{IMPORT_ROOM, SelectionRead, read_selection};

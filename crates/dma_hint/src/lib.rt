// The size of the private pool: from the command line, from the host, or from a lookup table by the
// guest's processors and memory.
#![tactic(auto)]

mod hint;
mod lookup;
mod pages;
mod pool;
mod ratio;
mod table;

pub use hint::vtl2_calculate_dma_hint;
pub use pool::pick_private_pool_size;

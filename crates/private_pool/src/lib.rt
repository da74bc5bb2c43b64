// The placement of the private pool: whole on node 0, or split over the nodes of the table.
#![tactic(auto)]

mod nodes;
mod piece;
mod place;
mod pool;
mod split;

pub use place::allocate_private_pool;
pub use pool::{MAX_POOL_RANGES, PrivatePool};

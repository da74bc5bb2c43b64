// The nodes of a boot map, and the share of the RAM size that each gives.
#![tactic(auto)]

mod node;
mod share;

pub use node::{NumaNodes, numa_node_count, numa_nodes};
pub use share::{ALIGNMENT_GRANULARITY, ram_per_node};

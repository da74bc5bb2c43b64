// The planner as a static library for C and Rust. Every number is taken; a pointer must be to a number
// that may be written, or to as many as the length beside it says.
#![tactic(auto)]

mod build;
mod number;
mod planning;
mod pool;
mod ranges;
mod request;
mod selection;
mod sizing;

pub use build::bootplan_build;
pub use planning::{bootplan_output_size, bootplan_plan};
pub use pool::bootplan_place_pool;
pub use ranges::bootplan_vtl2_ranges;
pub use request::bootplan_request;
pub use selection::bootplan_select_ram;
pub use sizing::{bootplan_debug_hint, bootplan_pool_size, bootplan_release_hint};

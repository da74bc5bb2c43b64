// Ranges of addresses: the checks of a map, rounding and aligned parts, and what several layers of the
// planner need once.
//
// A list of ranges is lent as a slice of items that have a range. Every value is taken: on a list that is
// not ascending and disjoint each function still ends and equals its definition.
#![tactic(auto)]

mod align;
mod has_range;
mod list;
mod power;
mod range;
mod round;
mod valid;
mod write;

pub use has_range::HasRange;
pub use list::{range_count, tagged_count};
pub use power::is_power_of_two;
pub use range::{MemoryRange, SplitRange, TaggedRange};
pub use round::{padding, round_up};
pub use valid::{PAGE_SIZE, ranges_ascend, ranges_valid};
pub use write::put;

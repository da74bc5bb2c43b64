// Lists of ranges: the walk of two of them, subtracting, joining and sorting; and ascending node
// numbers.
//
// A list is lent as a slice of items that have a range. Every value is taken: on a list that is not
// ascending and disjoint each function still ends and equals its definition.
#![tactic(auto)]

mod merge;
mod node;
mod sort;
mod subtract;
mod walk;

pub use merge::merge_adjacent_ranges;
pub use node::insert_node;
pub use sort::sort_by_start;
pub use subtract::{Remainder, subtract_ranges};
pub use walk::{RangeWalkResult, WalkCursor, WalkPiece, walk_ranges};

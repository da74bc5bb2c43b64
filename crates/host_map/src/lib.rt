// The host's map as the caller lends it: a list of entries, or lists of its fields, which are copied with rows 4
// and 5 looked at on the way.
#![tactic(auto)]

mod entries;
mod rows;

pub use entries::{
    Entries, MAP_ROOM, MAX_PARTITION_RAM_RANGES, copy_entries, copy_lists, is_protectable, no_entry,
};
pub use rows::{RangeCheck, check_ranges};

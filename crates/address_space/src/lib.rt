// The typed address table of VTL2's memory and its allocator: what each range of the RAM is used for,
// requests for more, and the lists that are reported.
//
// The table's meaning is the list of its first `count` entries, all 256 where the count is above that.
// Every value of the type is taken.
#![tactic(auto)]

mod allocate;
mod fit;
mod list;
mod request;
mod search;
mod split;
mod table;
mod usage;

pub use list::{ReservedRange, Vtl2Range, Vtl2Ranges};
pub use request::{AllocatedRange, Allocation};
pub use table::{AddressRange, AddressSpaceManager, MAX_ADDRESS_RANGES};
pub use usage::{AddressUsage, ReservedMemoryType, USED, reserved_number, type_number, usage_of};

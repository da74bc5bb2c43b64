// The builder of the typed address table: from the RAM list, the used range, and the reserved and pool
// ranges, to the table that requests are made of.
//
// Lists are lent as slices of any length. A refused build leaves the table and the flag as found.
#![tactic(auto)]

mod builder;
mod fill;
mod init;
mod reserved;
mod rows;
mod used;

pub use builder::AddressSpaceManagerBuilder;
pub use init::Init;

// Which RAM the guest's VTL2 gets: chosen by the boot shim from the host's map, or by the host.
#![tactic(auto)]

mod boot;
mod host;
mod ram;
mod rows;
mod select;

pub use ram::Vtl2Ram;
pub use select::{select_from_array, select_from_lists, select_vtl2_ram};

// The walks of boot selection, in which the shim chooses the RAM of VTL2 from the host's map: the
// file's pieces, and what the imported ranges leave of the rest.
//
// A map and imported ranges are lent as slices of any length. Pieces are put into lists that the caller
// lends; a refusal leaves in them the pieces that were found before it.
#![tactic(auto)]

mod file;
mod held;
mod import;

pub use file::walk_file;
pub use held::{Chosen, Free, MAX_FREE_PIECES, hold};
pub use import::{imports_clear, walk_imports};

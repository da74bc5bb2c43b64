// The taking of free memory in boot selection: each node gives what its share lacks beside the file's
// pieces.
//
// The chosen pieces are put into a list that the caller lends; a refusal leaves in it the pieces that
// were chosen before it.
#![tactic(auto)]

mod take;

pub use take::take_ram;

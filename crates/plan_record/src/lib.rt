// A line of the plan text as a record with its values.
#![tactic(auto)]

mod record;
mod value;

pub use record::{Get, Pool, Record, Shape, read_line};

// From a plan text to its plan: the text is read, RAM is selected, the table is built, the private pool
// is placed, and each request is answered on the table that the last one left.
#![tactic(auto)]

mod get;
mod line;
mod planner;
mod pool;
mod write;

pub use line::OutputLine;
pub use planner::{OUTPUT_SIZE, PlanError, output_size, plan, plan_to};

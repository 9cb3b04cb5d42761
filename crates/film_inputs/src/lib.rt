//! The project file of a source and the files that it names: read, looked for and planned.
#![tactic(auto)]

mod ends;
mod inputs;

pub use ends::{InputEnd, PlanEnd};
pub use inputs::read_plan;

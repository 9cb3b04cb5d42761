//! The engine: makes the package of a plan.
#![tactic(auto)]

mod engine;
mod outcome;

pub use engine::make_alone;
pub use outcome::{MakeEnd, Options, Report};

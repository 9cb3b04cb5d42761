//! A project's canonical text, and a refusal as it is printed.
#![tactic(auto)]

mod canonical;
mod line;

pub use canonical::project_text;
pub use line::refusal_text;

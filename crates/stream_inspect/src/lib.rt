//! The file of a codestream: read from a source, surveyed, and told in lines.
#![tactic(auto)]

mod ends;
mod file;
mod text;

pub use ends::InspectEnd;
pub use file::{Inspected, inspect};
pub use text::{inspected_text, refusal_text};

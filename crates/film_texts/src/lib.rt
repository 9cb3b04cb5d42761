//! The rules of a project file's texts.
#![tactic(auto)]

mod texts;

pub use texts::{is_one_of, text_place};

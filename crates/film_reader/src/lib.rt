//! The project file: read whole, or refused by name.
#![tactic(auto)]

mod assets;
mod clips;
mod gains;
mod member;
mod names;
mod object;
mod read;

pub use read::{GREATEST_TEXT, read_project};

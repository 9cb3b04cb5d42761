//! What every crate stands on: lists, bytes, want of memory, and the limits of a codestream.
#![tactic(auto)]

mod limits;
mod list;
mod no_memory;

pub use limits::Limits;
pub use list::{Bytes, List};
pub use no_memory::NoMemory;

//! Writes an MXF track file into a volume: its head, its items one by one, its tail.
#![tactic(auto)]

mod end;
mod file;

pub use end::TrackEnd;
pub use file::{KEY_LENGTH, TrackFile};

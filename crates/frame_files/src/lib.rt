//! The names of frames' files.
#![tactic(auto)]

mod name;

pub use name::{FrameFormat, frame_name};

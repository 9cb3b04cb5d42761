//! Frames: read where they lie ready, encoded from raw pictures and black.
#![tactic(auto)]

mod black;
mod encoding;
mod maker;
mod names;
mod raw;
mod ready;

pub use maker::FrameMaker;

//! Raw pictures of 16-bit RGB samples, read from a source.
#![tactic(auto)]

mod frame;
mod input;
mod pixels;
mod refusal;

pub use frame::read_frame;
pub use input::{read_ppm, read_rgb48};
pub use refusal::FrameRefusal;

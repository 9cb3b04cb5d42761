//! Writes the picture file of a project as an MXF track, and makes frames by themselves.
#![tactic(auto)]

mod frame;
mod outcome;
mod picture;
mod single;

pub use outcome::{FrameEnd, PictureEnd};
pub use picture::write_picture;
pub use single::make_frame;

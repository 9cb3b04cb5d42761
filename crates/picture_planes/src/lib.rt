//! From a picture's raw bytes to the planes of its components, a row at a time.
#![tactic(auto)]

mod planes;
mod rows;

pub use planes::fill_planes;
pub use rows::PixelRows;

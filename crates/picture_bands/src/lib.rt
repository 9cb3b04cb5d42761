//! The quantised sub-bands of pictures, from their raw bytes. Rows, planes and sub-bands are made once for a size and
//! used again for frame after frame.
#![tactic(auto)]

mod bands;

pub use bands::PictureBands;

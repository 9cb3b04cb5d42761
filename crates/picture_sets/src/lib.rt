//! The bit-planes of all code-blocks of a picture as sets of samples, in memory made once for a size.
#![tactic(auto)]

mod block;
mod sets;
mod split;
mod starts;

pub use sets::PictureSets;
pub use starts::block_starts;

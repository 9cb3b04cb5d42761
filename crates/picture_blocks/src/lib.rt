//! The coded code-blocks of pictures: those of each sub-band in turn, in raster order, coded step by step.
#![tactic(auto)]

mod blocks;
mod coding;
mod starting;
mod words;

pub use blocks::Blocks;
pub use coding::CodingRoom;

//! The size of a packet (ITU-T T.800, B.9 and B.10, with one layer), without its bytes.
#![tactic(auto)]

mod band;
mod block;
mod build;
mod codes;
mod counter;
mod node;
mod place;
mod sizes;
mod sizing;
mod tree;
mod whole;

pub use sizes::{BandSizes, BlockSize};
pub use sizing::packet_size;

//! The sizes of sub-bands, precincts and code-blocks, and the order of packets (ITU-T T.800,
//! Annex B).
#![tactic(auto)]

mod bands;
mod blocks;
mod packets;
mod resolutions;

pub use bands::{band_size, resolution_of};
pub use blocks::{BlockGrid, block_size, blocks_of};
pub use packets::{packet_at, packet_count};
pub use resolutions::precincts;

//! The packets of a codestream's tile-parts (ITU-T T.800, Annex A.4.2 to A.4.4, in this profile), read.
#![tactic(auto)]

mod counts;
mod memory;
mod packet;
mod packets;
mod parts;
mod precinct;

pub use packets::PartPackets;
pub use parts::{StreamPackets, read_parts};

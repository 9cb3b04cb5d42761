//! Packets (ITU-T T.800, B.9 and B.10, with one layer) of code-blocks that are coded, their lengths without their bytes,
//! and the least that they can be long at lower cuts.
#![tactic(auto)]

mod area;
mod block;
mod changes;
mod floor;
mod length;
mod push;
mod sizes;

pub use changes::{place_changed, precinct_count};
pub use floor::packet_floor;
pub use length::packet_length;
pub use push::push_packet;

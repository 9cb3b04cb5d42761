//! Packets (ITU-T T.800, B.9 and B.10, with one layer), written.
#![tactic(auto)]

mod log;
mod packing;
mod pushing;
mod write;

pub use packing::pack_bits;
pub use pushing::pass_bits;
pub use write::{append_packet, write_packet};

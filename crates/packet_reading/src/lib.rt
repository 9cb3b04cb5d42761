//! Packets (ITU-T T.800, B.9 and B.10, with one layer), read.
#![tactic(auto)]

mod bands;
mod block_head;
mod codewords;
mod memory;
mod packet;

pub use packet::read_packet;

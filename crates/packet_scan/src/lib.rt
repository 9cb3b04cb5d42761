//! Packets (ITU-T T.800, B.9 and B.10, with one layer), scanned: what they include and where they end, without memory.
#![tactic(auto)]

mod band;
mod blank;
mod block;
mod codewords;
mod node;
mod place;
mod scan;
mod sizes;
mod tree;

pub use scan::{Scanned, scan_packet};

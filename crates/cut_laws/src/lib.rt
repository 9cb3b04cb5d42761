//! Laws of cuts, which name no code: what changes from a cut to the next one, and how long packets, tile-parts and
//! codestreams are.
#![tactic(auto)]

mod ranks;
mod sizes;

pub use ranks::{next_cut_laws, next_packet_laws, rank_laws};
pub use sizes::{bound_laws, size_laws};

//! Laws of the order of packets, which name no code.
#![tactic(auto)]

mod places;

pub use places::packet_place_laws;

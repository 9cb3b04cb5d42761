//! The values of a sub-band from its packets (ITU-T T.800, Annex B.6, B.7 and D, in the decoder's direction).
#![tactic(auto)]

mod band;
mod block;
mod packet;
mod part;
mod rows;

pub use band::read_band;

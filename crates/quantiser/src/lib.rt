//! Quantises rows of transformed samples (ITU-T T.800, Annex E.2).
#![tactic(auto)]

mod parts;
mod rows;

pub use rows::quantise;

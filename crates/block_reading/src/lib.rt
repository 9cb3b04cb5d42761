//! The values of a code-block from its codeword (ITU-T T.800, Annex D, in the decoder's direction), over sets of samples: a
//! pass looks only at those that it reads.
#![tactic(auto)]

mod block;
mod cleanup;
mod field;
mod pass;
mod propagation;
mod refinement;
mod room;
mod sample;
mod values;

pub use block::read_block;
pub use room::ReadRoom;

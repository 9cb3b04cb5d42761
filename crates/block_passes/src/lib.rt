//! The decisions of a code-block's bit-planes (ITU-T T.800, Annex D.3), formed from sets of samples: a pass looks only
//! at those that it codes. Each decision is one byte: twice the context and the bit.
#![tactic(auto)]

mod cleanup;
mod decisions;
mod pass;
mod plane;
mod propagation;
mod refinement;
mod remaining;
mod sample;
mod start;
mod state;

pub use decisions::plane_decisions;
pub use start::begin;
pub use state::PassState;

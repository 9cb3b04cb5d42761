//! The contexts of a code-block's samples (ITU-T T.800, Annex D.3), by their neighbours.
//!
//! A word tells of a sample's neighbours: bits 0 to 7 are set where the one left, right, above, below, above
//! left, above right, below left, below right is significant, bits 8 to 11 where the first four are negative. A
//! neighbour's sign counts only where it is significant.
#![tactic(auto)]

mod refinement;
mod sign;
mod zero;

pub use refinement::refine_context;
pub use sign::{sign_code, sign_context};
pub use zero::{zero_codes, zero_context};

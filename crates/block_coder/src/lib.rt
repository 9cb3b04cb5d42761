//! Coding of code-blocks (ITU-T T.800, Annexes C and D): the decisions of each bit-plane in the arithmetic coder, and
//! behind each plane the registers with which a codeword may end there.
#![tactic(auto)]

mod coded;
mod coding;
mod partly;
mod planes;

pub use coded::Coded;
pub use coding::{BlockRoom, block_of_sets, block_of_values, code_block};
pub use partly::PartlyCoded;

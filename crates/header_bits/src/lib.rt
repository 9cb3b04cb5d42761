//! The bits of a packet's header (ITU-T T.800, B.10, with one layer), read without memory.
#![tactic(auto)]

mod included;
mod numbers;
mod place;
mod zeros;

pub use included::{Included, read_included};
pub use place::BitPlace;
pub use zeros::{Zeros, read_zeros};

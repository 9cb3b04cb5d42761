//! The sub-bands of a component's plane of samples: five levels of the wavelet transform, in whose course each row is
//! quantised as soon as it is done.
#![tactic(auto)]

mod component;
mod laws;
mod level;
mod pairs;
mod rows;

pub use component::{decompose_all, first_level, room_length, sub_bands};
pub use laws::{component_laws, pair_laws};
pub use level::{Level, decompose};
pub use pairs::take_pair;

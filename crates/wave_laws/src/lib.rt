//! Laws of the wavelet transform's definitions, on which its code stands: a level by whole rows, a line by
//! its even and its odd samples, and what becomes of five levels. They name no code, so that a change of
//! the code proves none of them again.
#![tactic(auto)]

mod bands;
mod lines;
mod ranges;
mod rows;

pub use bands::{area_laws, sub_band_laws};
pub use lines::{half_laws, line_laws};
pub use ranges::{component_bound_laws, line_bound_laws, room_laws, row_bound_laws, within_laws};
pub use rows::{
    level_laws, neighbour_laws, quadrant_laws, quadrant_size_laws, round_laws, row_laws,
};

//! Where a picture's sub-bands and their code-blocks stand, among all of the picture: as numbers.
#![tactic(auto)]

mod blocks;
mod places;
mod samples;

pub use blocks::{block_columns_rows, block_laws, block_start, block_total};
pub use places::{band_at, band_place, kind_place, place_laws};
pub use samples::{band_length, band_start, picture_area, sample_laws};

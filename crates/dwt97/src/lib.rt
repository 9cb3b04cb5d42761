//! The 9-7 irreversible wavelet transform of JPEG 2000 (ITU-T T.800, Annexes F and G), on rows of `i32`.
#![tactic(auto)]

mod across;
mod component;
mod finish;
mod halves;
mod lifting;
mod plane;
mod rounds;
mod scaling;
mod steps;

pub use component::{chroma_blue_row, chroma_red_row, luma_row};
pub use finish::{finish_high_row, finish_low_row};
pub use rounds::{lift_columns, round, start};
pub use steps::{first_step, fourth_step, second_step, third_step};

//! What a codestream (ITU-T T.800, in this profile) holds beside the values of its coefficients.
#![tactic(auto)]

mod counts;
mod packets;
mod parts;
mod shapes;
mod step;
mod survey;

pub use survey::{Survey, survey_stream};

//! The packets of a component by number: their precincts, and the sub-bands that these have (ITU-T T.800, B.6 and
//! B.12.1.5).
#![tactic(auto)]

mod bands;
mod precinct;

pub use bands::{band_count, resolution_band};
pub use precinct::{PrecinctAt, packets_of, precinct_at};

//! The least cut at which a picture's codestream and its parts are within byte limits, found by coding no more bit-planes than
//! the search needs.
#![tactic(auto)]

mod bands;
mod find;
mod planes;
mod search;
mod within;

pub use bands::band_at_rank;
pub use find::{find_least_cut, search_up};
pub use planes::coded_cut_laws;
pub use within::is_within;

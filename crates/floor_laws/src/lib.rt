//! Laws of a search for the least cut, which name no code: the least that packets, tile-parts and codestreams can be long
//! at a cut and at all lower ones, so that the search may stop, and what it then has found.
#![tactic(auto)]

mod floors;
mod searches;
mod sums;

pub use floors::{floor_laws, lower_cut_laws, stop_laws};
pub use searches::{answer_laws, search_laws};
pub use sums::{floor_bound_laws, floor_sum_laws, next_floor_laws};

//! Sets of a code-block's samples in the order of the scan (ITU-T T.800, Annex D.1), as 16 words of 64 bits, and a
//! block's bit-planes as such sets.
#![tactic(auto)]

mod block;
mod laws;
mod neighbours;
mod places;
mod planes;
mod samples;
mod split;
mod square;
mod start;
mod transposed;

pub use block::{lowest_planes, plane_count, planes_in, split_block};
pub use laws::{band_block_laws, plane_laws};
pub use neighbours::near;
pub use places::place_laws;
pub use planes::BlockPlanes;
pub use samples::all_samples;
pub use square::{fill_from_rows, fill_from_values};
pub use start::{first_above, unite_above};

//! Which bit-planes a cut keeps of a sub-band, and how many a sub-band has room for.
#![tactic(auto)]

mod planes;

pub use planes::{lowest_plane, plane_limit, rank};

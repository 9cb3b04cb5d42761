//! The codestream of a picture at any cut (ITU-T T.800, Annexes A and B), written from code-blocks that are coded, and its
//! sizes, which go from cut to cut at little cost.
#![tactic(auto)]

mod book;
mod higher;
mod lengths;
mod packets;
mod sizes;
mod stream;

pub use book::SizeBook;
pub use higher::higher_cut_laws;
pub use sizes::{Sizes, sizes_at};
pub use stream::stream_at;

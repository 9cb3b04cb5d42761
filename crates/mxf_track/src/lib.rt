//! The tail of an MXF track file, all that stands behind its items: the footer's partition pack, the
//! index segments and the random index pack.
#![tactic(auto)]

mod entry;
mod random_index;
mod segment;
mod set_item;
mod writer;

pub use writer::tail;

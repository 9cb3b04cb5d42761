//! Tag trees (ITU-T T.800, B.10.2), written and read leaf by leaf.
#![tactic(auto)]

mod fill;
mod found;
mod grid;
mod levels;
mod node;
mod paths;
mod reader;
mod truncate;
mod writer;

pub use reader::TreeReader;
pub use writer::{TreeWriter, write_tree};

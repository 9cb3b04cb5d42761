//! Items of key, length and value (SMPTE ST 336), of which MXF track files are made, written and read.
#![tactic(auto)]

mod item;
mod local_set;
mod reader;

pub use item::{Key, key_length, write_item};
pub use local_set::{SetItem, write_set};
pub use reader::{KlvRefusal, read_key_length};

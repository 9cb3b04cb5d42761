//! What the frames of a project are: codestreams that lie ready, encoded raw pictures and black, or why there is none.
#![tactic(auto)]

mod ends;
mod laws;
mod ready;

pub use ends::{BadWhy, CellEnd};
pub use laws::{encoded_frame_laws, task_laws};
pub use ready::ready_fault;

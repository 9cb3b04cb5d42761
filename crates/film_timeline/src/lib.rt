//! The timeline: what is shown in each frame of a project, and which frames repeat the one before.
#![tactic(auto)]

mod cell;
mod change;
mod clip;
mod count;
mod timeline;

pub use cell::{Cell, is_repeat};
pub use count::{black_count, fresh_count};
pub use timeline::cells;

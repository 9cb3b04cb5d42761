//! The head of an MXF track file, all that stands in front of its items, and what its tail is made of too.
#![tactic(auto)]

mod ids;
mod item;
mod pack;
mod primer;
mod set;
mod value;
mod writer;

pub use ids::id;
pub use item::put_item;
pub use pack::put_pack;
pub use value::rational;
pub use writer::head;

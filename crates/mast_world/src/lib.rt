//! The world around the engine: devices and what a device may do, as traits and in memory.
#![tactic(auto)]

mod change;
mod crash;
mod failing;
mod faults;
mod file_entry;
mod mem_sink;
mod mem_source;
mod mem_volume;
mod sink;
mod source;
mod volume;

pub use crash::CrashImage;
pub use failing::count_on;
pub use faults::{Failed, StoreFault};
pub use file_entry::{FileEntry, position_of};
pub use mem_sink::MemSink;
pub use mem_source::{MemFile, MemSource};
pub use mem_volume::MemVolume;
pub use sink::Sink;
pub use source::Source;
pub use volume::{FileId, Volume};

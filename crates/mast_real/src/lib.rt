//! The edge of the real world: folders, files and standard output. They tell no contents.
#![tactic(auto)]

mod folder_source;
mod folder_volume;
mod std_sink;

pub use folder_source::FolderSource;
pub use folder_volume::FolderVolume;
pub use std_sink::StdSink;

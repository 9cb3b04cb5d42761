//! Writes the sound file of a project: the track file of its frames' mixed sound.
#![tactic(auto)]

mod end;
mod writer;

pub use end::SoundEnd;
pub use writer::write_sound;

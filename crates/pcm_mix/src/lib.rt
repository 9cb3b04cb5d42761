//! Mixes the sound of a project's frames.
#![tactic(auto)]

mod clip;
mod frame;
mod gains;
mod refusal;
mod samples;
mod size;

pub use frame::sound_frame;
pub use refusal::SoundRefusal;

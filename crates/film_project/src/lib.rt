//! A film project: its types, which keep each rule of the project file, and the definitions of its text.
#![tactic(auto)]

mod asset;
mod clip;
mod copy;
mod place;
mod project;
mod refusal;
mod text_rule;

pub use asset::{Asset, AssetKind};
pub use clip::{Gain, PictureClip, SoundClip};
pub use place::Place;
pub use project::Project;
pub use refusal::ProjectRefusal;
pub use text_rule::TextRule;

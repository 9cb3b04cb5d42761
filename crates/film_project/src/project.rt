use crate::asset::Asset;
use crate::clip::{PictureClip, SoundClip};
use mast_base::{Bytes, List};
use std::marker::Model;

/// A film, as its project file tells it. Each rule of the file holds of it.
#[derive(Debug, Drop)]
pub struct Project {
    pub title: Bytes,
    /// `feature`, `trailer`, `test`, `teaser`, `rating`, `advertisement`, `short`, `transitional`,
    /// `psa` or `policy`.
    pub kind: Bytes,
    /// The date of issue in UTC, as `2024-05-01T12:00:00`.
    pub issued: Bytes,
    /// The UUID under which the package's own identifiers are made.
    pub namespace: [u8; 16],
    pub width: u16,
    pub height: u16,
    /// Frames a second.
    pub fps: u8,
    /// In Mbit/s.
    pub rate: u16,
    /// The light of a sample is sample^(power/5).
    pub power: u8,
    /// The channels of sound: 0 where there is no sound file.
    pub channels: u8,
    pub frames: u32,
    pub assets: List<Asset>,
    pub picture: List<PictureClip>,
    pub sound: List<SoundClip>,
}

impl Model for Project {
    ghost use Rattle.film_project.specs.Facts.{ProjectFacts};

    ghost Value = { ProjectFacts };

    ghost use Rattle.film_project.specs.Rules.{IsProject};
    ghost use Rattle.film_project.specs.Views.{project_of};

    ghost view = { project_of };

    ghost invariant = { λ p. IsProject (project_of p) };
}

use mast_base::List;
use std::marker::Model;

/// Shows frames `from` and on of an asset, each `hold` times, in the frames `at` and on.
#[derive(Clone, Copy, Debug)]
pub struct PictureClip {
    /// The place in the project's assets.
    pub asset: u32,
    pub at: u32,
    pub from: u32,
    pub count: u32,
    pub hold: u32,
}

impl Model for PictureClip {
    ghost use Rattle.film_project.specs.Facts.{PictureFacts};

    ghost Value = { PictureFacts };

    ghost use Rattle.film_project.specs.Rules.{IsPictureClip};
    ghost use Rattle.film_project.specs.Views.{picture_of};

    ghost view = { picture_of };

    ghost invariant = { λ c. IsPictureClip (picture_of c) };

    ghost inverse = { λ f. record { asset = f.asset; at = f.at; from = f.from; count = f.count; hold = f.hold } };
}

/// Adds one channel of an asset to one channel of the project.
#[derive(Clone, Copy, Debug)]
pub struct Gain {
    /// The channel of the asset.
    pub from: u8,
    /// The channel of the project.
    pub to: u8,
    /// In 1/65536.
    pub gain: u32,
}

impl Model for Gain {
    ghost use Rattle.film_project.specs.Facts.{GainFacts};

    ghost Value = { GainFacts };

    ghost use Rattle.film_project.specs.Rules.{IsGain};
    ghost use Rattle.film_project.specs.Views.{gain_of};

    ghost view = { gain_of };

    ghost invariant = { λ g. IsGain (gain_of g) };

    ghost inverse = { λ f. record { from = f.from; to = f.to; gain = f.gain } };
}

/// Plays the samples of frames `from` and on of an asset in the frames `at` and on.
#[derive(Debug, Drop)]
pub struct SoundClip {
    /// The place in the project's assets.
    pub asset: u32,
    pub at: u32,
    pub from: u32,
    pub count: u32,
    pub gains: List<Gain>,
}

impl Model for SoundClip {
    ghost use Rattle.film_project.specs.Facts.{SoundFacts};

    ghost Value = { SoundFacts };

    ghost use Rattle.film_project.specs.Rules.{IsSoundClip};
    ghost use Rattle.film_project.specs.Views.{sound_of};

    ghost view = { sound_of };

    ghost invariant = { λ c. IsSoundClip (sound_of c) };
}

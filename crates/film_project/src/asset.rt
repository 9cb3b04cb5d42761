use mast_base::Bytes;
use std::marker::Model;

/// How an asset's files hold its frames or samples.
#[derive(Clone, Copy, Debug, PartialEq, Eq)]
pub enum AssetKind {
    /// Frames of 16-bit red, green and blue samples, one after another in one file.
    Rgb48,
    /// A folder of PPM files.
    Ppm,
    /// A folder of JPEG 2000 codestreams.
    J2c,
    /// 24-bit sound samples, the channels in turn.
    Pcm24,
}

/// A file, or a folder of files, that clips take frames or samples from.
#[derive(Debug, Drop)]
pub struct Asset {
    pub id: Bytes,
    pub kind: AssetKind,
    pub file: Bytes,
    /// The channels of sound: 0 for pictures.
    pub channels: u8,
}

impl Model for Asset {
    ghost use Rattle.film_project.specs.Facts.{AssetFacts};

    ghost Value = { AssetFacts };

    ghost use Rattle.film_project.specs.Rules.{IsAsset};
    ghost use Rattle.film_project.specs.Views.{asset_of};

    ghost view = { asset_of };

    ghost invariant = { λ a. IsAsset (asset_of a) };
}

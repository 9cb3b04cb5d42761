use mast_base::NoMemory;
use picture_track::PictureEnd;
use sound_track::SoundEnd;

/// How a run is to be done. None of it shows in the package.
#[derive(Clone, Copy, Debug, PartialEq, Eq)]
pub struct Options {
    /// How many threads encode, at most 16.
    pub workers: u32,
    /// How many frames wait in memory for their turn.
    pub held: u32,
    /// Whether what an earlier run left is made anew.
    pub fresh: bool,
}

/// What a run made.
#[derive(Clone, Copy, Debug, PartialEq, Eq)]
pub struct Report {
    pub frames: u32,
    /// How many frames were kept from an earlier run.
    pub kept: u32,
}

/// Why no package was made.
#[derive(Debug, Drop)]
pub enum MakeEnd {
    /// There is no picture file.
    Picture(PictureEnd),
    /// There is no sound file.
    Sound(SoundEnd),
    /// There was no memory for what all frames share.
    NoMemory,
}

impl From<PictureEnd> for MakeEnd {
    ghost use Rattle.std.specs.Prelude.{◌≡◌};
    ghost use Rattle.make_engine.specs.declared.outcome.MakeEnd.TheVariants.{Picture};

    ghost from_gives = { λ end made. made ≡ Picture end };

    fn from(end: PictureEnd) -> Self {
        MakeEnd::Picture(end)
    }
}

impl From<SoundEnd> for MakeEnd {
    ghost use Rattle.std.specs.Prelude.{◌≡◌};
    ghost use Rattle.make_engine.specs.declared.outcome.MakeEnd.TheVariants.{Sound};

    ghost from_gives = { λ end made. made ≡ Sound end };

    fn from(end: SoundEnd) -> Self {
        MakeEnd::Sound(end)
    }
}

impl From<NoMemory> for MakeEnd {
    ghost use Rattle.std.specs.Prelude.{◌≡◌};
    ghost use Rattle.make_engine.specs.declared.outcome.MakeEnd.TheVariants.{NoMemory};

    ghost from_gives = { λ _ made. made ≡ NoMemory };

    fn from(_error: NoMemory) -> Self {
        MakeEnd::NoMemory
    }
}

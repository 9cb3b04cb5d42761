use mast_base::NoMemory;
use pcm_mix::SoundRefusal;
use std::alloc::AllocError;
use track_file::TrackEnd;

/// Why the sound file wasn't written.
#[derive(Clone, Copy, Debug, PartialEq, Eq)]
pub enum SoundEnd {
    /// A frame's sound wasn't mixed.
    Sound(SoundRefusal),
    /// The track file wasn't written on.
    Track(TrackEnd),
}

impl From<SoundRefusal> for SoundEnd {
    ghost use Rattle.std.specs.Prelude.{◌≡◌};
    ghost use Rattle.sound_track.specs.declared.end.SoundEnd.TheVariants.{Sound};

    ghost from_gives = { λ refusal made. made ≡ Sound refusal };

    fn from(refusal: SoundRefusal) -> Self {
        SoundEnd::Sound(refusal)
    }
}

impl From<TrackEnd> for SoundEnd {
    ghost use Rattle.std.specs.Prelude.{◌≡◌};
    ghost use Rattle.sound_track.specs.declared.end.SoundEnd.TheVariants.{Track};

    ghost from_gives = { λ end made. made ≡ Track end };

    fn from(end: TrackEnd) -> Self {
        SoundEnd::Track(end)
    }
}

// Memory that runs out beside the mixing was for the track.
impl From<NoMemory> for SoundEnd {
    ghost use Rattle.std.specs.Prelude.{◌≡◌};
    ghost use Rattle.track_file.specs.declared.end.TrackEnd.TheVariants as track;
    ghost use Rattle.sound_track.specs.declared.end.SoundEnd.TheVariants.{Track};

    ghost from_gives = { λ _ made. made ≡ Track track.NoMemory };

    fn from(_error: NoMemory) -> Self {
        SoundEnd::Track(TrackEnd::NoMemory)
    }
}

impl From<AllocError> for SoundEnd {
    ghost use Rattle.std.specs.Prelude.{◌≡◌};
    ghost use Rattle.track_file.specs.declared.end.TrackEnd.TheVariants as track;
    ghost use Rattle.sound_track.specs.declared.end.SoundEnd.TheVariants.{Track};

    ghost from_gives = { λ _ made. made ≡ Track track.NoMemory };

    fn from(_error: AllocError) -> Self {
        SoundEnd::Track(TrackEnd::NoMemory)
    }
}

use mast_base::NoMemory;
use mast_world::Failed;
use std::alloc::AllocError;

/// Why a frame of sound wasn't mixed.
#[derive(Clone, Copy, Debug, PartialEq, Eq)]
pub enum SoundRefusal {
    /// The source failed.
    SourceFault,
    /// Memory ran out.
    NoMemory,
}

impl From<Failed> for SoundRefusal {
    ghost use Rattle.std.specs.Prelude.{◌≡◌};
    ghost use Rattle.pcm_mix.specs.declared.refusal.SoundRefusal.TheVariants.{SourceFault};

    ghost from_gives = { λ _ made. made ≡ SourceFault };

    fn from(_fault: Failed) -> Self {
        SoundRefusal::SourceFault
    }
}

impl From<NoMemory> for SoundRefusal {
    ghost use Rattle.std.specs.Prelude.{◌≡◌};
    ghost use Rattle.pcm_mix.specs.declared.refusal.SoundRefusal.TheVariants as refusal;

    ghost from_gives = { λ _ made. made ≡ refusal.NoMemory };

    fn from(_error: NoMemory) -> Self {
        SoundRefusal::NoMemory
    }
}

impl From<AllocError> for SoundRefusal {
    ghost use Rattle.std.specs.Prelude.{◌≡◌};
    ghost use Rattle.pcm_mix.specs.declared.refusal.SoundRefusal.TheVariants.{NoMemory};

    ghost from_gives = { λ _ made. made ≡ NoMemory };

    fn from(_error: AllocError) -> Self {
        SoundRefusal::NoMemory
    }
}

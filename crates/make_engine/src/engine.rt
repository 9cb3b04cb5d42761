ghost use Rattle.std.specs.Prelude.{◌≡◌, IfErr, IfOk, IsOk, OnOk};
ghost use Rattle.disk_terms.specs.Disk.{at_rest};
ghost use Rattle.frame_values.specs.Causes.{AreEncodedFrames};
ghost use Rattle.make_engine.specs.Causes.{IsMakeCause, IsOutOfMemory};
ghost use Rattle.make_engine.specs.Package.{AreAtRest, ArePut, AreTracks, HasSound, IsFileOf, IsMade, IsSoundFile};
ghost use Rattle.make_engine.specs.Package.{package_files, sound_file, sounds_size};
ghost use Rattle.film_plan.specs.Plan.{ids_of};
ghost use Rattle.mast_world.specs.Changes.{IsSameBeside, IsSameSource};
ghost use Rattle.mast_world.specs.Count.{HasRisen, counted};
ghost use Rattle.mast_world.specs.declared.volume.FileId.TheVariants.{Sound};
ghost use Rattle.pcm_mix.specs.Mix.{AreSoundsThere};
ghost use Rattle.sound_track.specs.Causes.{IsSoundCause};
ghost use Rattle.sound_track.specs.Sound.{HasSoundItems, sound_put};

use crate::outcome::{MakeEnd, Options, Report};
use film_plan::Plan;
use frame_maker::FrameMaker;
use mast_world::{Source, Volume};
use picture_track::write_picture;
use sound_track::{SoundEnd, write_sound};
use std::alloc::Global;

/// Writes the sound file, where the project has sound.
fn write_sound_file<S: Source, V: Volume>(
    alloc: Global,
    plan: &Plan,
    source: &mut S,
    volume: &mut V,
) -> Result<(), SoundEnd>
    requires there { S.tells → AreSoundsThere (S.file source.old) plan.now.project }

    ensures written { S.tells → V.tells → OnOk result (HasSound plan.now.project
        → V.reads volume.new (Sound 1) ≡ sound_file (S.file source.old) plan.now.project) }
    ensures values { V.tells → OnOk result (HasSound plan.now.project
        → HasSoundItems plan.now.project (ids_of plan.now.project).sound (V.reads volume.new (Sound 1))) }
    ensures at_rest { V.tells → OnOk result (HasSound plan.now.project
        → (V.history volume.new).newest (Sound 1) ≡ at_rest (V.reads volume.new (Sound 1))) }
    ensures taken { OnOk result (S.taken source.new ≡ counted (S.taken source.old) (sounds_size plan.now.project)) }
    ensures put { OnOk result (HasSound plan.now.project
        → V.put volume.new (Sound 1) ≡ counted (V.put volume.old (Sound 1)) (sound_put plan.now.project)) }
    ensures source_untroubled { OnOk result (S.faults source.new ≡ S.faults source.old) }
    ensures volume_untroubled { OnOk result (V.faults volume.new ≡ V.faults volume.old) }

    ensures needed { IfErr result (λ _. HasSound plan.now.project) }
    ensures ended { IfErr result
        (IsSoundCause S.faults source.old source.new V.faults volume.old volume.new) }
    ensures kept { IsSameSource S.file S.absent S.taken S.faults source.old source.new }
    ensures beside { IsSameBeside (IsSoundFile plan.now.project) V.tells V.reads V.put V.faults V.history
        volume.old volume.new }
{
    if plan.project.channels == 0 {
        return Ok(());
    }
    write_sound(alloc, &plan.project, &plan.ids.sound, source, volume)
}

/// Makes the package of the plan on the caller's thread: the picture file, then the sound file, each on the disk before
/// the next step. A frame that repeats the one before it gets that one's codestream, and its input isn't read again.
pub fn make_alone<S: Source, V: Volume>(
    alloc: Global,
    plan: &Plan,
    _options: &Options,
    source: &mut S,
    volume: &mut V,
) -> Result<Report, MakeEnd>
    requires there { S.tells → AreSoundsThere (S.file source.old) plan.now.project }

    // What was made, how much was read for it, and how much was put.
    ensures made { S.tells → OnOk result (IsMade V.tells (S.file source.old) plan.now.project
        (V.reads volume.new) (S.taken source.old) (S.taken source.new)) }
    ensures put { V.tells
        → OnOk result (ArePut plan.now.project (V.reads volume.new) (V.put volume.old) (V.put volume.new)) }
    // A crash leaves these files, and nothing else of them.
    ensures at_rest { V.tells
        → OnOk result (AreAtRest plan.now.project (V.reads volume.new) (V.history volume.new)) }
    // Each frame that the engine encoded is read back to its quantised coefficients down to the bit-planes that its cut
    // keeps, within the limits; and whatever the source tells, the files are tracks of values within their sizes.
    ensures encoded { S.tells → OnOk result (AreEncodedFrames (S.file source.old) plan.now.project) }
    ensures values { V.tells → OnOk result (AreTracks plan.now.project (V.reads volume.new)) }
    ensures report { IfOk result (λ report. report ≡ record { frames = plan.now.project.frames; kept = 0 }) }
    ensures source_untroubled { OnOk result (S.faults source.new ≡ S.faults source.old) }
    ensures volume_untroubled { OnOk result (V.faults volume.new ≡ V.faults volume.old) }

    // Why nothing was made, by the ending.
    ensures ended { IfErr result (IsMakeCause S.tells (S.file source.old) plan.now.project
        S.absent S.faults source.old source.new V.tells V.reads V.put V.faults V.history volume.old volume.new) }

    // What stays in any case.
    ensures kept { IsSameSource S.file S.absent S.taken S.faults source.old source.new }
    ensures beside { IsSameBeside (IsFileOf plan.now.project) V.tells V.reads V.put V.faults V.history
        volume.old volume.new }

    // Where there is a package and no device fails, nothing but want of memory keeps it from being made.
    ensures complete { S.tells → IsOk (package_files (S.file source.old) plan.now.project)
        → ¬ HasRisen (S.faults source.old) (S.faults source.new)
        → ¬ HasRisen (V.faults volume.old) (V.faults volume.new)
        → IfErr result IsOutOfMemory }
{
    let mut maker = FrameMaker::new(alloc, plan)?;
    write_picture(alloc, plan, &mut maker, &plan.ids.picture, source, volume)?;
    write_sound_file(alloc, plan, source, volume)?;
    Ok(Report {
        frames: plan.project.frames,
        kept: 0,
    })
}

ghost use Rattle.std.specs.Prelude.{◌≡◌, ◌*◌, [], IfErr, OnOk, length};
ghost use Rattle.disk_terms.specs.Disk.{at_rest};
ghost use Rattle.mast_world.specs.Changes.{IsSameBeside, IsSameSource, Only};
ghost use Rattle.mast_world.specs.Count.{counted};
ghost use Rattle.mast_world.specs.declared.volume.FileId.TheVariants.{Sound};
ghost use Rattle.pcm_mix.specs.Mix.{AreSoundsThere};
ghost use Rattle.sound_track.specs.Causes.{IsSoundCause};
ghost use Rattle.sound_track.specs.Sound.{HasFrames, HasSoundItems};
ghost use Rattle.sound_track.specs.Sound.{item_size, sound_of, sound_put, sound_values, sounds_taken};
ghost use Rattle.track_file.specs.TrackFile.{HasItems};

use crate::end::SoundEnd;
use film_project::Project;
use mast_base::Bytes;
use mast_world::{FileId, Source, Volume};
use pcm_mix::sound_frame;
use std::alloc::Global;
use track_file::{KEY_LENGTH, TrackFile};
use track_terms::{TrackFacts, TrackKind};

/// Writes the items of all frames into a track that has none yet. The room for one serves for all.
fn write_frames<S: Source, V: Volume>(
    alloc: Global,
    project: &Project,
    source: &mut S,
    volume: &mut V,
    track: &mut TrackFile,
) -> Result<(), SoundEnd>
    requires there { S.tells → AreSoundsThere (S.file source.old) project.now }
    requires frames { track.old.facts.frames ≡ project.now.frames }
    requires none { track.old.places ≡ [] }
    requires begun { V.tells → HasItems track.old [] (V.reads volume.old track.old.file) }
    requires end { V.tells → length (V.reads volume.old track.old.file) ≡ track.old.place }

    ensures written { S.tells → V.tells → OnOk result
        (HasItems track.new (sound_values (S.file source.old) project.now) (V.reads volume.new track.old.file)) }
    ensures values { V.tells → OnOk result
        (HasFrames project.now project.now.frames track.new (V.reads volume.new track.old.file)) }
    ensures all { OnOk result (length track.new.places ≡ project.now.frames) }
    ensures end_on { V.tells → OnOk result (length (V.reads volume.new track.old.file) ≡ track.new.place) }
    ensures same_facts { track.new.facts ≡ track.old.facts }
    ensures same_file { track.new.file ≡ track.old.file }
    ensures taken { OnOk result (S.taken source.new ≡ counted (S.taken source.old) (sounds_taken project.now)) }
    ensures put { OnOk result (V.put volume.new track.old.file
        ≡ counted (V.put volume.old track.old.file) (project.now.frames * item_size project.now)) }

    ensures ended { IfErr result
        (IsSoundCause S.faults source.old source.new V.faults volume.old volume.new) }
    ensures source_untroubled { OnOk result (S.faults source.new ≡ S.faults source.old) }
    ensures volume_untroubled { OnOk result (V.faults volume.new ≡ V.faults volume.old) }
    ensures kept { IsSameSource S.file S.absent S.taken S.faults source.old source.new }
    ensures same_absent { S.absent source.new ≡ S.absent source.old }
    ensures beside { IsSameBeside (Only track.old.file) V.tells V.reads V.put V.faults V.history volume.old volume.new }
{
    let mut sound = Bytes::new(alloc);
    // Room for the key and the length stays in front, so that each item is one write.
    let mut item = Vec::from_elem(alloc, 0, KEY_LENGTH)?;
    for frame in 0..project.frames {
        sound_frame(alloc, source, project, frame, &mut sound)?;
        item.truncate(KEY_LENGTH);
        item.extend_from_slice(sound.as_slice())?;
        track.append(volume, &mut item)?;
    }
    Ok(())
}

/// Writes the sound file of a project, whose asset has this UUID, and waits until it is on the disk.
/// Beside the places of the items it takes memory for the sound of one frame.
pub fn write_sound<S: Source, V: Volume>(
    alloc: Global,
    project: &Project,
    asset: &[u8; 16],
    source: &mut S,
    volume: &mut V,
) -> Result<(), SoundEnd>
    requires there { S.tells → AreSoundsThere (S.file source.old) project.now }

    // What was written, how much was read for it, and how much was put.
    ensures written { S.tells → V.tells → OnOk result
        (V.reads volume.new (Sound 1) ≡ sound_of (S.file source.old) project.now asset.now) }
    ensures values { V.tells → OnOk result (HasSoundItems project.now asset.now (V.reads volume.new (Sound 1))) }
    ensures at_rest { V.tells
        → OnOk result ((V.history volume.new).newest (Sound 1) ≡ at_rest (V.reads volume.new (Sound 1))) }
    ensures taken { OnOk result (S.taken source.new ≡ counted (S.taken source.old) (sounds_taken project.now)) }
    ensures put { OnOk result (V.put volume.new (Sound 1) ≡ counted (V.put volume.old (Sound 1)) (sound_put project.now)) }
    ensures source_untroubled { OnOk result (S.faults source.new ≡ S.faults source.old) }
    ensures volume_untroubled { OnOk result (V.faults volume.new ≡ V.faults volume.old) }

    ensures ended { IfErr result
        (IsSoundCause S.faults source.old source.new V.faults volume.old volume.new) }

    // What stays in any case.
    ensures kept { IsSameSource S.file S.absent S.taken S.faults source.old source.new }
    ensures same_absent { S.absent source.new ≡ S.absent source.old }
    ensures beside { IsSameBeside (Only (Sound 1)) V.tells V.reads V.put V.faults V.history volume.old volume.new }
{
    let facts = TrackFacts::of_project(alloc, project, TrackKind::Sound, b"sound-1.mxf", asset)?;
    let mut track = TrackFile::begin(alloc, volume, FileId::Sound(1), facts)?;
    write_frames(alloc, project, source, volume, &mut track)?;
    track.finish(alloc, volume)?;
    Ok(())
}

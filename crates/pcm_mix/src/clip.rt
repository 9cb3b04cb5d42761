ghost use Rattle.std.specs.Prelude.{◌≡◌, ◌≤◌, ◌<◌, ◌+◌, ◌-◌, ◌*◌, ◌^◌, ℕ, length, IsTrue, OnOk, IfErr};
ghost use Rattle.film_project.specs.Facts.{asset_at};
ghost use Rattle.film_project.specs.Rules.{FitsSound};
ghost use Rattle.mast_world.specs.Changes.{IsSameSource};
ghost use Rattle.mast_world.specs.Content.{part_of, Reaches};
ghost use Rattle.mast_world.specs.Count.{counted};
ghost use Rattle.pcm_mix.specs.Causes.{IsCause};
ghost use Rattle.pcm_mix.specs.Mix.{clip_frame, clip_part, clip_size, plays, sample_at, samples_of};
ghost use Rattle.pcm_mix.specs.Sums.{value_at, AreRaised, AreSamples, AreWithin};

use crate::gains::add_gains;
use crate::refusal::SoundRefusal;
use crate::samples::decode;
use crate::size::samples_of;
use film_project::{Asset, Project, SoundClip};
use mast_world::Source;
use std::alloc::Global;

/// Room for a frame of a clip: its bytes and its samples.
#[derive(Debug, Drop)]
pub(crate) struct ClipRoom {
    bytes: Vec<u8>,
    samples: Vec<i32>,
}

impl ClipRoom {
    pub(crate) fn new(alloc: Global) -> Self {
        ClipRoom {
            bytes: Vec::new(alloc),
            samples: Vec::new(alloc),
        }
    }
}

/// Whether the clip plays in frame `f`.
pub(crate) fn plays(clip: &SoundClip, f: u32) -> bool
    ensures { result ≡ plays clip.now f }
{
    clip.at <= f && f < clip.at + clip.count
}

fn asset_at(project: &Project, place: u32) -> &Asset
    requires { place < length project.now.assets }
    ensures { result.now ≡ asset_at project.now place }
{
    &project.assets.as_slice()[place as usize]
}

/// Reads what the clip's file has for frame `f`.
fn read_samples<S: Source>(
    source: &mut S,
    project: &Project,
    clip: &SoundClip,
    f: u32,
    room: &mut ClipRoom,
) -> Result<(), SoundRefusal>
    requires plays { IsTrue (plays clip.now f) }
    requires fits { FitsSound project.now.frames project.now.channels project.now.assets clip.now }
    requires there { S.tells → Reaches (S.file source.old (asset_at project.now clip.now.asset).file)
        ((clip.now.from + clip.now.count) * clip_size project.now clip.now) }

    ensures samples { S.tells → OnOk result ((k : ℕ) → value_at room.new.samples.items k
        ≡ sample_at (clip_frame (S.file source.old) project.now clip.now f) k) }
    ensures small { OnOk result (AreSamples room.new.samples.items) }
    ensures count { OnOk result (length room.new.samples.items
        ≡ samples_of project.now * (asset_at project.now clip.now.asset).channels) }
    ensures taken { OnOk result (S.taken source.new ≡ counted (S.taken source.old) (clip_size project.now clip.now)) }
    ensures cause { IfErr result (IsCause S.faults source.old source.new) }

    ensures untroubled { OnOk result (S.faults source.new ≡ S.faults source.old) }
    ensures kept { IsSameSource S.file S.absent S.taken S.faults source.old source.new }
    ensures same_absent { S.absent source.new ≡ S.absent source.old }
{
    let asset = asset_at(project, clip.asset);
    let count = samples_of(project) * usize::from(asset.channels);
    room.bytes.resize(3 * count, 0)?;
    room.samples.resize(count, 0)?;
    let index = u64::from(clip.from + (f - clip.at));
    source.read(
        asset.file.as_slice(),
        index * room.bytes.len() as u64,
        &mut room.bytes,
    )?;
    decode(&room.bytes, &mut room.samples);
    Ok(())
}

/// Adds the clip's part of frame `f` to the sums.
pub(crate) fn add_clip<S: Source>(
    source: &mut S,
    project: &Project,
    clip: &SoundClip,
    f: u32,
    room: &mut ClipRoom,
    sums: &mut [i64],
) -> Result<(), SoundRefusal>
    requires plays { IsTrue (plays clip.now f) }
    requires fits { FitsSound project.now.frames project.now.channels project.now.assets clip.now }
    requires there { S.tells → Reaches (S.file source.old (asset_at project.now clip.now.asset).file)
        ((clip.now.from + clip.now.count) * clip_size project.now clip.now) }
    requires sums { length sums.old ≡ samples_of project.now * project.now.channels }
    requires room { AreWithin (2 ^ 61) (samples_of project.now) project.now.channels sums.old }

    ensures raised { S.tells → OnOk result (AreRaised (clip_part (S.file source.old) project.now clip.now f)
        (samples_of project.now) project.now.channels sums.old sums.new) }
    ensures within { OnOk result ((most : ℕ) → AreWithin most (samples_of project.now) project.now.channels sums.old
        → AreWithin (most + 2 ^ 49) (samples_of project.now) project.now.channels sums.new) }
    ensures taken { OnOk result (S.taken source.new ≡ counted (S.taken source.old) (clip_size project.now clip.now)) }
    ensures cause { IfErr result (IsCause S.faults source.old source.new) }

    ensures untroubled { OnOk result (S.faults source.new ≡ S.faults source.old) }
    ensures kept { IsSameSource S.file S.absent S.taken S.faults source.old source.new }
    ensures same_absent { S.absent source.new ≡ S.absent source.old }
{
    read_samples(source, project, clip, f, room)?;
    add_gains(
        clip.gains.as_slice(),
        samples_of(project),
        &room.samples,
        usize::from(asset_at(project, clip.asset).channels),
        sums,
        usize::from(project.channels),
    );
    Ok(())
}

ghost use Rattle.std.specs.Prelude.{◌≡◌, ◌<◌, ◌*◌, ◌^◌, [], OnOk, OnErr, IfOk, IfErr, length};
ghost use Rattle.mast_world.specs.Changes.{IsSameSource};
ghost use Rattle.mast_world.specs.Count.{counted};
ghost use Rattle.pcm_mix.specs.Causes.{IsCause};
ghost use Rattle.pcm_mix.specs.Mix.{mixed, samples_of, sound_frame, sound_size, sound_taken, AreSoundsThere};
ghost use Rattle.pcm_mix.specs.Sums.{AreRaised, AreSums, AreWithin};

use crate::clip::{ClipRoom, add_clip, plays};
use crate::refusal::SoundRefusal;
use crate::samples::encode;
use crate::size::samples_of;
use film_project::Project;
use mast_base::Bytes;
use mast_world::Source;
use std::alloc::Global;
use std::mem;

/// Adds the parts of all clips that play in frame `f` to the sums.
fn add_clips<S: Source>(
    alloc: Global,
    source: &mut S,
    project: &Project,
    f: u32,
    sums: &mut [i64],
) -> Result<(), SoundRefusal>
    requires there { S.tells → AreSoundsThere (S.file source.old) project.now }
    requires sums { length sums.old ≡ samples_of project.now * project.now.channels }
    requires room { AreWithin (2 ^ 60) (samples_of project.now) project.now.channels sums.old }

    ensures raised { S.tells → OnOk result (AreRaised (mixed (S.file source.old) project.now f)
        (samples_of project.now) project.now.channels sums.old sums.new) }
    ensures taken { OnOk result (S.taken source.new ≡ counted (S.taken source.old) (sound_taken project.now f)) }
    ensures cause { IfErr result (IsCause S.faults source.old source.new) }

    ensures untroubled { OnOk result (S.faults source.new ≡ S.faults source.old) }
    ensures kept { IsSameSource S.file S.absent S.taken S.faults source.old source.new }
    ensures same_absent { S.absent source.new ≡ S.absent source.old }
{
    let mut room = ClipRoom::new(alloc);
    for clip in project.sound.as_slice() {
        if plays(clip, f) {
            add_clip(source, project, clip, f, &mut room, sums)?;
        }
    }
    Ok(())
}

/// The sums of all clips that play in frame `f`.
fn mix<S: Source>(
    alloc: Global,
    source: &mut S,
    project: &Project,
    f: u32,
) -> Result<Vec<i64>, SoundRefusal>
    requires there { S.tells → AreSoundsThere (S.file source.old) project.now }

    ensures sums { S.tells → IfOk result (λ sums. AreSums (mixed (S.file source.old) project.now f)
        (samples_of project.now) project.now.channels sums.items) }
    ensures count { IfOk result (λ sums. length sums.items ≡ samples_of project.now * project.now.channels) }
    ensures taken { OnOk result (S.taken source.new ≡ counted (S.taken source.old) (sound_taken project.now f)) }
    ensures cause { IfErr result (IsCause S.faults source.old source.new) }

    ensures untroubled { OnOk result (S.faults source.new ≡ S.faults source.old) }
    ensures kept { IsSameSource S.file S.absent S.taken S.faults source.old source.new }
    ensures same_absent { S.absent source.new ≡ S.absent source.old }
{
    let count = samples_of(project) * usize::from(project.channels);
    let mut sums = Vec::from_elem(alloc, 0i64, count)?;
    add_clips(alloc, source, project, f, &mut sums)?;
    Ok(sums)
}

/// The sound of frame `f`: samples of 24 bits, the lowest byte first, the channels in turn. `out` keeps its memory from
/// call to call. A refusal empties it, and gives its memory back.
pub fn sound_frame<S: Source>(
    alloc: Global,
    source: &mut S,
    project: &Project,
    f: u32,
    out: &mut Bytes,
) -> Result<(), SoundRefusal>
    requires inside { f < project.now.frames }
    requires there { S.tells → AreSoundsThere (S.file source.old) project.now }

    ensures sound { S.tells → OnOk result (out.new ≡ sound_frame (S.file source.old) project.now f) }
    ensures size { OnOk result (length out.new ≡ sound_size project.now project.now.channels) }
    ensures empty { OnErr result (out.new ≡ []) }
    ensures taken { OnOk result (S.taken source.new ≡ counted (S.taken source.old) (sound_taken project.now f)) }
    ensures cause { IfErr result (IsCause S.faults source.old source.new) }

    ensures untroubled { OnOk result (S.faults source.new ≡ S.faults source.old) }
    ensures kept { IsSameSource S.file S.absent S.taken S.faults source.old source.new }
    ensures same_absent { S.absent source.new ≡ S.absent source.old }
{
    let mut bytes = mem::replace(out, Bytes::new(alloc)).into_vec();
    let sums = mix(alloc, source, project, f)?;
    bytes.resize(3 * sums.len(), 0)?;
    encode(&sums, &mut bytes);
    *out = Bytes::from(bytes);
    Ok(())
}

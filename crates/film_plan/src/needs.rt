ghost use Rattle.std.specs.Prelude.{◌≡◌, ◌≤◌, map};
ghost use Rattle.film_plan.specs.Needs as spec;

use film_project::{Asset, AssetKind, PictureClip, Project, SoundClip};

/// How many bytes the clips need of the asset at this place: 0 where it isn't a single file.
pub(crate) fn need_of(project: &Project, place: usize, asset: &Asset) -> u64
    ensures { result ≡ spec.need_of project.now place asset.now }
{
    match asset.kind {
        AssetKind::Rgb48 => {
            frames_shown(project.picture.as_slice(), place) * frame_size(project)
        }
        AssetKind::Pcm24 => {
            frames_played(project.sound.as_slice(), place) * sound_size(project, asset.channels)
        }
        AssetKind::Ppm | AssetKind::J2c => 0,
    }
}

/// The frames up to the last one that a clip shows of the asset at this place.
fn frames_shown(clips: &[PictureClip], place: usize) -> u64
    ensures value { result ≡ spec.greatest (spec.frames_shown place) clips.now }
    ensures small { result ≤ 1_431_999 }
{
    let mut most = 0;
    for clip in clips {
        most = most.max(clip_shown(clip, place));
    }
    most
}

fn clip_shown(clip: &PictureClip, place: usize) -> u64
    ensures value { result ≡ spec.frames_shown place clip.now }
    ensures small { result ≤ 1_431_999 }
{
    if clip.asset as usize == place {
        u64::from(clip.from + (clip.count - 1) / clip.hold + 1)
    } else {
        0
    }
}

/// The frames up to the last one whose samples a clip plays of the asset at this place.
fn frames_played(clips: &[SoundClip], place: usize) -> u64
    ensures value { result ≡ spec.greatest (spec.frames_played place) clips.now }
    ensures small { result ≤ 1_431_999 }
{
    let mut most = 0;
    for clip in clips {
        most = most.max(clip_played(clip, place));
    }
    most
}

fn clip_played(clip: &SoundClip, place: usize) -> u64
    ensures value { result ≡ spec.frames_played place clip.now }
    ensures small { result ≤ 1_431_999 }
{
    if clip.asset as usize == place {
        u64::from(clip.from + clip.count)
    } else {
        0
    }
}

/// The bytes of a frame of 16-bit red, green and blue samples.
fn frame_size(project: &Project) -> u64
    ensures value { result ≡ spec.frame_size project.now }
    ensures small { result ≤ 13_271_040 }
{
    u64::from(project.width) * u64::from(project.height) * 6
}

/// The bytes of a frame of 24-bit samples at 48 kHz in this many channels.
fn sound_size(project: &Project, channels: u8) -> u64
    requires { channels ≤ 16 }
    ensures value { result ≡ spec.sound_size project.now channels }
    ensures small { result ≤ 96_000 }
{
    48_000 / u64::from(project.fps) * u64::from(channels) * 3
}

ghost use Rattle.std.specs.Prelude.{◌≡◌, ℕ, ◌≤◌, ◌<◌, map};
ghost use Rattle.film_timeline.specs.Timeline.{covers, last_covering};

use film_project::PictureClip;

/// The first frame after `f` where the clip begins or ends, if it comes before `until`; else
/// `until`.
fn sooner(clip: &PictureClip, f: u32, until: u32) -> u32
    requires { f < until }
    ensures later { f < result }
    ensures no_later { result ≤ until }
    ensures steady { (g : ℕ) → f ≤ g → g < result → covers clip.now g ≡ covers clip.now f }
{
    let end = clip.at + clip.count;
    if f < clip.at {
        clip.at.min(until)
    } else if f < end {
        end.min(until)
    } else {
        until
    }
}

/// A frame after `f`, up to which the last clip that covers a frame stays the same: the next one
/// where a clip begins or ends, or `frames`.
pub(crate) fn next_change(clips: &[PictureClip], f: u32, frames: u32) -> u32
    requires { f < frames }
    ensures later { f < result }
    ensures no_later { result ≤ frames }
    ensures steady { (g : ℕ) → f ≤ g → g < result
        → last_covering clips.now g ≡ last_covering clips.now f }
{
    let mut until = frames;
    for clip in clips {
        until = sooner(clip, f, until);
    }
    until
}

ghost use Rattle.std.specs.Prelude.{◌≡◌, IsTrue};
ghost use Rattle.std.specs.Option.{ForSome, option_copied};
ghost use Rattle.film_timeline.specs.Timeline.{covers, last_covering, shown_in};

use crate::cell::Cell;
use film_project::PictureClip;

/// Whether the clip shows a frame of its asset in frame `f`.
pub(crate) fn covers_frame(clip: &PictureClip, f: u32) -> bool
    ensures { result ≡ covers clip.now f }
{
    clip.at <= f && f < clip.at + clip.count
}

/// The last of these clips that covers frame `f`.
#[tactic(auto, unfolding(crate::specs::Timeline::last_covering))]
pub(crate) fn find_last(clips: &[PictureClip], f: u32) -> Option<PictureClip>
    ensures { result ≡ last_covering clips.now f }
{
    clips
        .iter()
        .rev()
        .copied()
        .find(|clip| covers_frame(clip, f))
}

/// What the clip shows in frame `f`, which it covers, or black where there is no clip.
pub(crate) fn cell_of(shown: Option<&PictureClip>, f: u32) -> Cell
    requires { ForSome shown (λ clip. IsTrue (covers clip.now f)) }
    ensures { result ≡ shown_in (option_copied shown.entry) f }
{
    match shown {
        Some(clip) => Cell::Frame {
            asset: clip.asset,
            index: clip.from + (f - clip.at) / clip.hold,
        },
        None => Cell::Black,
    }
}

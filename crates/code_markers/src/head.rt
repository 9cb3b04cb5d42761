ghost use Rattle.std.specs.Prelude.{◌≡◌, ◌≤◌, true, [], length};
ghost use Rattle.codec_terms.specs.MainReading.{head_of_size, is_complete, may_follow, head_at, marker_at};

use crate::marker::{COD, COM, QCD, SOT, TLM, marker_at};
use codec_terms::{MainHead, MarkerRefusal, Shape};

/// What the segments of a main header say so far.
#[derive(Clone, Copy, Debug)]
pub(crate) struct HeadSoFar {
    pub(crate) shape: Shape,
    /// Whether there was a segment COD.
    pub(crate) coded: bool,
    /// The sub-bands' numbers of bit-planes, by the segment QCD.
    pub(crate) planes: Option<[u8; 16]>,
    /// The tile-parts' lengths, by the segment TLM.
    pub(crate) parts: Option<[u32; 3]>,
    /// The cut, by the first comment that states one.
    pub(crate) cut: Option<u32>,
}

impl HeadSoFar {
    ghost use Rattle.code_markers.specs.Heads.{so_far};

    /// What the segment SIZ alone says.
    pub(crate) fn of_size(shape: Shape) -> Self
        ensures { so_far result ≡ head_of_size [] shape.width shape.height }
    {
        HeadSoFar {
            shape,
            coded: false,
            planes: None,
            parts: None,
            cut: None,
        }
    }

    /// Whether the segments COD, QCD and TLM were there.
    fn is_complete(&self) -> bool
        ensures { result ≡ is_complete [] (so_far self.now) }
    {
        self.coded && self.planes.is_some() && self.parts.is_some()
    }

    /// Whether this marker may stand behind the segments so far.
    fn may_follow(&self, marker: u16) -> bool
        ensures { result ≡ may_follow [] (so_far self.now) marker }
    {
        match marker {
            COM => true,
            COD => !self.coded,
            QCD => self.planes.is_none(),
            TLM => self.parts.is_none(),
            SOT => self.is_complete(),
            _ => false,
        }
    }

    /// The marker at a place, one that may stand there.
    pub(crate) fn next_marker(&self, bytes: &[u8], at: usize) -> Result<u16, MarkerRefusal>
        requires { at ≤ length bytes.now }
        ensures { result ≡ marker_at bytes.now (may_follow bytes.now (so_far self.now)) at }
    {
        let got = marker_at(bytes, at)?;
        if !self.may_follow(got) {
            return Err(MarkerRefusal::Marker { at, got });
        }
        Ok(got)
    }

    /// What a main header of these segments says, behind which the first tile-part begins.
    pub(crate) fn finished(&self, next: usize) -> MainHead
        requires { is_complete [] (so_far self.now) ≡ true }
        ensures { result ≡ head_at [] (so_far self.now) next }
    {
        MainHead {
            shape: self.shape,
            mb: self.planes.unwrap(),
            parts: self.parts.unwrap(),
            cut: self.cut,
            next,
        }
    }
}

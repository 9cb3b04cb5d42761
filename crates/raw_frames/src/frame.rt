ghost use Rattle.std.specs.Prelude.{◌≡◌, ◌≢◌, ◌≤◌, ◌<◌, [], OnOk, OnErr, IfErr, length};
ghost use Rattle.film_project.specs.declared.asset.AssetKind.TheVariants.{J2c, Pcm24};
ghost use Rattle.raw_frames.specs.Frames.{frame_size, IsCause};
ghost use Rattle.raw_frames.specs.Kinds.{shown_frame, TakesFrame};
ghost use Rattle.mast_world.specs.Changes.{IsSameSource};

use crate::input::{read_ppm, read_rgb48};
use crate::refusal::FrameRefusal;
use film_project::{Asset, AssetKind};
use mast_base::Bytes;
use mast_world::Source;
use std::alloc::Global;

/// Reads a frame of a picture asset: rows from the top, pixels R, G, B, 16 bits big-endian each. After a refusal
/// `into` is empty. Its memory serves again.
pub fn read_frame<S: Source>(
    alloc: Global,
    source: &mut S,
    asset: &Asset,
    index: u32,
    width: u16,
    height: u16,
    into: &mut Bytes,
) -> Result<(), FrameRefusal>
    requires no_codestreams { asset.now.kind ≢ J2c }
    requires no_sound { asset.now.kind ≢ Pcm24 }
    requires index { index < 10000000 }
    requires least_width { 32 ≤ width }
    requires greatest_width { width ≤ 2048 }
    requires least_height { 32 ≤ height }
    requires greatest_height { height ≤ 1080 }

    ensures read { S.tells → OnOk result (shown_frame asset.now.kind (S.file source.old) asset.now.file index width height ≡ Ok into.new) }
    ensures size { OnOk result (length into.new ≡ frame_size width height) }
    ensures empty { OnErr result (into.new ≡ []) }
    ensures taken { OnOk result (TakesFrame asset.now.kind S.tells (S.file source.old) asset.now.file index
        (frame_size width height) (S.taken source.old) (S.taken source.new)) }
    ensures cause { IfErr result (IsCause S.tells (shown_frame asset.now.kind (S.file source.old) asset.now.file index width height)
        S.absent S.faults source.old source.new) }

    ensures untroubled { OnOk result (S.faults source.new ≡ S.faults source.old) }
    ensures kept { IsSameSource S.file S.absent S.taken S.faults source.old source.new }
{
    match asset.kind {
        AssetKind::Rgb48 => read_rgb48(
            alloc,
            source,
            asset.file.as_slice(),
            index,
            width,
            height,
            into,
        ),
        AssetKind::Ppm => read_ppm(
            alloc,
            source,
            asset.file.as_slice(),
            index,
            width,
            height,
            into,
        ),
        AssetKind::J2c | AssetKind::Pcm24 => unreachable!(),
    }
}

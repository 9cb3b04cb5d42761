ghost use Rattle.std.specs.Prelude.{◌≡◌, ◌≢◌, ◌≤◌, ◌<◌, ◌⊎◌, IfOk, IfErr, OnOk, length, take};
ghost use Rattle.film_plan.specs.Plan.{limits_of};
ghost use Rattle.film_project.specs.declared.asset.AssetKind.TheVariants.{J2c, Pcm24};
ghost use Rattle.frame_maker.specs.Making.{picture_shown, IsEncoding, IsEnd, IsRead, IsShown};
ghost use Rattle.frame_values.specs.Shown.{file_of, raw_end};
ghost use Rattle.frame_values.specs.declared.ends.CellEnd.TheVariants.{NoMemory};
ghost use Rattle.mast_world.specs.Changes.{IsSameSource};
ghost use Rattle.raw_frames.specs.Frames.{frame_size};

use crate::maker::FrameMaker;
use crate::names::file_of;
use film_plan::Plan;
use film_project::{Asset, Project};
use frame_values::{BadWhy, CellEnd};
use mast_base::Bytes;
use mast_world::Source;
use raw_frames::{FrameRefusal, read_frame};
use std::alloc::Global;

/// What a refusal of an asset's raw picture says of the cell. A missing file is told by its name, for which memory may
/// be wanting.
fn raw_end(alloc: Global, asset: &Asset, index: u32, refusal: FrameRefusal) -> CellEnd
    ensures { (result ≡ NoMemory) ⊎ (result ≡ raw_end (file_of asset.now index) refusal) }
{
    match refusal {
        FrameRefusal::Missing => match file_of(alloc, asset, index) {
            Ok(name) => CellEnd::Missing { name },
            Err(_) => CellEnd::NoMemory,
        },
        FrameRefusal::BadHeader { at } => CellEnd::Bad {
            why: BadWhy::Header { at: at as u64 },
        },
        FrameRefusal::Short { size, need } => CellEnd::Bad {
            why: BadWhy::Short { size, need },
        },
        FrameRefusal::SourceFault => CellEnd::SourceFault,
        FrameRefusal::NoMemory => CellEnd::NoMemory,
    }
}

/// Reads an asset's raw picture.
fn read_raw<S: Source>(
    alloc: Global,
    project: &Project,
    asset: &Asset,
    index: u32,
    source: &mut S,
    raw: &mut Bytes,
) -> Result<(), CellEnd>
    requires no_codestreams { asset.now.kind ≢ J2c }
    requires no_sound { asset.now.kind ≢ Pcm24 }
    requires index { index < 10000000 }

    ensures read { S.tells → OnOk result (IsRead (S.file source.old) project.now asset.now index
        raw.new (S.taken source.old) (S.taken source.new)) }
    ensures size { OnOk result (length raw.new ≡ frame_size project.now.width project.now.height) }

    ensures ended { IfErr result (IsEnd S.tells (picture_shown (S.file source.old) project.now asset.now index)
        project.now (file_of asset.now index) S.absent S.faults source.old source.new) }
    ensures untroubled { OnOk result (S.faults source.new ≡ S.faults source.old) }
    ensures kept { IsSameSource S.file S.absent S.taken S.faults source.old source.new }
{
    match read_frame(
        alloc,
        source,
        asset,
        index,
        project.width,
        project.height,
        raw,
    ) {
        Ok(()) => Ok(()),
        Err(refusal) => Err(raw_end(alloc, asset, index, refusal)),
    }
}

impl FrameMaker {
    /// Shows an asset's raw picture.
    pub(crate) fn show_raw<S: Source>(
        &mut self,
        alloc: Global,
        plan: &Plan,
        asset: &Asset,
        index: u32,
        source: &mut S,
        room: &mut [u8],
    ) -> Result<usize, CellEnd>
        requires no_codestreams { asset.now.kind ≢ J2c }
        requires no_sound { asset.now.kind ≢ Pcm24 }
        requires index { index < 10000000 }
        requires room { (limits_of plan.now.project).frame ≤ length room.old }

        ensures shown { S.tells → IfOk result (λ n. IsShown (picture_shown (S.file source.old) plan.now.project asset.now index)
            (take n room.new) (S.taken source.old) (S.taken source.new)) }
        ensures value { IfOk result (λ n. IsEncoding plan.now.project (take n room.new)) }
        ensures size { IfOk result (λ n. n ≤ (limits_of plan.now.project).frame) }

        ensures ended { IfErr result (IsEnd S.tells (picture_shown (S.file source.old) plan.now.project asset.now index)
            plan.now.project (file_of asset.now index) S.absent S.faults source.old source.new) }
        ensures untroubled { OnOk result (S.faults source.new ≡ S.faults source.old) }
        ensures kept { IsSameSource S.file S.absent S.taken S.faults source.old source.new }
    {
        read_raw(alloc, &plan.project, asset, index, source, &mut self.raw)?;
        Ok(self.show_kept(alloc, plan, room)?)
    }
}

ghost use Rattle.std.specs.Prelude.{◌≡◌, ◌≢◌, ◌≤◌, ◌<◌, IfOk, IfErr, OnOk, length, take};
ghost use Rattle.film_plan.specs.Plan.{limits_of};
ghost use Rattle.film_project.specs.declared.asset.AssetKind.TheVariants.{Pcm24};
ghost use Rattle.frame_maker.specs.Making.{IsEnd, IsShown};
ghost use Rattle.frame_values.specs.Causes.{IsCellCause, IsCellOf, IsFrameValue, Shows};
ghost use Rattle.frame_values.specs.Shown.{asset_shown, file_of};
ghost use Rattle.mast_world.specs.Changes.{IsSameSource};

use crate::black::BlackFrame;
use crate::names::{asset_at, file_of};
use crate::ready::show_ready;
use film_plan::Plan;
use film_project::{Asset, AssetKind};
use film_timeline::Cell;
use frame_values::CellEnd;
use mast_base::{Bytes, NoMemory};
use mast_world::Source;
use picture_encoder::Encoder;
use std::alloc::Global;

/// What makes frames, and keeps its memory from one to the next.
#[derive(Debug, Drop)]
pub struct FrameMaker {
    /// Made at the first picture that is encoded.
    pub(crate) encoder: Option<Encoder>,
    /// The last raw picture.
    pub(crate) raw: Bytes,
    /// The last black picture that was encoded.
    pub(crate) black: Option<BlackFrame>,
}

impl FrameMaker {
    /// A maker of the plan's frames. The memory of the encoder and of a raw picture is taken when one is first encoded.
    pub fn new(alloc: Global, _plan: &Plan) -> Result<Self, NoMemory> {
        Ok(FrameMaker {
            encoder: None,
            raw: Bytes::new(alloc),
            black: None,
        })
    }

    /// Shows an asset's frame of an index.
    fn show_frame<S: Source>(
        &mut self,
        alloc: Global,
        plan: &Plan,
        asset: &Asset,
        index: u32,
        source: &mut S,
        room: &mut [u8],
    ) -> Result<usize, CellEnd>
        requires no_sound { asset.now.kind ≢ Pcm24 }
        requires index { index < 10000000 }
        requires room { (limits_of plan.now.project).frame ≤ length room.old }

        ensures shown { S.tells → IfOk result (λ n. IsShown
            (asset_shown asset.now.kind (S.file source.old) plan.now.project asset.now index)
            (take n room.new) (S.taken source.old) (S.taken source.new)) }
        ensures value { IfOk result (λ n. IsFrameValue plan.now.project (take n room.new)) }
        ensures size { IfOk result (λ n. n ≤ (limits_of plan.now.project).frame) }

        ensures ended { IfErr result (IsEnd S.tells
            (asset_shown asset.now.kind (S.file source.old) plan.now.project asset.now index)
            plan.now.project (file_of asset.now index) S.absent S.faults source.old source.new) }
        ensures untroubled { OnOk result (S.faults source.new ≡ S.faults source.old) }
        ensures kept { IsSameSource S.file S.absent S.taken S.faults source.old source.new }
    {
        if asset.kind != AssetKind::J2c {
            return self.show_raw(alloc, plan, asset, index, source, room);
        }
        let name = file_of(alloc, asset, index)?;
        show_ready(plan, name, source, room)
    }

    /// Puts what the cell shows at the front of `room`, and answers its length.
    pub fn show<S: Source>(
        &mut self,
        alloc: Global,
        plan: &Plan,
        cell: Cell,
        source: &mut S,
        room: &mut [u8],
    ) -> Result<usize, CellEnd>
        requires cell { IsCellOf plan.now.project cell }
        requires room { (limits_of plan.now.project).frame ≤ length room.old }

        ensures shown { S.tells → IfOk result (λ n. Shows (S.file source.old) plan.now.project cell
            (take n room.new) (S.taken source.old) (S.taken source.new)) }
        ensures value { IfOk result (λ n. IsFrameValue plan.now.project (take n room.new)) }
        ensures size { IfOk result (λ n. n ≤ (limits_of plan.now.project).frame) }

        ensures ended { IfErr result (IsCellCause S.tells (S.file source.old) plan.now.project cell
            S.absent S.faults source.old source.new) }
        ensures untroubled { OnOk result (S.faults source.new ≡ S.faults source.old) }
        ensures kept { IsSameSource S.file S.absent S.taken S.faults source.old source.new }
    {
        match cell {
            Cell::Black => Ok(self.show_black(alloc, plan, room)?),
            Cell::Frame { asset, index } => {
                let asset = asset_at(&plan.project, asset);
                self.show_frame(alloc, plan, asset, index, source, room)
            }
        }
    }
}

ghost use Rattle.std.specs.Prelude.{◌≡◌, ◌≤◌, IfOk, OnOk, length, replicate, take};
ghost use Rattle.codec_terms.specs.Cut.{IsWithin};
ghost use Rattle.codec_terms.specs.Encode.{encoding, shape_of, task_coefficients, task_cut};
ghost use Rattle.film_plan.specs.Plan.{limits_of};
ghost use Rattle.frame_values.specs.Encoded.{IsEncodingOf, IsTaskOf};
ghost use Rattle.frame_values.specs.Shown.{black};
ghost use Rattle.frame_maker.specs.Black.{IsBlack};
ghost use Rattle.raw_frames.specs.Frames.{frame_size};

use crate::black::{BlackFrame, is_black, kept_for};
use crate::maker::FrameMaker;
use codec_terms::{Params, Task};
use film_plan::Plan;
use film_project::Project;
use frame_values::{encoded_frame_laws, task_laws};
use mast_base::{Bytes, Limits, NoMemory};
use picture_encoder::{Encoded, Encoder};
use std::alloc::{AllocError, Global};
use std::mem;

/// What decides how the project's pictures are encoded.
fn params_of(project: &Project, limits: Limits) -> Params
    requires { limits ≡ limits_of project.now }
    ensures width { result.width ≡ project.now.width }
    ensures height { result.height ≡ project.now.height }
    ensures power { result.power ≡ project.now.power }
    ensures limits { result.limits ≡ limits_of project.now }
{
    Params {
        width: project.width,
        height: project.height,
        power: project.power,
        limits,
    }
}

/// The plan's raw picture as a task.
fn task_of(plan: &Plan, raw: Bytes) -> Task
    requires { length raw ≡ frame_size plan.now.project.width plan.now.project.height }
    ensures of { IsTaskOf plan.now.project result }
    ensures raw { result.raw ≡ raw }
{
    let params = params_of(&plan.project, plan.limits);
    Task { params, raw }
}

/// Takes the encoder out, which is made where there is none.
fn take_encoder(
    alloc: Global,
    kept: &mut Option<Encoder>,
    params: Params,
) -> Result<Encoder, NoMemory> {
    match kept.take() {
        Some(encoder) => Ok(encoder),
        None => Encoder::new(alloc, params),
    }
}

/// Encodes a picture with the encoder that is kept.
fn encode<'a>(
    alloc: Global,
    kept: &mut Option<Encoder>,
    task: &'a Task,
) -> Result<Encoded<'a>, NoMemory>
    ensures { IfOk result (λ encoded. encoded.task.now ≡ task.now) }
{
    let mut encoder = take_encoder(alloc, kept, task.params)?;
    let encoded = encoder.encode(alloc, task);
    *kept = Some(encoder);
    encoded
}

/// Encodes a picture to the front of `room`, and answers the codestream's length.
fn encode_to(
    alloc: Global,
    kept: &mut Option<Encoder>,
    task: &Task,
    room: &mut [u8],
) -> Result<usize, NoMemory>
    requires room { task.now.params.limits.frame ≤ length room.old }
    ensures value { IfOk result (λ n. take n room.new ≡ encoding task.now) }
    ensures size { IfOk result (λ n. n ≤ task.now.params.limits.frame) }
{
    let encoded = encode(alloc, kept, task)?;
    let bytes = encoded.bytes.as_slice();
    room[..bytes.len()].copy_from_slice(bytes);
    Ok(bytes.len())
}

/// The same of a black picture, which is encoded once for all that are encoded like it.
fn encode_black_to(
    alloc: Global,
    kept: &mut Option<Encoder>,
    black: &mut Option<BlackFrame>,
    task: &Task,
    room: &mut [u8],
) -> Result<usize, NoMemory>
    requires black { IsBlack task.now }
    requires room { task.now.params.limits.frame ≤ length room.old }
    ensures value { IfOk result (λ n. take n room.new ≡ encoding task.now) }
    ensures size { IfOk result (λ n. n ≤ task.now.params.limits.frame) }
{
    if let Some(bytes) = kept_for(black, task.params) {
        room[..bytes.len()].copy_from_slice(bytes);
        return Ok(bytes.len());
    }
    let size = encode_to(alloc, kept, task, room)?;
    *black = Some(BlackFrame::of(alloc, task, &room[..size])?);
    Ok(size)
}

/// The bytes of the project's raw pictures.
fn frame_size(project: &Project) -> usize
    ensures { result ≡ frame_size project.now.width project.now.height }
{
    usize::from(project.width) * usize::from(project.height) * 6
}

/// Makes the bytes so many zeros, in their own memory where that is enough.
fn fill_black(alloc: Global, raw: &mut Bytes, size: usize) -> Result<(), AllocError>
    ensures { OnOk result (raw.new ≡ replicate size 0) }
{
    let mut bytes = mem::replace(raw, Bytes::new(alloc)).into_vec();
    bytes.clear();
    let filled = bytes.resize(size, 0);
    *raw = Bytes::from(bytes);
    filled
}

impl FrameMaker {
    /// Shows the raw picture that is kept.
    pub(crate) fn show_kept(
        &mut self,
        alloc: Global,
        plan: &Plan,
        room: &mut [u8],
    ) -> Result<usize, NoMemory>
        requires whole { length self.old.raw ≡ frame_size plan.now.project.width plan.now.project.height }
        requires room { (limits_of plan.now.project).frame ≤ length room.old }
        ensures value { IfOk result (λ n. IsEncodingOf plan.now.project self.old.raw (take n room.new)) }
        ensures size { IfOk result (λ n. n ≤ (limits_of plan.now.project).frame) }
    {
        encoded_frame_laws();
        task_laws();
        let raw = mem::replace(&mut self.raw, Bytes::new(alloc));
        let task = task_of(plan, raw);
        let size = if is_black(task.raw.as_slice()) {
            encode_black_to(alloc, &mut self.encoder, &mut self.black, &task, room)
        } else {
            encode_to(alloc, &mut self.encoder, &task, room)
        };
        self.raw = task.raw;
        size
    }

    /// Shows black.
    pub(crate) fn show_black(
        &mut self,
        alloc: Global,
        plan: &Plan,
        room: &mut [u8],
    ) -> Result<usize, NoMemory>
        requires room { (limits_of plan.now.project).frame ≤ length room.old }
        ensures value { IfOk result (λ n. IsEncodingOf plan.now.project (black plan.now.project) (take n room.new)) }
        ensures size { IfOk result (λ n. n ≤ (limits_of plan.now.project).frame) }
    {
        fill_black(alloc, &mut self.raw, frame_size(&plan.project))?;
        self.show_kept(alloc, plan, room)
    }
}

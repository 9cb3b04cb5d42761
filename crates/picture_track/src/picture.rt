ghost use Rattle.std.specs.Prelude.{◌≡◌, ◌+◌, [], IfOk, IfErr, OnOk, IsOk, length};
ghost use Rattle.disk_terms.specs.Disk.{at_rest};
ghost use Rattle.film_plan.specs.Plan.{limits_of};
ghost use Rattle.frame_values.specs.Causes.{AreEncodedFrames};
ghost use Rattle.mast_world.specs.Changes.{IsSameBeside, IsSameSource, Only};
ghost use Rattle.mast_world.specs.Count.{HasRisen, counted};
ghost use Rattle.mast_world.specs.declared.volume.FileId.TheVariants.{Picture};
ghost use Rattle.picture_track.specs.Causes.{IsCopyCause, IsOutOfMemory, IsPictureCause};
ghost use Rattle.picture_track.specs.Picture.{HasCopied, HasFrameItems, HasFrameValues, IsPicture};
ghost use Rattle.picture_track.specs.Picture.{picture_facts, picture_of, picture_put};
ghost use Rattle.picture_track.specs.declared.picture.TheConstants.{PICTURE};
ghost use Rattle.track_file.specs.Causes.{IsCause};
ghost use Rattle.track_file.specs.TrackFile.{HasItems, HasValues};

use crate::frame::{KEY_LENGTH, take_value};
use crate::outcome::PictureEnd;
use film_plan::Plan;
use film_project::Project;
use frame_maker::FrameMaker;
use frame_values::encoded_frame_laws;
use mast_world::{FileId, Source, Volume};
use std::alloc::{AllocError, Global};
use track_file::{TrackEnd, TrackFile};
use track_terms::{TrackFacts, TrackKind};

const PICTURE: FileId = FileId::Picture(1);

/// Room for an item of the plan's greatest frame.
fn make_room(alloc: Global, plan: &Plan) -> Result<Vec<u8>, AllocError>
    ensures { IfOk result (λ room. length room.items ≡ 20 + (limits_of plan.now.project).frame) }
{
    Vec::from_elem(alloc, 0, KEY_LENGTH + plan.limits.frame as usize)
}

/// Begins the picture file.
fn begin_track<V: Volume>(
    alloc: Global,
    project: &Project,
    asset: &[u8; 16],
    volume: &mut V,
) -> Result<TrackFile, TrackEnd>
    ensures begun { IfOk result (λ track. (track.facts ≡ picture_facts project.now asset.now) × (track.file ≡ PICTURE) × HasValues track []) }
    ensures written { V.tells → IfOk result (λ track. HasItems track [] (V.reads volume.new PICTURE)) }
    ensures end { V.tells → IfOk result (λ track. length (V.reads volume.new PICTURE) ≡ track.place) }
    ensures put { OnOk result (V.put volume.new PICTURE ≡ counted (V.put volume.old PICTURE) 16508) }

    ensures ended { IfErr result (IsCause V.faults volume.old volume.new) }
    ensures untroubled { OnOk result (V.faults volume.new ≡ V.faults volume.old) }
    ensures beside { IsSameBeside (Only PICTURE) V.tells V.reads V.put V.faults V.history volume.old volume.new }
{
    let facts = TrackFacts::of_project(
        alloc,
        project,
        TrackKind::Picture,
        b"picture-1.mxf",
        asset,
    )?;
    TrackFile::begin(alloc, volume, PICTURE, facts)
}

/// Puts what all frames show into the track, in order. A frame that repeats the one before it gets the same
/// value, and its input isn't read again. `room` holds each item between the read of its file and its write.
fn copy_frames<S: Source, V: Volume>(
    alloc: Global,
    plan: &Plan,
    maker: &mut FrameMaker,
    track: &mut TrackFile,
    source: &mut S,
    volume: &mut V,
    room: &mut [u8],
) -> Result<(), PictureEnd>
    requires room { length room.old ≡ 20 + (limits_of plan.now.project).frame }
    requires frames { track.old.facts.frames ≡ plan.now.project.frames }
    requires file { track.old.file ≡ PICTURE }
    requires begun { HasValues track.old [] }
    requires written { V.tells → HasItems track.old [] (V.reads volume.old PICTURE) }
    requires end { V.tells → length (V.reads volume.old PICTURE) ≡ track.old.place }

    ensures copied { S.tells
        → OnOk result (HasCopied V.tells (S.file source.old) plan.now.project plan.now.project.frames
        track.new (V.reads volume.new PICTURE) (S.taken source.old) (S.taken source.new)) }
    ensures items { V.tells
        → OnOk result (HasFrameItems plan.now.project plan.now.project.frames
        track.new (V.reads volume.new PICTURE) (V.put volume.old PICTURE) (V.put volume.new PICTURE)) }
    ensures all { OnOk result (length track.new.places ≡ plan.now.project.frames) }
    ensures end { V.tells → OnOk result (length (V.reads volume.new PICTURE) ≡ track.new.place) }
    ensures same_facts { OnOk result (track.new.facts ≡ track.old.facts) }
    ensures same_file { OnOk result (track.new.file ≡ PICTURE) }

    ensures ended { IfErr result (IsCopyCause S.tells (S.file source.old) plan.now.project
        S.absent S.faults source.old source.new V.faults volume.old volume.new) }
    ensures source_untroubled { OnOk result (S.faults source.new ≡ S.faults source.old) }
    ensures volume_untroubled { OnOk result (V.faults volume.new ≡ V.faults volume.old) }
    ensures kept { IsSameSource S.file S.absent S.taken S.faults source.old source.new }
    ensures beside { IsSameBeside (Only PICTURE) V.tells V.reads V.put V.faults V.history volume.old volume.new }
{
    let project = &plan.project;
    let mut held = 0;
    for frame in 0..project.frames {
        held = take_value(alloc, plan, frame, maker, source, room, held)?;
        track.append(volume, &mut room[..KEY_LENGTH + held])?;
    }
    Ok(())
}

/// Writes the picture file of the plan, an MXF track of what its frames show. `asset` is the UUID of the
/// picture as an asset of its package. All memory that the frames share but for the maker's is taken before
/// the volume is touched.
pub fn write_picture<S: Source, V: Volume>(
    alloc: Global,
    plan: &Plan,
    maker: &mut FrameMaker,
    asset: &[u8; 16],
    source: &mut S,
    volume: &mut V,
) -> Result<(), PictureEnd>
    // What was written, how much was read for it, and how much was put.
    ensures written { S.tells → OnOk result (IsPicture V.tells (S.file source.old) plan.now.project asset.now
        (V.reads volume.new (Picture 1)) (S.taken source.old) (S.taken source.new)) }
    ensures values { V.tells
        → OnOk result (HasFrameValues plan.now.project asset.now (V.reads volume.new (Picture 1))) }
    ensures put { V.tells → OnOk result (V.put volume.new (Picture 1)
        ≡ counted (V.put volume.old (Picture 1)) (picture_put (V.reads volume.new (Picture 1)))) }
    // A crash leaves it as it is.
    ensures at_rest { V.tells
        → OnOk result ((V.history volume.new).newest (Picture 1) ≡ at_rest (V.reads volume.new (Picture 1))) }
    // Each frame that was encoded is read back to its quantised coefficients down to the bit-planes that its cut
    // keeps, within the limits.
    ensures encoded { S.tells → OnOk result (AreEncodedFrames (S.file source.old) plan.now.project) }
    ensures source_untroubled { OnOk result (S.faults source.new ≡ S.faults source.old) }
    ensures volume_untroubled { OnOk result (V.faults volume.new ≡ V.faults volume.old) }

    ensures ended { IfErr result (IsPictureCause S.tells (S.file source.old) plan.now.project S.absent S.faults
        source.old source.new V.tells V.reads V.put V.faults V.history volume.old volume.new) }

    // What stays in any case.
    ensures kept { IsSameSource S.file S.absent S.taken S.faults source.old source.new }
    ensures beside { IsSameBeside (Only (Picture 1)) V.tells V.reads V.put V.faults V.history volume.old volume.new }

    // Where there is a picture file and no device fails, nothing but want of memory keeps it from being written.
    ensures complete { S.tells → IsOk (picture_of (S.file source.old) plan.now.project asset.now)
        → ¬ HasRisen (S.faults source.old) (S.faults source.new)
        → ¬ HasRisen (V.faults volume.old) (V.faults volume.new)
        → IfErr result IsOutOfMemory }
{
    let mut room = make_room(alloc, plan)?;
    let mut track = begin_track(alloc, &plan.project, asset, volume)?;
    copy_frames(
        alloc,
        plan,
        maker,
        &mut track,
        source,
        volume,
        room.as_mut_slice(),
    )?;
    track.finish(alloc, volume)?;
    encoded_frame_laws();
    Ok(())
}

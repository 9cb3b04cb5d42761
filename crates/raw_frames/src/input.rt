ghost use Rattle.std.specs.Prelude.{◌≡◌, ◌+◌, ◌*◌, ◌^◌, ◌<◌, ◌≤◌, [], OnOk, OnErr, IfOk, IfErr, length};
ghost use Rattle.std.specs.Fmt.{decimal};
ghost use Rattle.frame_files.specs.Name.{frame_name};
ghost use Rattle.frame_files.specs.declared.name.FrameFormat.TheVariants as format;
ghost use Rattle.mast_world.specs.Count.{counted};
ghost use Rattle.raw_frames.specs.Frames.{frame_size, of_file, ppm_frame, rgb48_frame, IsCause, TakesPicture};
ghost use Rattle.mast_world.specs.Changes.{IsSameSource};

use crate::pixels::{ppm_pixels, rgb48_pixels};
use crate::refusal::FrameRefusal;
use frame_files::{FrameFormat, frame_name};
use mast_base::Bytes;
use mast_world::Source;
use std::alloc::{AllocError, Global};
use std::mem;

fn frame_size(width: u16, height: u16) -> usize
    ensures { result ≡ frame_size width height }
{
    usize::from(width) * usize::from(height) * 6
}

/// Takes out the memory of `into`, as room for so many bytes.
fn take_room(alloc: Global, into: &mut Bytes, size: usize) -> Result<Vec<u8>, AllocError>
    ensures size { IfOk result (λ room. length room.items ≡ size) }
    ensures empty { into.new ≡ [] }
{
    let mut room = mem::replace(into, Bytes::new(alloc)).into_vec();
    room.resize(size, 0)?;
    Ok(room)
}

/// Puts the room back, emptied where nothing was read.
fn put_back(
    into: &mut Bytes,
    mut room: Vec<u8>,
    read: Result<(), FrameRefusal>,
) -> Result<(), FrameRefusal>
    ensures same { result ≡ read }
    ensures ok { OnOk read (into.new ≡ room.items) }
    ensures err { OnErr read (into.new ≡ []) }
{
    if read.is_err() {
        room.clear();
    }
    *into = Bytes::from(room);
    read
}

/// Reads a frame of a file of frames one after another. After a refusal `into` is empty.
pub fn read_rgb48<S: Source>(
    alloc: Global,
    source: &mut S,
    file: &[u8],
    index: u32,
    width: u16,
    height: u16,
    into: &mut Bytes,
) -> Result<(), FrameRefusal>
    requires size { frame_size width height < 2 ^ 31 }

    ensures read { S.tells → OnOk result
        (of_file (rgb48_frame index (frame_size width height)) (S.file source.old file.now) ≡ Ok into.new) }
    ensures size { OnOk result (length into.new ≡ frame_size width height) }
    ensures empty { OnErr result (into.new ≡ []) }
    ensures taken { OnOk result (S.taken source.new ≡ counted (S.taken source.old) (frame_size width height)) }
    ensures cause { IfErr result (IsCause S.tells (of_file (rgb48_frame index (frame_size width height)) (S.file source.old file.now))
        S.absent S.faults source.old source.new) }

    ensures untroubled { OnOk result (S.faults source.new ≡ S.faults source.old) }
    ensures kept { IsSameSource S.file S.absent S.taken S.faults source.old source.new }
{
    let mut room = take_room(alloc, into, frame_size(width, height))?;
    let read = rgb48_pixels(source, file, index, room.as_mut_slice());
    put_back(into, room, read)
}

/// Reads the frame of an index from a folder of PPM files. After a refusal `into` is empty.
pub fn read_ppm<S: Source>(
    alloc: Global,
    source: &mut S,
    folder: &[u8],
    index: u32,
    width: u16,
    height: u16,
    into: &mut Bytes,
) -> Result<(), FrameRefusal>
    requires room { 1024 ≤ frame_size width height }
    requires size { frame_size width height < 2 ^ 31 }

    ensures read { S.tells → OnOk result (of_file (ppm_frame (decimal width) (decimal height) (frame_size width height))
        (S.file source.old (frame_name folder.now index format.Ppm)) ≡ Ok into.new) }
    ensures size { OnOk result (length into.new ≡ frame_size width height) }
    ensures empty { OnErr result (into.new ≡ []) }
    ensures taken { OnOk result (TakesPicture S.tells (S.file source.old (frame_name folder.now index format.Ppm))
        (frame_size width height) (S.taken source.old) (S.taken source.new)) }
    ensures cause { IfErr result (IsCause S.tells (of_file (ppm_frame (decimal width) (decimal height) (frame_size width height))
        (S.file source.old (frame_name folder.now index format.Ppm)))
        S.absent S.faults source.old source.new) }

    ensures untroubled { OnOk result (S.faults source.new ≡ S.faults source.old) }
    ensures kept { IsSameSource S.file S.absent S.taken S.faults source.old source.new }
{
    let mut room = take_room(alloc, into, frame_size(width, height))?;
    let name = frame_name(alloc, folder, index, FrameFormat::Ppm)?;
    let columns = width.to_string(alloc)?;
    let rows = height.to_string(alloc)?;
    let read = ppm_pixels(
        source,
        name.as_slice(),
        columns.as_bytes(),
        rows.as_bytes(),
        room.as_mut_slice(),
    );
    put_back(into, room, read)
}

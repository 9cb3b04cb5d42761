ghost use Rattle.std.specs.Prelude.{◌≡◌, ◌+◌, ◌*◌, ◌^◌, ◌<◌, ◌≤◌, Some, OnOk, IfErr, length, option_map, List, ℕ};
ghost use Rattle.mast_world.specs.Count.{counted};
ghost use Rattle.raw_frames.specs.Frames.{of_file, pixels_at, ppm_frame, rgb48_frame, IsCause, TakesPicture};
ghost use Rattle.mast_world.specs.Changes.{IsSameSource};

use crate::refusal::FrameRefusal;
use mast_world::Source;
use ppm_head::header_end;

/// A header is looked for in so many first bytes.
const FIRST: u64 = 1024;

/// Fills `pixels` from the place `at` of a file of `have` bytes.
fn read_pixels<S: Source>(
    source: &mut S,
    name: &[u8],
    have: u64,
    at: u64,
    pixels: &mut [u8],
) -> Result<(), FrameRefusal>
    requires there { S.tells → option_map length (S.file source.old name.now) ≡ Some have }
    requires small { at + length pixels.old < 2 ^ 64 }

    ensures read { S.tells → OnOk result
        (of_file (pixels_at at (length pixels.old)) (S.file source.old name.now) ≡ Ok pixels.new) }
    ensures taken { OnOk result (S.taken source.new ≡ counted (S.taken source.old) (length pixels.old)) }
    ensures cause { IfErr result (IsCause S.tells (of_file (pixels_at at (length pixels.old)) (S.file source.old name.now))
        S.absent S.faults source.old source.new) }

    ensures same_absent { S.absent source.new ≡ S.absent source.old }
    ensures untroubled { OnOk result (S.faults source.new ≡ S.faults source.old) }
    ensures kept { IsSameSource S.file S.absent S.taken S.faults source.old source.new }
{
    let need = at + pixels.len() as u64;
    if have < need {
        return Err(FrameRefusal::Short { size: have, need });
    }
    source.read(name, at, pixels)?;
    Ok(())
}

/// Fills `pixels` with a frame of a file of frames one after another.
pub(crate) fn rgb48_pixels<S: Source>(
    source: &mut S,
    file: &[u8],
    index: u32,
    pixels: &mut [u8],
) -> Result<(), FrameRefusal>
    requires { length pixels.old < 2 ^ 31 }

    ensures read { S.tells → OnOk result
        (of_file (rgb48_frame index (length pixels.old)) (S.file source.old file.now) ≡ Ok pixels.new) }
    ensures taken { OnOk result (S.taken source.new ≡ counted (S.taken source.old) (length pixels.old)) }
    ensures cause { IfErr result (IsCause S.tells (of_file (rgb48_frame index (length pixels.old)) (S.file source.old file.now))
        S.absent S.faults source.old source.new) }

    ensures untroubled { OnOk result (S.faults source.new ≡ S.faults source.old) }
    ensures kept { IsSameSource S.file S.absent S.taken S.faults source.old source.new }
{
    let Some(have) = source.find(file)? else {
        return Err(FrameRefusal::Missing);
    };
    let at = u64::from(index) * pixels.len() as u64;
    read_pixels(source, file, have, at, pixels)
}

/// Fills `pixels` with the picture of a PPM file, the digits of whose width and height are these. The file's
/// first bytes are read into the front of `pixels`.
pub(crate) fn ppm_pixels<S: Source>(
    source: &mut S,
    name: &[u8],
    width: &[u8],
    height: &[u8],
    pixels: &mut [u8],
) -> Result<(), FrameRefusal>
    requires room { 1024 ≤ length pixels.old }
    requires small { length pixels.old < 2 ^ 31 }

    ensures read { S.tells → OnOk result
        (of_file (ppm_frame width.now height.now (length pixels.old)) (S.file source.old name.now) ≡ Ok pixels.new) }
    ensures taken { OnOk result (TakesPicture S.tells (S.file source.old name.now) (length pixels.old)
        (S.taken source.old) (S.taken source.new)) }
    ensures cause { IfErr result (IsCause S.tells
        (of_file (ppm_frame width.now height.now (length pixels.old)) (S.file source.old name.now))
        S.absent S.faults source.old source.new) }

    ensures untroubled { OnOk result (S.faults source.new ≡ S.faults source.old) }
    ensures kept { IsSameSource S.file S.absent S.taken S.faults source.old source.new }
{
    let Some(have) = source.find(name)? else {
        return Err(FrameRefusal::Missing);
    };
    let first = &mut pixels[..have.min(FIRST) as usize];
    source.read(name, 0, first)?;
    match header_end(width, height, first) {
        Ok(at) => read_pixels(source, name, have, at as u64, pixels),
        Err(bad) => Err(FrameRefusal::BadHeader { at: bad.at }),
    }
}

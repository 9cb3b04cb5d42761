ghost use Rattle.std.specs.Prelude.{◌≡◌, IfOk};
ghost use Rattle.frame_files.specs.Name.{ending_of, frame_name, six_digits};

use mast_base::Bytes;
use std::alloc::{AllocError, Global};

/// What a folder's frames are.
#[derive(Clone, Copy, Debug, PartialEq, Eq)]
pub enum FrameFormat {
    /// JPEG 2000 codestreams.
    J2c,
    /// Binary PPM pictures.
    Ppm,
}

/// A number in at least six digits.
fn six_digits(alloc: Global, n: u32) -> Result<Vec<u8>, AllocError>
    ensures { IfOk result (λ text. text.items ≡ six_digits n) }
{
    let digits = n.to_string(alloc)?;
    let mut text = Vec::from_elem(alloc, b'0', 6usize.saturating_sub(digits.len()))?;
    text.extend_from_slice(digits.as_bytes())?;
    Ok(text)
}

fn ending_of(format: FrameFormat) -> &'static [u8]
    ensures { result.now ≡ ending_of format }
{
    match format {
        FrameFormat::J2c => b".j2c",
        FrameFormat::Ppm => b".ppm",
    }
}

/// The name of a frame's file in a folder: `FOLDER/000012.j2c`.
pub fn frame_name(
    alloc: Global,
    folder: &[u8],
    index: u32,
    format: FrameFormat,
) -> Result<Bytes, AllocError>
    ensures { IfOk result (λ name. name ≡ frame_name folder.now index format) }
{
    let digits = six_digits(alloc, index)?;
    let mut name = folder.to_vec(alloc)?;
    name.push(b'/')?;
    name.extend_from_slice(&digits)?;
    name.extend_from_slice(ending_of(format))?;
    Ok(Bytes::from(name))
}

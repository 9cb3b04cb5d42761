ghost use Rattle.std.specs.Prelude.{◌≡◌, ◌≤◌, IfSome, IsTrue, length, replicate};
ghost use Rattle.codec_terms.specs.Encode.{encoding};
ghost use Rattle.frame_maker.specs.Black.{IsBlack, IsEncodedBlack};

use codec_terms::{Params, Task};
use mast_base::{Bytes, NoMemory};
use std::alloc::Global;

/// What a black picture was encoded to.
#[derive(Debug, Drop)]
pub(crate) struct BlackFrame {
    params: Params,
    bytes: Bytes,
    ghost encoded: { IsEncodedBlack params bytes },
}

impl BlackFrame {
    /// Keeps what this picture was encoded to.
    pub(crate) fn of(alloc: Global, task: &Task, bytes: &[u8]) -> Result<Self, NoMemory>
        requires black { IsBlack task.now }
        requires encoded { bytes.now ≡ encoding task.now }
        requires short { length bytes.now ≤ task.now.params.limits.frame }
    {
        let bytes = Bytes::copy_of(alloc, bytes)?;
        Ok(BlackFrame {
            params: task.params,
            bytes,
        })
    }
}

/// Whether all samples are zero.
pub(crate) fn is_black(raw: &[u8]) -> bool
    ensures { IsTrue result → raw.now ≡ replicate (length raw.now) 0 }
{
    for byte in raw {
        if *byte != 0 {
            return false;
        }
    }
    true
}

/// The codestream of black pictures that are encoded like this, where the kept one is.
pub(crate) fn kept_for(kept: &Option<BlackFrame>, params: Params) -> Option<&[u8]>
    ensures { IfSome result (λ bytes. IsEncodedBlack params bytes.now) }
{
    match kept {
        Some(frame) if frame.params == params => Some(frame.bytes.as_slice()),
        _ => None,
    }
}

ghost use Rattle.std.specs.Prelude.{◌≡◌, ◌++◌, ◌∷◌, [], OnOk, IfOk, IfErr};
ghost use Rattle.codec_terms.specs.declared.packet.HeadRefusal.TheVariants.{NoMemory};

use codec_terms::HeadRefusal;
use mast_base::{Bytes, List};
use std::alloc::Global;

/// Puts an item behind the others.
pub(crate) fn push<T: Drop>(list: &mut List<T>, item: T) -> Result<(), HeadRefusal>
    ensures pushed { OnOk result (list.new ≡ list.old ++ item ∷ []) }
    ensures refused { IfErr result (λ refusal. refusal ≡ NoMemory) }
{
    match list.push(item) {
        Ok(()) => Ok(()),
        Err(_) => Err(HeadRefusal::NoMemory),
    }
}

/// A copy of these bytes.
pub(crate) fn copy(alloc: Global, bytes: &[u8]) -> Result<Bytes, HeadRefusal>
    ensures copied { IfOk result (λ copy. copy ≡ bytes.now) }
    ensures refused { IfErr result (λ refusal. refusal ≡ NoMemory) }
{
    match Bytes::copy_of(alloc, bytes) {
        Ok(copy) => Ok(copy),
        Err(_) => Err(HeadRefusal::NoMemory),
    }
}

ghost use Rattle.std.specs.Prelude.{◌≡◌, ◌++◌, ◌∷◌, [], OnOk, IfErr};
ghost use Rattle.codec_terms.specs.declared.reading.ReadRefusal.TheVariants.{NoMemory};

use codec_terms::ReadRefusal;
use mast_base::List;

/// Puts an item behind the others.
pub(crate) fn push<T: Drop>(list: &mut List<T>, item: T) -> Result<(), ReadRefusal>
    ensures pushed { OnOk result (list.new ≡ list.old ++ item ∷ []) }
    ensures refused { IfErr result (λ refusal. refusal ≡ NoMemory) }
{
    match list.push(item) {
        Ok(()) => Ok(()),
        Err(_) => Err(ReadRefusal::NoMemory),
    }
}

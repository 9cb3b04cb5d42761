ghost use Rattle.std.specs.Prelude.{◌≡◌, ◌≤◌, ◌^◌, IfOk, IfErr, Ok, Err, length};
ghost use Rattle.header_bits.specs.Heads.{head_of, head_read};

use crate::numbers::{read_passes, read_size};
use crate::place::BitPlace;
use codec_terms::HeadRefusal;

/// What a header says of a block that is included.
#[derive(Clone, Copy, Debug, PartialEq, Eq)]
pub struct Included {
    pub zero_planes: u8,
    pub passes: u8,
    /// The number of bytes of the codeword.
    pub size: u32,
}

/// Reads what stands behind the zero planes of a block that is included, in a sub-band of `mb` bit-planes. Where the
/// tag tree has no value below `mb` for it, `zero_planes` is `None`.
pub fn read_included(
    bytes: &[u8],
    place: &mut BitPlace,
    mb: u8,
    zero_planes: Option<u32>,
) -> Result<Included, HeadRefusal>
    requires bounded { length bytes.now ≤ 2 ^ 60 }
    ensures read { IfOk result (λ head. head_read bytes.now mb zero_planes place.old ≡ Ok (head_of head, place.new)) }
    ensures refused { IfErr result (λ refusal. head_read bytes.now mb zero_planes place.old ≡ Err refusal) }
{
    let Some(zero_planes) = zero_planes else {
        return Err(HeadRefusal::TooManyPasses {
            at: place.here(),
            n: 0,
        });
    };
    let passes = read_passes(bytes, place)?;
    let most = (3 * u32::from(mb).saturating_sub(zero_planes)).saturating_sub(2);
    if most < passes {
        return Err(HeadRefusal::TooManyPasses {
            at: place.here(),
            n: passes,
        });
    }
    Ok(Included {
        zero_planes: zero_planes as u8,
        passes: passes as u8,
        size: read_size(bytes, place, passes)?,
    })
}

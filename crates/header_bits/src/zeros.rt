ghost use Rattle.std.specs.Prelude.{◌≡◌, ◌+◌, ◌≤◌, IfOk, IfErr, Ok, Err};
ghost use Rattle.header_bits.specs.Zeros.{zeros_read};

use crate::place::BitPlace;
use codec_terms::HeadRefusal;

/// A run of zeros: how many there are, and whether a one ended it.
#[derive(Clone, Copy, Debug, PartialEq, Eq)]
pub struct Zeros {
    pub count: u8,
    pub ended: bool,
}

/// Reads zeros, and the one that ends them, but at most so many bits. Each zero counts one, from `first` on.
pub fn read_zeros(
    bytes: &[u8],
    place: &mut BitPlace,
    first: u8,
    most: u8,
) -> Result<Zeros, HeadRefusal>
    requires { first + most ≤ 255 }
    ensures read { IfOk result (λ zeros. zeros_read bytes.now most first place.old ≡ Ok (zeros, place.new)) }
    ensures least { IfOk result (λ zeros. first ≤ zeros.count) }
    ensures refused { IfErr result (λ refusal. zeros_read bytes.now most first place.old ≡ Err refusal) }
{
    for read in 0..most {
        if place.read_bit(bytes)? {
            return Ok(Zeros {
                count: first + read,
                ended: true,
            });
        }
    }
    Ok(Zeros {
        count: first + most,
        ended: false,
    })
}

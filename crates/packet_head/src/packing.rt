ghost use Rattle.std.specs.Prelude.{◌≡◌, IfOk};
ghost use Rattle.codec_terms.specs.PacketHeader.{packed};
ghost use Rattle.codec_laws.specs.BitsAhead.{bits_behind};

use mast_base::{Bytes, NoMemory};
use std::alloc::Global;

// How many bits are to come behind the first one of the byte that follows this one.
fn bits_behind(byte: u8) -> u32
    ensures { result ≡ bits_behind byte }
{
    if byte == 0xff { 6 } else { 7 }
}

/// The bytes of a header's bits, where the byte behind an FF begins with a bit 0 that is none of them (B.10.1).
pub fn pack_bits(alloc: Global, bits: &[bool]) -> Result<Bytes, NoMemory>
    ensures { IfOk result (λ bytes. bytes ≡ packed bits.now) }
{
    let mut bytes = Bytes::new(alloc);
    let mut byte = 0;
    // How many bits of the byte are to come behind the next one.
    let mut behind = 7u32;
    for bit in bits {
        let more = byte + (u8::from(*bit) << behind);
        if behind == 0 {
            bytes.push(more)?;
            byte = 0;
            behind = bits_behind(more);
        } else {
            byte = more;
            behind -= 1;
        }
    }
    if behind == 7 {
        return Ok(bytes);
    }
    bytes.push(byte)?;
    Ok(bytes)
}

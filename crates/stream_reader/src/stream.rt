ghost use Rattle.std.specs.Prelude.{◌≡◌, ◌≢◌, IfOk, IfErr, Ok, Err};
ghost use Rattle.codec_terms.specs.declared.reading.ReadRefusal.TheVariants.{NoMemory};
ghost use Rattle.codec_terms.specs.StreamReading.{stream_read};

use crate::values::read_values;
use code_markers::{read_end, read_main};
use codec_terms::{Coefficients, ReadRefusal};
use part_packets::read_parts;
use std::alloc::Global;

/// Reads a codestream to its quantised coefficients, or gives its first refusal by place. Any bytes will do. Memory
/// for coefficients is taken once, behind all packets, so that few bytes never take much of it.
pub fn read_stream(alloc: Global, bytes: &[u8]) -> Result<Coefficients, ReadRefusal>
    ensures read { IfOk result (λ c. stream_read bytes.now ≡ Ok c) }
    // Want of memory may come of any bytes, and says nothing of them.
    ensures refused { IfErr result (λ refusal. refusal ≢ NoMemory → stream_read bytes.now ≡ Err refusal) }
{
    let head = match read_main(bytes) {
        Ok(head) => head,
        Err(refusal) => return Err(ReadRefusal::Marker(refusal)),
    };
    let packets = read_parts(alloc, bytes, &head)?;
    read_end(bytes, packets.next)?;
    let values = read_values(alloc, &head, packets.parts.as_slice())?;
    Ok(Coefficients {
        shape: head.shape,
        values,
        cut: head.cut,
        parts: head.parts,
        blocks: packets.blocks,
    })
}

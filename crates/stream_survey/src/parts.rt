ghost use Rattle.std.specs.Prelude.{◌≡◌, ◌≤◌, ◌<◌, ◌+◌, ◌*◌, ◌^◌, IfOk, IfErr, Ok, Err, length};
ghost use Rattle.codec_terms.specs.Codestream.{components};
ghost use Rattle.codec_terms.specs.StreamReading.{tile_part_read, parts_read};
ghost use Rattle.codec_laws.specs.Bounds.{IsPictureSize};
ghost use Rattle.stream_survey.specs.Counts.{counted, counted_parts};

use crate::counts::Counted;
use crate::packets::survey_packets;
use code_markers::{read_part_end, read_part_header};
use codec_terms::{MainHead, ReadRefusal};

// Counts the blocks that a tile-part's packets include. It begins with the marker SOT at a place, and is
// followed by another marker.
fn survey_part(
    bytes: &[u8],
    head: &MainHead,
    component: u8,
    at: usize,
) -> Result<Counted, ReadRefusal>
    requires size { IsPictureSize head.now.shape }
    requires component { component < 3 }
    requires at { at + 2 ≤ length bytes.now }
    requires bounded { length bytes.now ≤ 2 ^ 60 }
    ensures read { IfOk result (λ part. counted (tile_part_read bytes.now head.now component at) ≡ Ok part) }
    ensures refused { IfErr result (λ refusal.
        counted (tile_part_read bytes.now head.now component at) ≡ Err refusal) }
    ensures there { IfOk result (λ part. part.next + 2 ≤ length bytes.now) }
    ensures few { IfOk result (λ part. part.blocks ≤ 48 * 2 ^ 20) }
{
    let packets_at = match read_part_header(bytes, head, component, at + 2) {
        Ok(packets_at) => packets_at,
        Err(refusal) => return Err(ReadRefusal::Marker(refusal)),
    };
    let packets = survey_packets(bytes, head, component, packets_at)?;
    let stated = head.parts[component as usize];
    let next = read_part_end(bytes, component, stated, at, packets.next)?;
    Ok(Counted {
        blocks: packets.blocks,
        next,
    })
}

/// Counts the blocks that the packets of all components include.
pub(crate) fn survey_parts(bytes: &[u8], head: &MainHead) -> Result<Counted, ReadRefusal>
    requires size { IsPictureSize head.now.shape }
    requires next { head.now.next + 2 ≤ length bytes.now }
    requires bounded { length bytes.now ≤ 2 ^ 60 }
    ensures read { IfOk result (λ parts.
        counted_parts (parts_read bytes.now head.now components head.now.next) ≡ Ok parts) }
    ensures refused { IfErr result (λ refusal.
        counted_parts (parts_read bytes.now head.now components head.now.next) ≡ Err refusal) }
    ensures there { IfOk result (λ parts. parts.next + 2 ≤ length bytes.now) }
{
    let mut blocks = 0;
    let mut at = head.next;
    for component in 0..3u8 {
        let part = survey_part(bytes, head, component, at)?;
        blocks += part.blocks;
        at = part.next;
    }
    Ok(Counted { blocks, next: at })
}

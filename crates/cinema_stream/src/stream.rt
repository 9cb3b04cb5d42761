ghost use Rattle.std.specs.Prelude.{◌≡◌, ◌≤◌, ℤ, List, IfOk, Ok, Some, []};
ghost use Rattle.codec_terms.specs.Codestream.{part_lengths, stream};
ghost use Rattle.codec_terms.specs.Encode.{kept_coefficients};
ghost use Rattle.codec_terms.specs.StreamReading.{stream_read};
ghost use Rattle.stream_laws.specs.Counts.{all_kept_blocks};
ghost use Rattle.block_packets.specs.Coded.{AreCodedBlocks};

use crate::packets::{push_bytes, push_parts};
use crate::sizes::sizes_at;
use code_markers::{END, main_header};
use mast_base::{Bytes, NoMemory};
use picture_blocks::Blocks;
use std::alloc::Global;
use stream_laws::stream_read_laws;

// No bytes, with room for so many.
fn with_room(alloc: Global, count: u32) -> Result<Bytes, NoMemory>
    ensures { IfOk result (λ bytes. bytes ≡ []) }
{
    let out = Vec::with_capacity(alloc, count as usize)?;
    Ok(Bytes::from(out))
}

/// The codestream of a picture at a cut. Each code-block is coded as far down as the cut keeps it.
pub fn stream_at(alloc: Global, blocks: &Blocks, cut: u32) -> Result<Bytes, NoMemory>
    requires cut { cut ≤ 720 }
    requires of { (q : List ℤ) × AreCodedBlocks q cut blocks.now }
    ensures stream { IfOk result (λ bytes. (q : List ℤ) → AreCodedBlocks q cut blocks.now
        → bytes ≡ stream blocks.now.shape q cut) }
    // A reader gets from it all that the cut keeps.
    ensures read_back { IfOk result (λ bytes. (q : List ℤ) → AreCodedBlocks q cut blocks.now
        → stream_read bytes
        ≡ Ok (record {
          shape = blocks.now.shape;
          values = kept_coefficients blocks.now.shape cut q;
          cut = Some cut;
          parts = part_lengths blocks.now.shape q cut;
          blocks = all_kept_blocks blocks.now.shape q cut;
        })) }
{
    stream_read_laws();
    let sizes = sizes_at(blocks, cut);
    let mut out = with_room(alloc, sizes.whole)?;
    let header = main_header(alloc, blocks.shape(), sizes.parts, cut)?;
    push_bytes(&mut out, header.as_slice())?;
    push_parts(alloc, blocks, sizes.parts, cut, &mut out)?;
    push_bytes(&mut out, &END)?;
    Ok(out)
}

ghost use Rattle.std.specs.Prelude.{◌≡◌, ◌≤◌, ℤ, List, IfOk, Ok, Some};
ghost use Rattle.codec_terms.specs.Codestream.{part_lengths, stream};
ghost use Rattle.codec_terms.specs.Cut.{least_cut};
ghost use Rattle.codec_terms.specs.Encode.{kept_coefficients};
ghost use Rattle.codec_terms.specs.StreamReading.{stream_read};
ghost use Rattle.stream_laws.specs.Counts.{all_kept_blocks};
ghost use Rattle.block_packets.specs.Coded.{AreCodedBlocks};

use cinema_stream::{SizeBook, higher_cut_laws, stream_at};
use least_cut::search_up;
use mast_base::{Bytes, Limits, NoMemory};
use picture_blocks::Blocks;
use std::alloc::Global;

/// The codestream of a picture at the least cut within the limits, and that cut, from code-blocks that are coded down to
/// their lowest bit-planes: the cuts are tried from 0 upwards.
pub fn assemble(alloc: Global, blocks: &Blocks, limits: Limits) -> Result<(Bytes, u32), NoMemory>
    requires least_frame { 364 ≤ limits.frame }
    requires least_component { 73 ≤ limits.component }
    requires of { (q : List ℤ) × AreCodedBlocks q 0 blocks.now }
    ensures cut { IfOk result (λ made. (q : List ℤ) → AreCodedBlocks q 0 blocks.now
        → made.1 ≡ least_cut limits blocks.now.shape q) }
    ensures stream { IfOk result (λ made. (q : List ℤ) → AreCodedBlocks q 0 blocks.now
        → made.0 ≡ stream blocks.now.shape q made.1) }
    // A reader gets from it all that the cut keeps.
    ensures read_back { IfOk result (λ made. (q : List ℤ) → AreCodedBlocks q 0 blocks.now
        → stream_read made.0
        ≡ Ok (record {
          shape = blocks.now.shape;
          values = kept_coefficients blocks.now.shape made.1 q;
          cut = Some made.1;
          parts = part_lengths blocks.now.shape q made.1;
          blocks = all_kept_blocks blocks.now.shape q made.1;
        })) }
{
    higher_cut_laws();
    let lowest = SizeBook::start(blocks);
    let cut = search_up(blocks, limits, lowest);
    let bytes = stream_at(alloc, blocks, cut)?;
    Ok((bytes, cut))
}

ghost use Rattle.std.specs.Prelude.{◌≡◌, ◌+◌, ◌<◌, ◌≤◌, ◌∷◌, IfOk, IfErr, OnOk, OnErr, Ok, length};
ghost use Rattle.std.specs.Prelude as prelude;
ghost use Rattle.codec_terms.specs.declared.packet.HeadRefusal.TheVariants.{LengthPast};
ghost use Rattle.codec_terms.specs.Reading.{on_ok};
ghost use Rattle.codec_terms.specs.PacketReading as reading;
ghost use Rattle.codec_terms.specs.PacketReading.{no_block, codewords_read, band_codewords_read};
ghost use Rattle.packet_reading.specs.Refused.{IsRefused};

use crate::block_head::BlockHead;
use crate::memory::{copy, push};
use codec_terms::{BandShape, HeadRefusal, PacketBand, PacketBlock};
use mast_base::{Bytes, List};
use std::alloc::Global;

/// A block that isn't included.
pub(crate) fn absent_block(alloc: Global) -> PacketBlock
    ensures { result ≡ no_block }
{
    PacketBlock {
        included: false,
        zero_planes: 0,
        passes: 0,
        codeword: Bytes::new(alloc),
    }
}

// The place behind a codeword.
fn codeword_end(bytes: &[u8], at: usize, size: u32) -> Result<usize, HeadRefusal>
    ensures end { IfOk result (λ end. end ≡ at + size) }
    ensures within { OnOk result (at + size ≤ length bytes.now) }
    ensures past { OnErr result (length bytes.now < at + size) }
    ensures refused { IfErr result (λ refusal. refusal ≡ LengthPast at size) }
{
    match at.checked_add(size as usize) {
        Some(end) if end <= bytes.len() => Ok(end),
        _ => Err(HeadRefusal::LengthPast { at, n: size }),
    }
}

// Takes the codeword of a block, where it is included.
fn read_codeword(
    alloc: Global,
    bytes: &[u8],
    head: BlockHead,
    at: &mut usize,
) -> Result<PacketBlock, HeadRefusal>
    ensures read { IfOk result (λ block. (more : prelude.List reading.BlockHead) →
        codewords_read bytes.now (head ∷ more) at.old
        ≡ on_ok (codewords_read bytes.now more at.new) (λ r. Ok (block ∷ r.0, r.1))) }
    ensures refused { IfErr result (λ refusal. (more : prelude.List reading.BlockHead) →
        IsRefused (codewords_read bytes.now (head ∷ more) at.old) refusal) }
{
    if !head.included {
        return Ok(absent_block(alloc));
    }
    let end = codeword_end(bytes, *at, head.size)?;
    let codeword = copy(alloc, &bytes[*at..end])?;
    *at = end;
    Ok(PacketBlock {
        included: true,
        zero_planes: head.zero_planes,
        passes: head.passes,
        codeword,
    })
}

// Takes the codewords of a sub-band's blocks.
fn read_codewords(
    alloc: Global,
    bytes: &[u8],
    heads: &[BlockHead],
    at: &mut usize,
) -> Result<List<PacketBlock>, HeadRefusal>
    ensures read { IfOk result (λ blocks. codewords_read bytes.now heads.now at.old ≡ Ok (blocks, at.new)) }
    ensures refused { IfErr result (λ refusal. IsRefused (codewords_read bytes.now heads.now at.old) refusal) }
{
    let mut blocks = List::new(alloc);
    for head in heads {
        let block = read_codeword(alloc, bytes, *head, at)?;
        push(&mut blocks, block)?;
    }
    Ok(blocks)
}

/// Takes the codewords of all sub-bands, which stand behind the header; `bands` has the heads of their blocks.
pub(crate) fn read_band_codewords(
    alloc: Global,
    bytes: &[u8],
    shapes: &[BandShape],
    bands: &[List<BlockHead>],
    at: &mut usize,
) -> Result<List<PacketBand>, HeadRefusal>
    ensures read { IfOk result (λ read. band_codewords_read bytes.now shapes.now bands.now at.old ≡ Ok (read, at.new)) }
    ensures refused { IfErr result (λ refusal.
        IsRefused (band_codewords_read bytes.now shapes.now bands.now at.old) refusal) }
{
    let mut read = List::new(alloc);
    for i in 0..shapes.len().min(bands.len()) {
        let blocks = read_codewords(alloc, bytes, bands[i].as_slice(), at)?;
        let band = PacketBand {
            columns: shapes[i].columns,
            rows: shapes[i].rows,
            blocks,
        };
        push(&mut read, band)?;
    }
    Ok(read)
}

ghost use Rattle.std.specs.Prelude.{◌≡◌, ◌<◌, ◌+◌, ◌++◌, ◌∷◌, ℕ, List, true, All, IfOk, OnOk, Ok, length, map};
ghost use Rattle.std.specs.List.{flat_map, list_any};
ghost use Rattle.codec_terms.specs.declared.packet.BandShape.{BandShape};
ghost use Rattle.codec_terms.specs.TagTree.{leaf_told};
ghost use Rattle.codec_terms.specs.PacketHeader.{first_layer, missing_planes, band_bits, block_codeword, band_codewords, has_included, packet};
ghost use Rattle.codec_terms.specs.PacketReading.{packet_read};
ghost use Rattle.packet_laws.specs.ReadBack.{AreInOrder, packet_read_of};
ghost use Rattle.tag_tree.specs.Trees.{leaf_count};
ghost use Rattle.packet_head.specs.Writing.{HasPassCode, IsBand, block_bits, planes_then};

use crate::packing::pack_bits;
use crate::pushing::{push_length, push_passes};
use codec_terms::{PacketBand, PacketBlock};
use mast_base::{Bytes, List, NoMemory};
use std::alloc::Global;
use std::mem;
use tag_tree::TreeWriter;

// Puts the bits of block number `at`, in raster order, behind the bits.
fn push_block(
    out: &mut List<bool>,
    layers: &mut TreeWriter,
    planes: &mut TreeWriter,
    at: u32,
    block: &PacketBlock,
) -> Result<(), NoMemory>
    requires layer { at < leaf_count layers.old }
    requires plane { at < leaf_count planes.old }
    requires passes { HasPassCode block.now }
    ensures bits { OnOk result (out.new ≡ out.old ++ block_bits layers.old planes.old at block.now) }
    ensures layers { OnOk result (layers.new ≡ leaf_told 1 layers.old at) }
    ensures planes { OnOk result (planes.new ≡ planes_then planes.old at block.now) }
    ensures layers_size { leaf_count layers.new ≡ leaf_count layers.old }
    ensures planes_size { leaf_count planes.new ≡ leaf_count planes.old }
{
    layers.leaf(at, 1, out)?;
    if !block.included {
        return Ok(());
    }
    planes.leaf(at, u32::from(block.zero_planes) + 1, out)?;
    push_passes(out, u32::from(block.passes))?;
    push_length(out, u32::from(block.passes), block.codeword.len())
}

// The leaves of the inclusion tree.
fn first_layers(alloc: Global, blocks: &[PacketBlock]) -> Result<Vec<u32>, NoMemory>
    ensures { IfOk result (λ values. values.items ≡ map first_layer blocks.now) }
{
    Ok(
        blocks
            .iter()
            .map(|block| if block.included { 0 } else { 1 })
            .collect(alloc)?,
    )
}

// The leaves of the tree of zero planes.
fn zero_planes(alloc: Global, blocks: &[PacketBlock]) -> Result<Vec<u32>, NoMemory>
    ensures { IfOk result (λ values. values.items ≡ map missing_planes blocks.now) }
{
    Ok(
        blocks
            .iter()
            .map(|block| {
                if block.included {
                    u32::from(block.zero_planes)
                } else {
                    256
                }
            })
            .collect(alloc)?,
    )
}

// Puts the bits of a sub-band's blocks behind the bits.
fn push_band(alloc: Global, out: &mut List<bool>, band: &PacketBand) -> Result<(), NoMemory>
    requires { IsBand band.now }
    ensures { OnOk result (out.new ≡ out.old ++ band_bits band.now) }
{
    let blocks = band.blocks.as_slice();
    let layers = first_layers(alloc, blocks)?;
    let planes = zero_planes(alloc, blocks)?;
    let mut layers = TreeWriter::new(alloc, band.columns, band.rows, &layers)?;
    let mut planes = TreeWriter::new(alloc, band.columns, band.rows, &planes)?;
    for (at, block) in blocks.iter().enumerate() {
        if 0xffff_ffff < at {
            return Err(NoMemory);
        }
        push_block(out, &mut layers, &mut planes, at as u32, block)?;
    }
    Ok(())
}

// Puts the codeword of a block behind the bytes, where it is included.
fn push_codeword(out: &mut Vec<u8>, block: &PacketBlock) -> Result<(), NoMemory>
    ensures { OnOk result (out.new.items ≡ out.old.items ++ block_codeword block.now) }
{
    if !block.included {
        return Ok(());
    }
    out.extend_from_slice(block.codeword.as_slice())?;
    Ok(())
}

// Puts the codewords of a sub-band's blocks behind the bytes.
fn push_codewords(out: &mut Vec<u8>, band: &PacketBand) -> Result<(), NoMemory>
    ensures { OnOk result (out.new.items ≡ out.old.items ++ band_codewords band.now) }
{
    let blocks = band.blocks.as_slice();
    for block in blocks {
        push_codeword(out, block)?;
    }
    Ok(())
}

fn has_included(band: &PacketBand) -> bool
    ensures { result ≡ has_included band.now }
{
    band.blocks.as_slice().iter().any(|block| block.included)
}

// The bits of the header of a packet that isn't empty.
fn header_bits(alloc: Global, bands: &[PacketBand]) -> Result<List<bool>, NoMemory>
    requires { All IsBand bands.now }
    ensures { IfOk result (λ bits. bits ≡ true ∷ flat_map band_bits bands.now) }
{
    let mut bits = List::new(alloc);
    bits.push(true)?;
    for band in bands {
        push_band(alloc, &mut bits, band)?;
    }
    Ok(bits)
}

// Whether a block is included.
fn is_full(bands: &[PacketBand]) -> bool
    ensures { result ≡ list_any has_included bands.now }
{
    bands.iter().any(|band| has_included(band))
}

// Puts the packet behind the bytes.
fn push_packet(alloc: Global, bytes: &mut Vec<u8>, bands: &[PacketBand]) -> Result<(), NoMemory>
    requires { All IsBand bands.now }
    ensures { OnOk result (bytes.new.items ≡ bytes.old.items ++ packet bands.now) }
{
    if !is_full(bands) {
        bytes.push(0)?;
        return Ok(());
    }
    let bits = header_bits(alloc, bands)?;
    let header = pack_bits(alloc, bits.as_slice())?;
    bytes.extend_from_slice(header.as_slice())?;
    for band in bands {
        push_codewords(bytes, band)?;
    }
    Ok(())
}

/// Puts a packet behind what is in `out`: its header and the codewords of the blocks that are included (B.9 and B.10).
/// Each band has as many blocks as columns times rows, and each block that is included 1 to 164 passes. After
/// `NoMemory` a part of the packet may stand there.
pub fn append_packet(alloc: Global, out: &mut Bytes, bands: &[PacketBand]) -> Result<(), NoMemory>
    requires { All IsBand bands.now }
    ensures { OnOk result (out.new ≡ out.old ++ packet bands.now) }
{
    let mut bytes = mem::replace(out, Bytes::new(alloc)).into_vec();
    let done = push_packet(alloc, &mut bytes, bands);
    *out = Bytes::from(bytes);
    done
}

/// A packet of its own, as `append_packet` puts it behind others.
pub fn write_packet(alloc: Global, bands: &[PacketBand]) -> Result<Bytes, NoMemory>
    requires { All IsBand bands.now }
    ensures packet { IfOk result (λ bytes. bytes ≡ packet bands.now) }
    // A reader that expects these sub-bands gives them back, wherever the packet stands.
    ensures read_back { IfOk result (λ bytes. (shapes : List BandShape) (front rest : List ℕ) → AreInOrder shapes bands.now
        → packet_read (front ++ bytes ++ rest) (length front) shapes
        ≡ Ok (packet_read_of bands.now (length front + length bytes))) }
{
    let mut bytes = Bytes::new(alloc);
    append_packet(alloc, &mut bytes, bands)?;
    Ok(bytes)
}

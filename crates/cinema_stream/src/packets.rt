ghost use Rattle.std.specs.Prelude.{◌≡◌, ◌<◌, ◌++◌, OnOk, ℤ, List};
ghost use Rattle.codec_terms.specs.Codestream.{component_packets, part_length, part_lengths, tile_part, components};
ghost use Rattle.std.specs.List.{flat_map};
ghost use Rattle.block_packets.specs.Coded.{AreCodedBlocks};

use block_packets::push_packet;
use code_markers::part_header;
use mast_base::{Bytes, NoMemory};
use packet_places::{packets_of, precinct_at};
use picture_blocks::Blocks;
use std::alloc::Global;

/// Puts bytes behind those that are there.
pub(crate) fn push_bytes(out: &mut Bytes, bytes: &[u8]) -> Result<(), NoMemory>
    ensures { OnOk result (out.new ≡ out.old ++ bytes.now) }
{
    for byte in bytes {
        out.push(*byte)?;
    }
    Ok(())
}

// Puts the packets of a component behind the bytes.
fn push_packets(
    alloc: Global,
    blocks: &Blocks,
    component: u8,
    cut: u32,
    out: &mut Bytes,
) -> Result<(), NoMemory>
    requires component { component < 3 }
    requires coded { (q : List ℤ) × AreCodedBlocks q cut blocks.now }
    ensures { OnOk result ((q : List ℤ) → AreCodedBlocks q cut blocks.now
        → out.new ≡ out.old ++ component_packets blocks.now.shape q cut component) }
{
    let shape = blocks.shape();
    for n in 0..packets_of(shape) {
        let precinct = precinct_at(shape, component, n);
        push_packet(alloc, blocks, precinct, cut, out)?;
    }
    Ok(())
}

// Puts the tile-part of a component, which is this long, behind the bytes.
fn push_part(
    alloc: Global,
    blocks: &Blocks,
    component: u8,
    length: u32,
    cut: u32,
    out: &mut Bytes,
) -> Result<(), NoMemory>
    requires component { component < 3 }
    requires coded { (q : List ℤ) × AreCodedBlocks q cut blocks.now }
    ensures { OnOk result ((q : List ℤ) → AreCodedBlocks q cut blocks.now
        → length ≡ part_length blocks.now.shape q cut component
        → out.new ≡ out.old ++ tile_part blocks.now.shape q cut component) }
{
    push_bytes(out, &part_header(component, length))?;
    push_packets(alloc, blocks, component, cut, out)?;
    Ok(())
}

/// Puts the three tile-parts, which are this long, behind the bytes.
pub(crate) fn push_parts(
    alloc: Global,
    blocks: &Blocks,
    parts: [u32; 3],
    cut: u32,
    out: &mut Bytes,
) -> Result<(), NoMemory>
    requires { (q : List ℤ) × AreCodedBlocks q cut blocks.now }
    ensures { OnOk result ((q : List ℤ) → AreCodedBlocks q cut blocks.now
        → parts ≡ part_lengths blocks.now.shape q cut
        → out.new ≡ out.old ++ flat_map (tile_part blocks.now.shape q cut) components) }
{
    push_part(alloc, blocks, 0, parts[0], cut, out)?;
    push_part(alloc, blocks, 1, parts[1], cut, out)?;
    push_part(alloc, blocks, 2, parts[2], cut, out)?;
    Ok(())
}

//! Sizes of packets: those of the bytes that are written.

ghost use Rattle.std.specs.Prelude.{◌≡◌, ◌*◌, ◌<◌, ◌≤◌, ◌^◌, All, IfOk, length};
ghost use Rattle.packet_head.specs.Writing as writing;
ghost use Rattle.packet_size.specs.Sizes.{HasPassCode};

use codec_terms::{PacketBand, PacketBlock};
use mast_base::{Bytes, List, NoMemory};
use packet_head::write_packet;
use packet_size::{BandSizes, BlockSize, packet_size};
use std::alloc::Global;
use std::process::Abort;
use std::test::Fail;

// The number behind this one in a fixed order that looks like none.
fn behind(seed: u64) -> u64 {
    let a = seed ^ seed << 13;
    let b = a ^ a >> 7;
    b ^ b << 17
}

// A block: most are included, and their lengths grow with the passes.
fn block_of(seed: u64) -> BlockSize
    ensures { HasPassCode result }
{
    let passes = (seed >> 40 & 0xff) as u8;
    BlockSize {
        included: seed >> 8 & 7 != 0,
        zero_planes: (seed >> 16 & 0xff) as u8 >> (seed >> 24 & 7) as u32,
        passes: (passes >> (seed >> 50 & 7) as u32).min(163) + 1,
        len: (seed >> 30 & 0xfff) as u32 >> (seed >> 55 & 15) as u32,
    }
}

// The blocks of a packet's part of a sub-band.
fn sizes_of(alloc: Global, seed: u64, count: usize) -> Result<Vec<BlockSize>, NoMemory>
    ensures count { IfOk result (λ sizes. length sizes.items ≡ count) }
    ensures passes { IfOk result (λ sizes. All HasPassCode sizes.items) }
{
    let mut sizes = Vec::new(alloc);
    let mut seed = seed;
    for _ in 0..count {
        seed = behind(seed);
        sizes.push(block_of(seed))?;
    }
    Ok(sizes)
}

// A block of this size.
fn packet_block(alloc: Global, size: &BlockSize) -> Result<PacketBlock, NoMemory>
    requires { HasPassCode size.now }
    ensures { IfOk result (λ block. writing.HasPassCode block) }
{
    let mut codeword = Bytes::new(alloc);
    for _ in 0..size.len {
        codeword.push(0)?;
    }
    Ok(PacketBlock {
        included: size.included,
        zero_planes: size.zero_planes,
        passes: size.passes,
        codeword,
    })
}

// Blocks of these sizes.
fn packet_blocks(alloc: Global, sizes: &[BlockSize]) -> Result<List<PacketBlock>, NoMemory>
    requires { All HasPassCode sizes.now }
    ensures count { IfOk result (λ blocks. length blocks ≡ length sizes.now) }
    ensures passes { IfOk result (λ blocks. All writing.HasPassCode blocks) }
{
    let mut blocks = List::new(alloc);
    for size in sizes {
        blocks.push(packet_block(alloc, size)?)?;
    }
    Ok(blocks)
}

// The number of bytes of a packet of one sub-band, as it is written.
fn written(alloc: Global, columns: u32, rows: u32, sizes: &[BlockSize]) -> Result<u64, NoMemory>
    requires count { length sizes.now ≡ rows * columns }
    requires passes { All HasPassCode sizes.now }
{
    let band = PacketBand {
        columns,
        rows,
        blocks: packet_blocks(alloc, sizes)?,
    };
    Ok(write_packet(alloc, &[band])?.len() as u64)
}

fn check_random(
    rt: &impl Abort,
    alloc: Global,
    columns: u8,
    rows: u8,
    seed: u64,
) -> Result<(), NoMemory>
    requires columns { columns ≤ 4 }
    requires rows { rows ≤ 4 }
{
    let sizes = sizes_of(alloc, seed, rows as usize * columns as usize)?;
    let band = BandSizes {
        columns: columns as usize,
        rows: rows as usize,
        blocks: &sizes,
    };
    let size = packet_size(&[band]);
    assert!(rt; size == written(alloc, columns as u32, rows as u32, &sizes)?);
    Ok(())
}

// A packet of one block.
fn check_one(
    rt: &impl Abort,
    alloc: Global,
    zero_planes: u8,
    passes: u8,
    len: u32,
    size: u64,
) -> Result<(), NoMemory> {
    let block = BlockSize {
        included: true,
        zero_planes,
        passes: passes.max(1).min(164),
        len,
    };
    let band = BandSizes {
        columns: 1,
        rows: 1,
        blocks: &[block],
    };
    assert!(rt; packet_size(&[band]) == size);
    assert!(rt; written(alloc, 1, 1, &[block])? == size);
    Ok(())
}

#[test]
fn sizes_packets_as_they_are_written(rt: HostRuntime) -> Result<(), Fail> {
    let alloc = rt.alloc();
    let mut seed = 0x9e37_79b9_7f4a_7c15u64;
    for number in 0..400u32 {
        seed = behind(seed);
        check_random(&rt, alloc, (number % 5) as u8, (number / 5 % 5) as u8, seed)?;
    }
    Ok(())
}

#[test]
fn sizes_packets_of_one_block(rt: HostRuntime) -> Result<(), Fail> {
    let alloc = rt.alloc();
    // No block at all.
    assert!(&rt; packet_size(&[]) == 1);
    check_one(&rt, alloc, 11, 1, 1, 4)?;
    check_one(&rt, alloc, 0, 1, 0, 1)?;
    check_one(&rt, alloc, 0, 36, 1, 4)?;
    check_one(&rt, alloc, 0, 164, 1, 5)?;
    check_one(&rt, alloc, 255, 1, 1, 34)?;
    // The header's last byte is FF, and one of zeros comes behind it.
    check_one(&rt, alloc, 0, 1, 2047, 2051)?;
    Ok(())
}

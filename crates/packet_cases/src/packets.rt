//! Packets and their parts: bytes that are known.

ghost use Rattle.std.specs.Prelude.{◌≤◌};

use codec_terms::{PacketBand, PacketBlock};
use mast_base::{Bytes, List, NoMemory};
use packet_head::{pack_bits, pass_bits, write_packet};
use std::alloc::Global;
use std::process::Abort;
use std::test::Fail;

// The bits that are spelled so, `0` and `1`.
fn bits_of(alloc: Global, spelled: &[u8]) -> Result<Vec<bool>, NoMemory> {
    Ok(spelled.iter().map(|bit| *bit == b'1').collect(alloc)?)
}

fn check_passes(
    rt: &impl Abort,
    alloc: Global,
    passes: u32,
    spelled: &[u8],
) -> Result<(), NoMemory> {
    let bits = pass_bits(alloc, passes.max(1).min(164))?;
    assert!(rt; bits.as_slice() == bits_of(alloc, spelled)?.as_slice());
    Ok(())
}

fn check_packed(
    rt: &impl Abort,
    alloc: Global,
    spelled: &[u8],
    bytes: &[u8],
) -> Result<(), NoMemory> {
    let packed = pack_bits(alloc, bits_of(alloc, spelled)?.as_slice())?;
    assert!(rt; packed.as_slice() == bytes);
    Ok(())
}

// A packet of one block.
fn packet_of(alloc: Global, zero_planes: u8, passes: u8, codeword: &[u8]) -> Result<Bytes, NoMemory>
    requires some { 1 ≤ passes }
    requires few { passes ≤ 164 }
{
    let block = PacketBlock {
        included: true,
        zero_planes,
        passes,
        codeword: Bytes::copy_of(alloc, codeword)?,
    };
    let mut blocks = List::new(alloc);
    blocks.push(block)?;
    let band = PacketBand {
        columns: 1,
        rows: 1,
        blocks,
    };
    write_packet(alloc, &[band])
}

fn check_packet(
    rt: &impl Abort,
    alloc: Global,
    zero_planes: u8,
    passes: u8,
    codeword: &[u8],
    packet: &[u8],
) -> Result<(), NoMemory> {
    let bytes = packet_of(alloc, zero_planes, passes.max(1).min(164), codeword)?;
    assert!(rt; bytes.as_slice() == packet);
    Ok(())
}

#[test]
fn spells_numbers_of_passes(rt: HostRuntime) -> Result<(), Fail> {
    let alloc = rt.alloc();
    check_passes(&rt, alloc, 1, b"0")?;
    check_passes(&rt, alloc, 2, b"10")?;
    check_passes(&rt, alloc, 3, b"1100")?;
    check_passes(&rt, alloc, 5, b"1110")?;
    check_passes(&rt, alloc, 6, b"111100000")?;
    check_passes(&rt, alloc, 36, b"111111110")?;
    check_passes(&rt, alloc, 37, b"1111111110000000")?;
    check_passes(&rt, alloc, 100, b"1111111110111111")?;
    check_passes(&rt, alloc, 164, b"1111111111111111")?;
    Ok(())
}

#[test]
fn packs_bits(rt: HostRuntime) -> Result<(), Fail> {
    let alloc = rt.alloc();
    check_packed(&rt, alloc, b"", &[])?;
    check_packed(&rt, alloc, b"0", &[0x00])?;
    check_packed(&rt, alloc, b"1", &[0x80])?;
    check_packed(&rt, alloc, b"10110", &[0xb0])?;
    check_packed(&rt, alloc, b"11111111", &[0xff, 0x00])?;
    check_packed(&rt, alloc, b"111111110", &[0xff, 0x00])?;
    check_packed(&rt, alloc, b"1111111111111111", &[0xff, 0x7f, 0x80])?;
    check_packed(&rt, alloc, b"11111111111111111", &[0xff, 0x7f, 0xc0])?;
    check_packed(&rt, alloc, b"00000000", &[0x00])?;
    check_packed(&rt, alloc, b"000000001", &[0x00, 0x80])?;
    check_packed(&rt, alloc, b"1111111101111111", &[0xff, 0x3f, 0x80])?;
    check_packed(
        &rt,
        alloc,
        b"111111111111111111111111111111",
        &[0xff, 0x7f, 0xff, 0x7f],
    )?;
    Ok(())
}

#[test]
fn writes_packets_of_one_block(rt: HostRuntime) -> Result<(), Fail> {
    let alloc = rt.alloc();
    check_packet(&rt, alloc, 11, 1, &[0xf4], &[0xc0, 0x04, 0x20, 0xf4])?;
    check_packet(&rt, alloc, 0, 1, &[], &[0xe0])?;
    check_packet(&rt, alloc, 0, 2, &[0x01], &[0xf0, 0x40, 0x01])?;
    check_packet(
        &rt,
        alloc,
        0,
        5,
        &[0x00, 0x00, 0x00, 0x00, 0x00, 0x00, 0x00],
        &[0xfc, 0x38, 0x00, 0x00, 0x00, 0x00, 0x00, 0x00, 0x00],
    )?;
    check_packet(
        &rt,
        alloc,
        0,
        6,
        &[0x00, 0x00, 0x00, 0x00, 0x00, 0x00, 0x00, 0x00],
        &[
            0xfe, 0x02, 0x00, 0x00, 0x00, 0x00, 0x00, 0x00, 0x00, 0x00, 0x00,
        ],
    )?;
    check_packet(&rt, alloc, 0, 36, &[0x80], &[0xff, 0x70, 0x04, 0x80])?;
    check_packet(
        &rt,
        alloc,
        0,
        37,
        &[0x7f, 0x01],
        &[0xff, 0x78, 0x00, 0x10, 0x7f, 0x01],
    )?;
    check_packet(&rt, alloc, 0, 164, &[0x02], &[0xff, 0x7f, 0xf0, 0x02, 0x02])?;
    check_packet(
        &rt,
        alloc,
        9,
        16,
        &[
            0x00, 0x01, 0x02, 0x03, 0x04, 0x05, 0x06, 0x07, 0x08, 0x09, 0x0a, 0x0b, 0x0c, 0x0d,
            0x0e, 0x0f, 0x10, 0x11, 0x12, 0x13,
        ],
        &[
            0xc0, 0x1f, 0x50, 0xa0, 0x00, 0x01, 0x02, 0x03, 0x04, 0x05, 0x06, 0x07, 0x08, 0x09,
            0x0a, 0x0b, 0x0c, 0x0d, 0x0e, 0x0f, 0x10, 0x11, 0x12, 0x13,
        ],
    )?;
    check_packet(
        &rt,
        alloc,
        255,
        1,
        &[0x05],
        &[
            0xc0, 0x00, 0x00, 0x00, 0x00, 0x00, 0x00, 0x00, 0x00, 0x00, 0x00, 0x00, 0x00, 0x00,
            0x00, 0x00, 0x00, 0x00, 0x00, 0x00, 0x00, 0x00, 0x00, 0x00, 0x00, 0x00, 0x00, 0x00,
            0x00, 0x00, 0x00, 0x00, 0x42, 0x05,
        ],
    )?;
    check_packet(
        &rt,
        alloc,
        3,
        3,
        &[
            0x00, 0x00, 0x00, 0x00, 0x00, 0x00, 0x00, 0x00, 0x00, 0x00, 0x00, 0x00, 0x00, 0x00,
            0x00, 0x00,
        ],
        &[
            0xc7, 0x28, 0x00, 0x00, 0x00, 0x00, 0x00, 0x00, 0x00, 0x00, 0x00, 0x00, 0x00, 0x00,
            0x00, 0x00, 0x00, 0x00, 0x00,
        ],
    )?;
    check_packet(
        &rt,
        alloc,
        0,
        100,
        &[0x0a, 0x0a, 0x0a],
        &[0xff, 0x7b, 0xf0, 0x0c, 0x0a, 0x0a, 0x0a],
    )?;
    check_packet(&rt, alloc, 1, 40, &[0xff], &[0xdf, 0xf8, 0x30, 0x08, 0xff])?;
    Ok(())
}

#[test]
fn writes_an_empty_packet(rt: HostRuntime) -> Result<(), Fail> {
    let bytes = write_packet(rt.alloc(), &[])?;
    assert!(&rt; bytes.as_slice() == [0].as_slice());
    Ok(())
}

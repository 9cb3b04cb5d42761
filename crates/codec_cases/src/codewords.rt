//! Codewords of the arithmetic coder, and what a reader gives of them.

use mast_base::{Bytes, NoMemory};
use mq_coder::{Coder, Ending, Reader, ending_laws, flushed};
use std::alloc::Global;
use std::process::Abort;
use std::test::Fail;

/// The codeword of these bits, `0` and `1`, in one context.
fn coded(alloc: Global, context: u8, bits: &[u8]) -> Result<Bytes, NoMemory> {
    let mut coder = Coder::new(alloc);
    for bit in bits {
        coder.code(context.min(18), *bit == b'1')?;
    }
    coder.flush()
}

/// Checks a codeword, its length before the flush, its bytes by an ending, and that it gives the bits back.
fn check(
    rt: &impl Abort,
    alloc: Global,
    context: u8,
    bits: &[u8],
    code: &[u8],
) -> Result<(), NoMemory> {
    let bytes = coded(alloc, context, bits)?;
    assert!(rt; bytes.as_slice() == code);
    let mut coder = Coder::new(alloc);
    for bit in bits {
        coder.code(context.min(18), *bit == b'1')?;
    }
    assert!(rt; coder.length_if_flushed() == code.len());
    let mut reader = Reader::new(bytes.as_slice());
    for bit in bits {
        assert!(rt; reader.bit(context.min(18)) == (*bit == b'1'));
    }
    Ok(())
}

#[test]
fn codes_worked_values(rt: HostRuntime) -> Result<(), Fail> {
    let alloc = rt.alloc();
    check(&rt, alloc, 18, b"", &[0xff, 0x7f])?;
    check(&rt, alloc, 18, b"0", &[0x7f])?;
    check(&rt, alloc, 18, b"1", &[0xff, 0x7f])?;
    check(
        &rt,
        alloc,
        18,
        b"01111111010000000000",
        &[0x01, 0x01, 0xff, 0x7f],
    )?;
    Ok(())
}

#[test]
fn stuffs_a_bit_behind_each_ff(rt: HostRuntime) -> Result<(), Fail> {
    let alloc = rt.alloc();
    check(&rt, alloc, 17, b"1101011", &[0x00, 0xff, 0x7f])?;
    check(&rt, alloc, 17, b"11111111111", &[0x00, 0x02, 0xff, 0x7f])?;
    check(
        &rt,
        alloc,
        17,
        b"01111111111001",
        &[0x15, 0x82, 0x00, 0xff, 0x7f],
    )?;
    check(
        &rt,
        alloc,
        17,
        b"0111111011110011111",
        &[0x15, 0x82, 0x0d, 0x09, 0xff, 0x7f],
    )?;
    check(
        &rt,
        alloc,
        17,
        b"001101011110100001010011111",
        &[0x1a, 0xb8, 0x61, 0x9f, 0x06, 0xff, 0x7f],
    )?;
    check(
        &rt,
        alloc,
        17,
        b"011010111101111010111110110101100",
        &[0x15, 0x97, 0x61, 0x78, 0x0d, 0x8d, 0xff, 0x7f],
    )?;
    check(
        &rt,
        alloc,
        18,
        b"1111101000000011000010111101111100011110",
        &[0xff, 0x7f, 0xff, 0x7f, 0xff, 0x7f],
    )?;
    Ok(())
}

#[test]
fn carries_into_the_stuffed_bit(rt: HostRuntime) -> Result<(), Fail> {
    check(
        &rt,
        rt.alloc(),
        17,
        b"010111101110010010100101110011",
        &[0x16, 0x0a, 0x30, 0xff, 0x80, 0xbf],
    )?;
    Ok(())
}

#[test]
fn ends_from_its_registers(rt: HostRuntime) -> Result<(), Fail> {
    let alloc = rt.alloc();
    let coder = Coder::new(alloc);
    let length = coder.length_if_flushed();
    assert!(rt; length < 0x1_0000_0000);
    let ending = coder.ending();
    let first = Ending {
        length: 2,
        a: 0x8000,
        c: 0,
        ct: 12,
        kept: 0,
    };
    assert!(rt; ending == first);
    ending_laws();
    let code = flushed(alloc, coder.bytes(), &ending)?;
    assert!(rt; code.as_slice() == [0xff, 0x7f].as_slice());
    Ok(())
}

/// The next number of a xorshift generator.
fn next(seed: u32) -> u32 {
    let seed = seed ^ seed << 13;
    let seed = seed ^ seed >> 17;
    seed ^ seed << 5
}

/// Codes and reads a list of `len` decisions that the seed draws, with a bit 1 where a byte is below `ones`.
fn reads_back(alloc: Global, seed: u32, len: u32, ones: u32) -> Result<bool, NoMemory> {
    let mut coder = Coder::new(alloc);
    let mut draw = seed;
    for _ in 0..len {
        draw = next(draw);
        coder.code((draw % 19) as u8, draw >> 24 < ones)?;
    }
    let length = coder.length_if_flushed();
    let bytes = coder.flush()?;
    let mut same = bytes.len() == length;
    let mut reader = Reader::new(bytes.as_slice());
    draw = seed;
    for _ in 0..len {
        draw = next(draw);
        same = same && reader.bit((draw % 19) as u8) == (draw >> 24 < ones);
    }
    Ok(same)
}

#[test]
fn reads_ten_thousand_lists_back(rt: HostRuntime) -> Result<(), Fail> {
    let alloc = rt.alloc();
    for list in 0..10_000u32 {
        let seed = next(list + 1);
        assert!(rt; reads_back(alloc, seed, seed % 700, list % 257)?);
    }
    Ok(())
}

//! A main header as bytes and as what it says, read whole, cut short and changed at random.

use code_markers::{main_header, read_main};
use codec_terms::{MainHead, MarkerRefusal, Shape};
use std::alloc::{AllocError, Global};
use std::test::Fail;

/// The main header of a picture of 32 × 32 whose parts have 20 bytes each, at cut 0, and the marker of a
/// tile-part.
#[rattlefmt::skip]
pub(crate) const HEADER: [u8; 145] = [
    0xff, 0x4f,
    0xff, 0x51, 0, 0x2f, 0, 3, 0, 0, 0, 0x20, 0, 0, 0, 0x20, 0, 0, 0, 0, 0, 0, 0, 0,
    0, 0, 0, 0x20, 0, 0, 0, 0x20, 0, 0, 0, 0, 0, 0, 0, 0, 0, 3, 11, 1, 1, 11, 1, 1, 11, 1, 1,
    0xff, 0x52, 0, 0x12, 1, 4, 0, 1, 1, 5, 3, 3, 0, 0, 0x77, 0x88, 0x88, 0x88, 0x88, 0x88,
    0xff, 0x5c, 0, 0x23, 0x22, 0x70, 0, 0x79, 0, 0x79, 0, 0x7a, 0, 0x71, 0, 0x71, 0, 0x72, 0,
    0x69, 0, 0x69, 0, 0x6a, 0, 0x69, 0, 0x69, 0, 0x6a, 0, 0x61, 0, 0x61, 0, 0x62, 0,
    0xff, 0x55, 0, 0x13, 0, 0x50, 0, 0, 0, 0, 0x14, 0, 0, 0, 0, 0x14, 0, 0, 0, 0, 0x14,
    0xff, 0x64, 0, 12, 0, 0, 0x43, 0x55, 0x54, 0x31, 0, 0, 0, 0,
    0xff, 0x90,
];

/// What it says.
#[rattlefmt::skip]
pub(crate) const HEAD: MainHead = MainHead {
    shape: Shape { width: 32, height: 32 },
    mb: [14, 15, 15, 15, 14, 14, 14, 13, 13, 13, 13, 13, 13, 12, 12, 12],
    parts: [20, 20, 20],
    cut: Some(0),
    next: 143,
};

#[test]
fn writes_the_header(rt: HostRuntime) -> Result<(), Fail> {
    let bytes = main_header(rt.alloc(), HEAD.shape, [20, 20, 20], 0)?;
    assert!(rt; HEADER.strip_prefix(bytes.as_slice()) == Some([0xff, 0x90].as_slice()));
    Ok(())
}

/// Sizes of pictures, lengths of parts and cuts.
#[rattlefmt::skip]
const NUMBERS: [(u16, u16, [u32; 3], u32); 4] = [
    (33, 257, [0x0102_0304, 0x0506_0708, 0x090a_0b0c], 0x0d0e_0f10),
    (2048, 1080, [0xffff_ffff, 0, 1], 720),
    (32, 1079, [256, 65_536, 16_777_216], 0xffff_ffff),
    (1998, 32, [14, 14, 14], 447),
];

/// Places of the header of the first of them, and the bytes there.
#[rattlefmt::skip]
const PLACES: [(usize, &'static [u8]); 4] = [
    (4, &[0, 0x2f, 0, 3, 0, 0, 0, 33, 0, 0, 1, 1, 0, 0, 0, 0]),
    (24, &[0, 0, 0, 33, 0, 0, 1, 1, 0, 0, 0, 0]),
    (114, &[0, 1, 2, 3, 4, 0, 5, 6, 7, 8, 0, 9, 10, 11, 12, 0xff, 0x64]),
    (133, &[0, 0, 0x43, 0x55, 0x54, 0x31, 13, 14, 15, 16]),
];

#[test]
fn writes_each_number_in_its_place(rt: HostRuntime) -> Result<(), Fail> {
    let (width, height, parts, cut) = NUMBERS[0];
    let bytes = main_header(rt.alloc(), Shape { width, height }, parts, cut)?;
    for (at, there) in PLACES {
        assert!(rt; starts_with(bytes.as_slice(), at, there), "{at}");
    }
    Ok(())
}

#[test]
fn reads_what_it_writes(rt: HostRuntime) -> Result<(), Fail> {
    for (width, height, parts, cut) in NUMBERS {
        let shape = Shape { width, height };
        let mut bytes = main_header(rt.alloc(), shape, parts, cut)?.into_vec();
        assert!(rt; bytes.len() == 143);
        assert!(rt; read_main(&bytes) == Err(MarkerRefusal::Truncated { at: 143 }));
        bytes.extend_from_slice(&[0xff, 0x90, 7])?;
        let head = MainHead {
            shape,
            parts,
            cut: Some(cut),
            ..HEAD
        };
        assert!(rt; read_main(&bytes) == Ok(head));
    }
    Ok(())
}

#[test]
fn misses_what_is_cut_off(rt: HostRuntime) -> Result<(), Fail> {
    for at in 0..HEADER.len() {
        assert!(rt; read_main(&HEADER[..at]) == Err(MarkerRefusal::Truncated { at }));
    }
    assert!(rt; read_main(&HEADER) == Ok(HEAD));
    Ok(())
}

/// Whether an answer fits the bytes: what stands in front of a refusal's place is refused for being cut
/// off there, and a header that is accepted needs just the two bytes behind it.
fn fits(bytes: &[u8]) -> bool {
    match read_main(bytes) {
        Ok(head) => {
            let end = head.next + 1;
            read_main(&bytes[..end]) == Err(MarkerRefusal::Truncated { at: end })
                && read_main(&bytes[..end + 1]) == Ok(head)
        }
        Err(MarkerRefusal::Truncated { at }) => at == bytes.len(),
        Err(MarkerRefusal::Marker { at, got }) => {
            is_cut_off(bytes, at) && starts_with(bytes, at, &got.to_be_bytes())
        }
        Err(MarkerRefusal::Field { at, .. }) => is_cut_off(bytes, at),
    }
}

fn is_cut_off(bytes: &[u8], at: usize) -> bool {
    match bytes.get(..at) {
        Some(front) => read_main(front) == Err(MarkerRefusal::Truncated { at }),
        None => false,
    }
}

fn starts_with(bytes: &[u8], at: usize, needle: &[u8]) -> bool {
    match bytes.get(at..) {
        Some(rest) => rest.starts_with(needle),
        None => false,
    }
}

/// The next number of a xorshift generator.
fn next(seed: u32) -> u32 {
    let seed = seed ^ seed << 13;
    let seed = seed ^ seed >> 17;
    seed ^ seed << 5
}

#[test]
fn answers_ten_thousand_changes(rt: HostRuntime) -> Result<(), Fail> {
    let mut seed = 1;
    for _ in 0..10_000u32 {
        seed = next(seed);
        let mut bytes = HEADER;
        bytes[(seed % 145) as usize] = (seed >> 24) as u8;
        assert!(rt; fits(&bytes), "{seed}");
    }
    Ok(())
}

/// The first `kept` bytes of the header, and `more` that the seed draws.
fn drawn(alloc: Global, kept: u32, more: u32, seed: u32) -> Result<Vec<u8>, AllocError> {
    let mut bytes = Vec::new(alloc);
    for byte in HEADER.iter().take(kept as usize) {
        bytes.push(*byte)?;
    }
    let mut draw = seed;
    for _ in 0..more {
        draw = next(draw);
        bytes.push((draw >> 24) as u8)?;
    }
    Ok(bytes)
}

#[test]
fn answers_ten_thousand_draws(rt: HostRuntime) -> Result<(), Fail> {
    let mut seed = 2;
    for _ in 0..10_000u32 {
        seed = next(seed);
        let bytes = drawn(rt.alloc(), seed % 146, seed >> 8 & 63, seed)?;
        assert!(rt; fits(&bytes), "{seed}");
    }
    Ok(())
}

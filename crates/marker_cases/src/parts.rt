//! The headers and ends of tile-parts.

use crate::headers::HEAD;
use code_markers::{END, part_header, read_end, read_part_end, read_part_header};
use codec_terms::MarkerRefusal::{Field, Marker, Truncated};
use codec_terms::ReadRefusal::{After, PartLength};
use codec_terms::{MainHead, MarkerRefusal, ReadRefusal};
use std::test::Fail;

const PART: [u8; 14] = [0xff, 0x90, 0, 10, 0, 0, 1, 2, 3, 4, 2, 3, 0xff, 0x93];

/// What the main header says where the third part is this one.
const PART_HEAD: MainHead = MainHead {
    parts: [20, 20, 0x0102_0304],
    ..HEAD
};

#[test]
fn writes_parts(rt: HostRuntime) -> Result<(), Fail> {
    assert!(rt; part_header(2, 0x0102_0304) == PART);
    assert!(rt; END == [0xff, 0xd9]);
    Ok(())
}

/// Another byte at a place of a part's header, and what is told.
#[rattlefmt::skip]
const CHANGES: [(usize, u8, Result<usize, MarkerRefusal>); 16] = [
    (0, 0xff, Ok(14)),
    (0, 0, Ok(14)),
    (2, 1, Err(Field { at: 2, got: 0x10a })),
    (3, 9, Err(Field { at: 2, got: 9 })),
    (4, 1, Err(Field { at: 4, got: 0x100 })),
    (5, 1, Err(Field { at: 4, got: 1 })),
    (6, 0, Err(Field { at: 6, got: 0x20304 })),
    (7, 0, Err(Field { at: 6, got: 0x0100_0304 })),
    (8, 0, Err(Field { at: 6, got: 0x0102_0004 })),
    (9, 0, Err(Field { at: 6, got: 0x0102_0300 })),
    (10, 1, Err(Field { at: 10, got: 1 })),
    (10, 3, Err(Field { at: 10, got: 3 })),
    (11, 0, Err(Field { at: 11, got: 0 })),
    (11, 4, Err(Field { at: 11, got: 4 })),
    (12, 0xfe, Err(Marker { at: 12, got: 0xfe93 })),
    (13, 0xd9, Err(Marker { at: 12, got: 0xffd9 })),
];

#[test]
fn reads_parts(rt: HostRuntime) -> Result<(), Fail> {
    for (at, byte, told) in CHANGES {
        let mut bytes = PART;
        bytes[at % 14] = byte;
        assert!(rt; read_part_header(&bytes, &PART_HEAD, 2, 2) == told, "{at}");
    }
    assert!(rt;
        read_part_header(&PART, &PART_HEAD, 0, 2)
            == Err(Field {
                at: 6,
                got: 0x0102_0304
            })
    );
    assert!(rt; read_part_header(&PART, &PART_HEAD, 1, 14) == Err(Truncated { at: 14 }));
    for at in 2..PART.len() {
        assert!(rt; read_part_header(&PART[..at], &PART_HEAD, 2, 2) == Err(Truncated { at }));
    }
    Ok(())
}

/// Bytes, a component, the length that is stated of a part that began at 1 and whose packets end at 3,
/// and what is told.
#[rattlefmt::skip]
const ENDS: [(&'static [u8], u8, u32, Result<usize, ReadRefusal>); 14] = [
    (&[0, 0, 0, 0xff, 0x90], 0, 2, Ok(3)),
    (&[0, 0, 0, 0xff, 0x90], 1, 2, Ok(3)),
    (&[0, 0, 0, 0xff, 0xd9], 2, 2, Ok(3)),
    (&[0, 0, 0, 0xff, 0xd9, 0], 2, 2, Ok(3)),
    (&[0, 0, 0, 0xff, 0x90], 0, 3, Err(PartLength { part: 0, got: 3 })),
    (&[0, 0, 0, 0xff, 0xd9], 2, 0xffff_ffff, Err(PartLength { part: 2, got: 0xffff_ffff })),
    (&[0, 0, 0, 0xff, 0xd9], 0, 2, Err(ReadRefusal::Marker(Marker { at: 3, got: 0xffd9 }))),
    (&[0, 0, 0, 0xff, 0x90], 2, 2, Err(ReadRefusal::Marker(Marker { at: 3, got: 0xff90 }))),
    (&[0, 0, 0, 0xff, 0xd9], 1, 3, Err(ReadRefusal::Marker(Marker { at: 3, got: 0xffd9 }))),
    (&[0, 0, 0], 0, 2, Err(ReadRefusal::Marker(Truncated { at: 3 }))),
    (&[0, 0, 0], 0, 1, Err(ReadRefusal::Marker(Truncated { at: 3 }))),
    (&[0, 0, 0, 0xff], 1, 2, Err(ReadRefusal::Marker(Truncated { at: 4 }))),
    (&[0, 0, 0, 0xff], 1, 1, Err(PartLength { part: 1, got: 1 })),
    (&[0, 0, 0, 0], 2, 0, Err(PartLength { part: 2, got: 0 })),
];

#[test]
fn reads_ends(rt: HostRuntime) -> Result<(), Fail> {
    for (bytes, component, stated, told) in ENDS {
        let at = bytes.len().min(3);
        assert!(rt;
            read_part_end(bytes, component, stated, at.min(1), at) == told,
            "{component} {stated}"
        );
    }
    assert!(rt; read_end(&END, 0) == Ok(2));
    assert!(rt; read_end(&[0xff, 0xd9, 0], 0) == Err(After { at: 2 }));
    Ok(())
}

//! A header of which some bytes are others, and what is told of it.

use crate::headers::{HEAD, HEADER};
use code_markers::read_main;
use codec_terms::MarkerRefusal::{Field, Marker, Truncated};
use codec_terms::{MainHead, MarkerRefusal};
use std::alloc::{AllocError, Global};
use std::process::Abort;
use std::test::Fail;

/// The header with other bytes from a place on.
fn changed(alloc: Global, at: usize, new: &[u8]) -> Result<Vec<u8>, AllocError> {
    let mut bytes = Vec::new(alloc);
    for byte in HEADER.iter().take(at) {
        bytes.push(*byte)?;
    }
    bytes.extend_from_slice(new)?;
    for byte in HEADER.iter().skip(bytes.len()) {
        bytes.push(*byte)?;
    }
    Ok(bytes)
}

/// A place, the bytes that stand there, and the refusal.
type Row = (usize, &'static [u8], MarkerRefusal);

fn refuses(rt: &impl Abort, alloc: Global, rows: &[Row]) -> Result<(), AllocError> {
    for (at, new, refusal) in rows {
        let bytes = changed(alloc, *at, *new)?;
        assert!(rt; read_main(&bytes) == Err(*refusal), "{at}");
    }
    Ok(())
}

/// Other markers, some of which stand elsewhere, or stood before.
#[rattlefmt::skip]
const MARKERS: [Row; 29] = [
    (0, &[0xfe, 0x4f], Marker { at: 0, got: 0xfe4f }),
    (0, &[0xff, 0x4e], Marker { at: 0, got: 0xff4e }),
    (0, &[0xff, 0x51], Marker { at: 0, got: 0xff51 }),
    (2, &[0xff, 0x52], Marker { at: 2, got: 0xff52 }),
    (2, &[0xfe, 0x51], Marker { at: 2, got: 0xfe51 }),
    (2, &[0xff, 0x50], Marker { at: 2, got: 0xff50 }),
    (51, &[0xff, 0x51], Marker { at: 51, got: 0xff51 }),
    (51, &[0xff, 0x4f], Marker { at: 51, got: 0xff4f }),
    (51, &[0xff, 0x53], Marker { at: 51, got: 0xff53 }),
    (51, &[0xff, 0x90], Marker { at: 51, got: 0xff90 }),
    (51, &[0xff, 0x93], Marker { at: 51, got: 0xff93 }),
    (51, &[0xff, 0xd9], Marker { at: 51, got: 0xffd9 }),
    (51, &[0, 0x52], Marker { at: 51, got: 0x52 }),
    (71, &[0xff, 0x52], Marker { at: 71, got: 0xff52 }),
    (71, &[0xff, 0x5d], Marker { at: 71, got: 0xff5d }),
    (71, &[0xff, 0x90], Marker { at: 71, got: 0xff90 }),
    (108, &[0xff, 0x52], Marker { at: 108, got: 0xff52 }),
    (108, &[0xff, 0x5c], Marker { at: 108, got: 0xff5c }),
    (108, &[0xff, 0x56], Marker { at: 108, got: 0xff56 }),
    (108, &[0xff, 0x90], Marker { at: 108, got: 0xff90 }),
    (129, &[0xff, 0x55], Marker { at: 129, got: 0xff55 }),
    (129, &[0xff, 0x65], Marker { at: 129, got: 0xff65 }),
    (143, &[0xff, 0x52], Marker { at: 143, got: 0xff52 }),
    (143, &[0xff, 0x5c], Marker { at: 143, got: 0xff5c }),
    (143, &[0xff, 0x55], Marker { at: 143, got: 0xff55 }),
    (143, &[0xff, 0x91], Marker { at: 143, got: 0xff91 }),
    (143, &[0xff, 0x93], Marker { at: 143, got: 0xff93 }),
    (143, &[0xff, 0xd9], Marker { at: 143, got: 0xffd9 }),
    (143, &[0, 0], Marker { at: 143, got: 0x0 }),
];

/// Fields of SIZ.
#[rattlefmt::skip]
const SIZE: [Row; 27] = [
    (4, &[0, 0x30], Field { at: 4, got: 0x30 }),
    (4, &[0, 0x2e], Field { at: 4, got: 0x2e }),
    (6, &[0, 2], Field { at: 6, got: 2 }),
    (6, &[0, 0], Field { at: 6, got: 0 }),
    (8, &[0, 0, 0, 0x1f], Field { at: 8, got: 0x1f }),
    (8, &[0, 0, 8, 1], Field { at: 8, got: 0x801 }),
    (8, &[1, 0, 0, 0x20], Field { at: 8, got: 0x1000020 }),
    (12, &[0, 0, 0, 0x1f], Field { at: 12, got: 0x1f }),
    (12, &[0, 0, 4, 0x39], Field { at: 12, got: 0x439 }),
    (16, &[0, 0, 0, 1], Field { at: 16, got: 1 }),
    (20, &[0, 0, 0, 1], Field { at: 20, got: 1 }),
    (24, &[0, 0, 0, 0x21], Field { at: 24, got: 0x21 }),
    (28, &[0, 0, 0, 0x1f], Field { at: 28, got: 0x1f }),
    (32, &[0, 0, 0, 1], Field { at: 32, got: 1 }),
    (36, &[0, 1, 0, 0], Field { at: 36, got: 0x10000 }),
    (40, &[0, 4], Field { at: 40, got: 4 }),
    (42, &[7], Field { at: 42, got: 7 }),
    (43, &[2], Field { at: 43, got: 2 }),
    (44, &[2], Field { at: 44, got: 2 }),
    (45, &[0x8b], Field { at: 45, got: 0x8b }),
    (46, &[0], Field { at: 46, got: 0 }),
    (47, &[2], Field { at: 47, got: 2 }),
    (48, &[0x0c], Field { at: 48, got: 0xc }),
    (49, &[3], Field { at: 49, got: 3 }),
    (50, &[0], Field { at: 50, got: 0 }),
    (8, &[0, 0, 0, 0x21], Field { at: 24, got: 0x20 }),
    (12, &[0, 0, 0, 0x21], Field { at: 28, got: 0x20 }),
];

/// Fields of COD.
#[rattlefmt::skip]
const CODING: [Row; 18] = [
    (53, &[0, 0x13], Field { at: 53, got: 0x13 }),
    (53, &[0, 0x11], Field { at: 53, got: 0x11 }),
    (55, &[0], Field { at: 55, got: 0 }),
    (56, &[2], Field { at: 56, got: 2 }),
    (57, &[0, 2], Field { at: 57, got: 2 }),
    (57, &[1, 0], Field { at: 57, got: 0x100 }),
    (59, &[0], Field { at: 59, got: 0 }),
    (60, &[6], Field { at: 60, got: 6 }),
    (61, &[4], Field { at: 61, got: 4 }),
    (62, &[2], Field { at: 62, got: 2 }),
    (63, &[1], Field { at: 63, got: 1 }),
    (64, &[1], Field { at: 64, got: 1 }),
    (65, &[0x88], Field { at: 65, got: 0x88 }),
    (66, &[0x77], Field { at: 66, got: 0x77 }),
    (67, &[0x87], Field { at: 67, got: 0x87 }),
    (68, &[0x78], Field { at: 68, got: 0x78 }),
    (69, &[8], Field { at: 69, got: 8 }),
    (70, &[0xff], Field { at: 70, got: 0xff }),
];

/// Fields of QCD, TLM and COM.
#[rattlefmt::skip]
const OTHERS: [Row; 23] = [
    (73, &[0, 0x22], Field { at: 73, got: 0x22 }),
    (73, &[0, 0x24], Field { at: 73, got: 0x24 }),
    (75, &[2], Field { at: 75, got: 2 }),
    (75, &[0x20], Field { at: 75, got: 0x20 }),
    (75, &[0x21], Field { at: 75, got: 0x21 }),
    (75, &[0x32], Field { at: 75, got: 0x32 }),
    (75, &[0x42, 0xf8, 0], Field { at: 76, got: 0xf800 }),
    (75, &[0xe2, 0xc8, 0, 0xd7, 0xff], Field { at: 78, got: 0xd7ff }),
    (75, &[0xe2, 0x70, 0, 0x79, 0, 0x79, 0, 0x7a, 0, 0x71, 0, 0x71, 0, 0x72, 0, 0x69, 0, 0x69, 0, 0x6a, 0, 0x69, 0, 0x69, 0, 0x6a, 0, 0x61, 0, 0x61, 0, 0xd0, 1], Field { at: 106, got: 0xd001 }),
    (110, &[0, 0x14], Field { at: 110, got: 0x14 }),
    (110, &[0, 0x12], Field { at: 110, got: 0x12 }),
    (112, &[1], Field { at: 112, got: 1 }),
    (113, &[0x40], Field { at: 113, got: 0x40 }),
    (114, &[1], Field { at: 114, got: 1 }),
    (119, &[2], Field { at: 119, got: 2 }),
    (124, &[3], Field { at: 124, got: 3 }),
    (131, &[0, 4], Field { at: 131, got: 4 }),
    (131, &[0, 0], Field { at: 131, got: 0 }),
    (131, &[0, 0x0e], Truncated { at: 145 }),
    (131, &[0, 0x0f], Truncated { at: 145 }),
    (131, &[0xff, 0xff], Truncated { at: 145 }),
    (131, &[0, 0x0b], Marker { at: 142, got: 0xff }),
    (131, &[0, 5], Marker { at: 136, got: 0x5554 }),
];

#[test]
fn refuses_changes(rt: HostRuntime) -> Result<(), Fail> {
    let alloc = rt.alloc();
    refuses(&rt, alloc, &MARKERS)?;
    refuses(&rt, alloc, &SIZE)?;
    refuses(&rt, alloc, &CODING)?;
    refuses(&rt, alloc, &OTHERS)?;
    Ok(())
}

/// Changes that are accepted, and what the header says then.
#[rattlefmt::skip]
const ACCEPTED: [(usize, &'static [u8], MainHead); 9] = [
    (75, &[0x42, 0xf0, 0], MainHead { mb: [31, 16, 16, 16, 15, 15, 15, 14, 14, 14, 14, 14, 14, 13, 13, 13], ..HEAD }),
    (75, &[0xe2, 0, 0], MainHead { mb: [6, 21, 21, 21, 20, 20, 20, 19, 19, 19, 19, 19, 19, 18, 18, 18], ..HEAD }),
    (76, &[7, 0xff, 0xff, 0xff], MainHead { mb: [0, 31, 15, 15, 14, 14, 14, 13, 13, 13, 13, 13, 13, 12, 12, 12], ..HEAD }),
    (115, &[1, 2, 3, 4, 0, 5, 6, 7, 8, 0, 0xff, 0xfe, 0xfd, 0xfc], MainHead { parts: [0x0102_0304, 0x0506_0708, 0xfffe_fdfc], ..HEAD }),
    (139, &[0, 0, 2, 0xd0], MainHead { cut: Some(720), ..HEAD }),
    (139, &[0xff, 0xff, 0xff, 0xff], MainHead { cut: Some(0xffff_ffff), ..HEAD }),
    (133, &[0, 1], MainHead { cut: None, ..HEAD }),
    (135, &[0x42], MainHead { cut: None, ..HEAD }),
    (138, &[0x32], MainHead { cut: None, ..HEAD }),
];

#[test]
fn accepts_changes(rt: HostRuntime) -> Result<(), Fail> {
    for (at, new, head) in ACCEPTED {
        let bytes = changed(rt.alloc(), at, new)?;
        assert!(rt; read_main(&bytes) == Ok(head), "{at}");
    }
    Ok(())
}

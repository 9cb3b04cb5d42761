//! A package of one frame more than an index segment has.

use crate::runs::{PICTURE, SOUND, expect_digest, make, push_file};
use mast_base::{Bytes, List};
use mast_world::{MemSource, MemVolume};
use std::process::Abort;
use std::test::Fail;

/// Black frames with silence.
const PROJECT: &str =
    "{\"title\":\"Test\",\"kind\":\"test\",\"issued\":\"2024-05-01T12:00:00\",\"namespace\":\"6ba7b810-9dad-11d1-80b4-00c04fd430c8\",\"width\":32,\"height\":32,\"fps\":48,\"rate\":250,\"power\":11,\"channels\":1,\"frames\":5001,\"assets\":[],\"picture\":[],\"sound\":[]}";

/// A file, and what another implementation has of it.
#[derive(Clone, Copy)]
struct Row {
    name: &'static str,
    size: usize,
    /// The place of the footer.
    footer: usize,
    /// The SHA-1 of the head and of the tail.
    head: [u8; 20],
    tail: [u8; 20],
}

const PICTURES: Row = Row {
    name: "pictures",
    size: 1_222_167,
    footer: 1_166_738,
    head: [
        0x4b, 0xda, 0xf5, 0x11, 0x36, 0x1a, 0xfb, 0x62, 0x5e, 0xfd, 0x81, 0x5f, 0xb5, 0x46, 0xb5,
        0xb4, 0xa5, 0x6b, 0x76, 0x9b,
    ],
    tail: [
        0x82, 0xe5, 0xae, 0x30, 0x49, 0x8f, 0xdc, 0x6a, 0x42, 0x6e, 0x81, 0x30, 0xdb, 0x61, 0x01,
        0x4e, 0x11, 0xc6, 0x2a, 0x0e,
    ],
};

const SILENCE: Row = Row {
    name: "silence",
    size: 15_174_957,
    footer: 15_119_528,
    head: [
        0xf9, 0xbd, 0x78, 0x5e, 0x02, 0xc5, 0x56, 0x0d, 0x52, 0x50, 0xba, 0xcf, 0xc5, 0xd9, 0x3c,
        0x94, 0xc9, 0xc4, 0xa4, 0x8a,
    ],
    tail: [
        0x05, 0x32, 0x67, 0x6b, 0xa1, 0x85, 0x44, 0x18, 0x2f, 0x23, 0x52, 0xe9, 0x4e, 0x68, 0x82,
        0x3f, 0xb2, 0xdc, 0xfc, 0x5f,
    ],
};

/// The first frame of an index segment, and how many it has, each in an item of a set.
const FIRST: [u8; 24] = [
    0x3f, 0x0c, 0, 8, 0, 0, 0, 0, 0, 0, 0, 0, 0x3f, 0x0d, 0, 8, 0, 0, 0, 0, 0, 0, 0x13, 0x88,
];

const SECOND: [u8; 24] = [
    0x3f, 0x0c, 0, 8, 0, 0, 0, 0, 0, 0, 0x13, 0x88, 0x3f, 0x0d, 0, 8, 0, 0, 0, 0, 0, 0, 0, 1,
];

fn check_file(rt: &impl Abort, file: &[u8], row: &Row) {
    assert_eq!(rt; file.len(), row.size, "size of {}", row.name);
    expect_digest(rt, row.name, file.get(..16_508).unwrap_or(&[]), &row.head);
    let tail = file.get(row.footer..).unwrap_or(&[]);
    // The segments stand behind the footer's pack of 124 bytes; the first one has 55,117.
    assert!(rt;
        tail.get(176..200)
            .is_some_and(|told| told == FIRST.as_slice())
    );
    assert!(rt;
        tail.get(55_293..55_317)
            .is_some_and(|told| told == SECOND.as_slice())
    );
    expect_digest(rt, row.name, tail, &row.tail);
}

#[test]
fn the_frames_go_on_in_a_second_segment(rt: HostRuntime) -> Result<(), Fail> {
    let alloc = rt.alloc();
    let mut files = List::new(alloc);
    let text = Bytes::copy_of(alloc, PROJECT.as_bytes())?;
    push_file(alloc, &mut files, "p.json", text)?;
    let mut source = MemSource::new(files, List::new(alloc));
    let mut volume = MemVolume::new(alloc, List::new(alloc));
    assert_eq!(rt; make(&rt, alloc, &mut source, &mut volume, 5001), 0);
    check_file(&rt, volume.bytes(PICTURE), &PICTURES);
    check_file(&rt, volume.bytes(SOUND), &SILENCE);
    Ok(())
}

//! Picture files of ready and black frames.

use crate::runs::{PICTURE, expect_digest, make, push_file};
use empty_streams::marked;
use film_inputs::read_plan;
use mast_base::{Bytes, List};
use mast_world::{MemSource, MemVolume};
use picture_track::make_frame;
use std::alloc::{AllocError, Global};
use std::test::Fail;

/// What stands in front of a project's number of channels.
const FRONT: &str =
    "{\"title\":\"Test\",\"kind\":\"test\",\"issued\":\"2024-05-01T12:00:00\",\"namespace\":\"6ba7b810-9dad-11d1-80b4-00c04fd430c8\",\"width\":64,\"height\":48,\"fps\":24,\"rate\":250,\"power\":11,\"channels\":";

/// The first frame shows the first codestream of a folder, the next two both show the second, and those behind are
/// black.
const LISTS: &str =
    ",\"assets\":[{\"id\":\"a\",\"kind\":\"j2c\",\"file\":\"s\"}],\"picture\":[{\"asset\":\"a\",\"at\":0,\"from\":0,\"count\":1},{\"asset\":\"a\",\"at\":1,\"from\":1,\"count\":2,\"hold\":2}],\"sound\":[]}";

/// A folder of a project of so many channels of sound and frames, and two codestreams.
fn folder(alloc: Global, channels: u8, frames: u32) -> Result<MemSource, AllocError> {
    let mut text = String::from_str(alloc, FRONT)?;
    text.push_str(format!(in alloc; "{channels},\"frames\":{frames}")?.as_str())?;
    text.push_str(LISTS)?;
    let text = Bytes::from(text.into_bytes());
    let mut files = List::new(alloc);
    push_file(alloc, &mut files, "p.json", text)?;
    push_file(alloc, &mut files, "s/000000.j2c", marked(alloc, b'a')?)?;
    push_file(alloc, &mut files, "s/000001.j2c", marked(alloc, b'b')?)?;
    Ok(MemSource::new(files, List::new(alloc)))
}

/// The key of a picture item, and a length of 205.
const KEY: [u8; 20] = [
    0x06, 0x0e, 0x2b, 0x34, 0x01, 0x02, 0x01, 0x01, 0x0d, 0x01, 0x03, 0x01, 0x15, 0x01, 0x08, 0x01,
    0x83, 0, 0, 205,
];

/// The items of the codestreams with these letters.
fn items(alloc: Global, letters: &[u8]) -> Result<Vec<u8>, AllocError> {
    let mut items = Vec::new(alloc);
    for letter in letters {
        items.extend_from_slice(&KEY)?;
        items.extend_from_slice(marked(alloc, *letter)?.as_slice())?;
    }
    Ok(items)
}

/// The whole file of three frames, as another implementation has it.
const READY: [u8; 20] = [
    0x4b, 0x7a, 0xab, 0xcf, 0x04, 0x30, 0x76, 0x01, 0x9f, 0x4e, 0x80, 0xa5, 0x9b, 0xa7, 0xc1, 0x3f,
    0x10, 0xe4, 0x7e, 0xf1,
];

#[test]
fn a_repeated_frame_is_read_once(rt: HostRuntime) -> Result<(), Fail> {
    let alloc = rt.alloc();
    let mut source = folder(alloc, 0, 3)?;
    let mut volume = MemVolume::new(alloc, List::new(alloc));
    assert_eq!(rt; make(&rt, alloc, &mut source, &mut volume, 3), 410);
    let picture = volume.bytes(PICTURE);
    let wanted = items(alloc, &[b'a', b'b', b'b'])?;
    // Each item has 225 bytes; the head in front of them is written twice.
    assert_eq!(rt;
        picture.get(16_508..17_183).unwrap_or(&[]),
        wanted.as_slice()
    );
    assert_eq!(rt; picture.len(), 17_517);
    assert_eq!(rt; volume.put(PICTURE), 34_025);
    expect_digest(&rt, "ready frames", picture, &READY);
    Ok(())
}

#[test]
fn black_is_encoded_behind_them(rt: HostRuntime) -> Result<(), Fail> {
    let alloc = rt.alloc();
    let mut source = folder(alloc, 0, 5)?;
    let mut volume = MemVolume::new(alloc, List::new(alloc));
    assert_eq!(rt; make(&rt, alloc, &mut source, &mut volume, 5), 410);
    let items = volume.bytes(PICTURE).get(17_183..).unwrap_or(&[]);
    // A black frame's item has 232 bytes. The tail has 356.
    assert_eq!(rt; items.len(), 820);
    let first = items.get(..232).unwrap_or(&[]);
    assert!(rt; first.starts_with(&KEY[..16]));
    assert!(rt; items.get(232..464).is_some_and(|second| second == first));
    Ok(())
}

/// A frame by itself is made also where the project has sound.
#[test]
fn a_frame_is_made_by_itself(rt: HostRuntime) -> Result<(), Fail> {
    let alloc = rt.alloc();
    let mut source = folder(alloc, 2, 3)?;
    let plan = read_plan(alloc, &mut source, b"p.json").expect(&rt, "there is a plan");
    assert_eq!(rt; plan.project.frames, 3);
    let frame = make_frame(alloc, &plan, 2, &mut source).expect(&rt, "the frame is made");
    assert_eq!(rt; frame.as_slice(), marked(alloc, b'b')?.as_slice());
    Ok(())
}

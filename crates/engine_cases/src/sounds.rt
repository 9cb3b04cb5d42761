//! Sound files of projects whose sound is of files in memory.

use crate::runs::{SOUND, expect_digest, make, push_file};
use mast_base::{Bytes, List};
use mast_world::{MemFile, MemSource, MemVolume};
use std::alloc::{AllocError, Global};
use std::process::Abort;
use std::test::Fail;

/// All frames are black.
const FRONT: &str =
    "{\"title\":\"Test\",\"kind\":\"test\",\"issued\":\"2024-05-01T12:00:00\",\"namespace\":\"6ba7b810-9dad-11d1-80b4-00c04fd430c8\",\"width\":32,\"height\":32,\"rate\":250,\"power\":11,\"picture\":[],";

const ASSETS: &str =
    "\"assets\":[{\"id\":\"top\",\"kind\":\"pcm24\",\"file\":\"top.pcm\",\"channels\":1},{\"id\":\"low\",\"kind\":\"pcm24\",\"file\":\"low.pcm\",\"channels\":1},{\"id\":\"minus\",\"kind\":\"pcm24\",\"file\":\"minus.pcm\",\"channels\":1},{\"id\":\"steps\",\"kind\":\"pcm24\",\"file\":\"steps.pcm\",\"channels\":1},{\"id\":\"wide\",\"kind\":\"pcm24\",\"file\":\"wide.pcm\",\"channels\":16}],";

const OVERLAP: &str =
    "{\"asset\":\"steps\",\"at\":0,\"from\":0,\"count\":4,\"gains\":[[0,0,65536]]},{\"asset\":\"steps\",\"at\":1,\"from\":2,\"count\":2,\"gains\":[[0,0,65536]]}";

const ALL_CHANNELS: &str =
    "{\"asset\":\"wide\",\"at\":0,\"from\":0,\"count\":1,\"gains\":[[0,0,65536],[1,1,65536],[2,2,65536],[3,3,65536],[4,4,65536],[5,5,65536],[6,6,65536],[7,7,65536],[8,8,65536],[9,9,65536],[10,10,65536],[11,11,65536],[12,12,65536],[13,13,65536],[14,14,65536],[15,15,65536]]}";

/// A sample of 16 channels.
const WIDE: [u8; 48] = [
    0, 0x20, 0x40, 1, 0x21, 0x41, 2, 0x22, 0x42, 3, 0x23, 0x43, 4, 0x24, 0x44, 5, 0x25, 0x45, 6,
    0x26, 0x46, 7, 0x27, 0x47, 8, 0x28, 0x48, 9, 0x29, 0x49, 0x0a, 0x2a, 0x4a, 0x0b, 0x2b, 0x4b,
    0x0c, 0x2c, 0x4c, 0x0d, 0x2d, 0x4d, 0x0e, 0x2e, 0x4e, 0x0f, 0x2f, 0x4f,
];

/// A project and its sound file.
#[derive(Clone, Copy)]
struct Row {
    fps: u8,
    channels: u8,
    frames: u32,
    sound: &'static str,
    /// How many samples a frame has.
    samples: usize,
    /// The bytes of the length of an item's value.
    length: [u8; 3],
    /// What each sample of a frame is, frame by frame.
    want: &'static [&'static [u8]],
    /// How many bytes of input are read.
    taken: u64,
    /// How many bytes are put: those of the file, and its head once more.
    put: u64,
    /// The SHA-1 of the file, as another implementation has it.
    digest: [u8; 20],
}

fn text_of(alloc: Global, row: &Row) -> Result<Bytes, AllocError> {
    let (fps, channels, frames, sound) = (row.fps, row.channels, row.frames, row.sound);
    let mut text = String::from_str(alloc, FRONT)?;
    text.push_str(ASSETS)?;
    let rest = format!(in alloc; "\"fps\":{fps},\"channels\":{channels},\"frames\":{frames},")?;
    text.push_str(rest.as_str())?;
    text.push_str(format!(in alloc; "\"sound\":[{sound}]")?.as_str())?;
    text.push_str("}")?;
    Ok(Bytes::from(text.into_bytes()))
}

fn push_samples(bytes: &mut Vec<u8>, sample: &[u8], count: usize) -> Result<(), AllocError> {
    for _ in 0..count {
        bytes.extend_from_slice(sample)?;
    }
    Ok(())
}

/// Puts a file of frames into a folder. Each frame has so many samples that are the same.
fn push_sound(
    alloc: Global,
    files: &mut List<MemFile>,
    name: &str,
    frames: &[&[u8]],
    samples: usize,
) -> Result<(), AllocError> {
    let mut bytes = Vec::new(alloc);
    for sample in frames {
        push_samples(&mut bytes, *sample, samples)?;
    }
    push_file(alloc, files, name, Bytes::from(bytes))
}

const STEPS: [&[u8]; 4] = [&[1, 0, 0], &[2, 0, 0], &[3, 0, 0], &[4, 0, 0]];

fn folder(alloc: Global, row: &Row) -> Result<MemSource, AllocError> {
    let mut files = List::new(alloc);
    push_file(alloc, &mut files, "p.json", text_of(alloc, row)?)?;
    push_sound(
        alloc,
        &mut files,
        "top.pcm",
        &[&[255, 255, 127]],
        row.samples,
    )?;
    push_sound(alloc, &mut files, "low.pcm", &[&[0, 0, 128]], row.samples)?;
    push_sound(
        alloc,
        &mut files,
        "minus.pcm",
        &[&[255, 255, 255]],
        row.samples,
    )?;
    push_sound(alloc, &mut files, "steps.pcm", &STEPS, row.samples)?;
    push_sound(alloc, &mut files, "wide.pcm", &[&WIDE], row.samples)?;
    Ok(MemSource::new(files, List::new(alloc)))
}

/// The key of a sound item, and the byte in front of a length.
const KEY: [u8; 17] = [
    0x06, 0x0e, 0x2b, 0x34, 0x01, 0x02, 0x01, 0x01, 0x0d, 0x01, 0x03, 0x01, 0x16, 0x01, 0x01, 0x01,
    0x83,
];

fn items(alloc: Global, row: &Row) -> Result<Vec<u8>, AllocError> {
    let mut items = Vec::new(alloc);
    for sample in row.want {
        items.extend_from_slice(&KEY)?;
        items.extend_from_slice(&row.length)?;
        push_samples(&mut items, *sample, row.samples)?;
    }
    Ok(items)
}

fn check_row(rt: &impl Abort, alloc: Global, row: &Row) -> Result<(), AllocError> {
    let mut source = folder(alloc, row)?;
    let mut volume = MemVolume::new(alloc, List::new(alloc));
    let taken = make(rt, alloc, &mut source, &mut volume, row.frames);
    assert_eq!(rt; taken, row.taken, "read for {}", row.sound);
    assert_eq!(rt; volume.put(SOUND), row.put, "put for {}", row.sound);
    let file = volume.bytes(SOUND);
    let wanted = items(alloc, row)?;
    let items = file.get(16_508..).unwrap_or(&[]);
    assert!(rt;
        items.starts_with(wanted.as_slice()),
        "items of {}",
        row.sound
    );
    expect_digest(rt, row.sound, file, &row.digest);
    Ok(())
}

const ROWS: [Row; 7] = [
    // Sums beyond the greatest and the least sample.
    Row {
        fps: 24,
        channels: 1,
        frames: 1,
        sound: "{\"asset\":\"top\",\"at\":0,\"from\":0,\"count\":1,\"gains\":[[0,0,65536]]},{\"asset\":\"top\",\"at\":0,\"from\":0,\"count\":1,\"gains\":[[0,0,65536]]}",
        samples: 2000,
        length: [0, 0x17, 0x70],
        want: &[&[0xff, 0xff, 0x7f]],
        taken: 12_000,
        put: 39_348,
        digest: [
            0x13, 0x29, 0x5f, 0x89, 0xc8, 0x40, 0x07, 0xa8, 0xaf, 0x0a, 0xab, 0x28, 0xf5, 0xac,
            0x9f, 0x9f, 0x82, 0xd0, 0xa3, 0x07,
        ],
    },
    Row {
        fps: 24,
        channels: 1,
        frames: 1,
        sound: "{\"asset\":\"low\",\"at\":0,\"from\":0,\"count\":1,\"gains\":[[0,0,65536]]},{\"asset\":\"low\",\"at\":0,\"from\":0,\"count\":1,\"gains\":[[0,0,65536]]}",
        samples: 2000,
        length: [0, 0x17, 0x70],
        want: &[&[0, 0, 0x80]],
        taken: 12_000,
        put: 39_348,
        digest: [
            0xb7, 0xfa, 0xc5, 0x85, 0x34, 0x2a, 0xff, 0xc5, 0xfc, 0x38, 0xf4, 0xcf, 0x70, 0x11,
            0xd0, 0xc1, 0x38, 0x9b, 0xcc, 0x50,
        ],
    },
    // Half of -1 is rounded down.
    Row {
        fps: 25,
        channels: 1,
        frames: 1,
        sound: "{\"asset\":\"minus\",\"at\":0,\"from\":0,\"count\":1,\"gains\":[[0,0,32768]]}",
        samples: 1920,
        length: [0, 0x16, 0x80],
        want: &[&[0xff, 0xff, 0xff]],
        taken: 5760,
        put: 39_108,
        digest: [
            0x38, 0xb3, 0xb7, 0x8e, 0xb2, 0xbe, 0xda, 0x53, 0x10, 0xb8, 0x84, 0x82, 0xc0, 0x2d,
            0xdb, 0xab, 0xf7, 0xcd, 0x49, 0x1a,
        ],
    },
    // A clip begins before and ends behind another.
    Row {
        fps: 48,
        channels: 1,
        frames: 4,
        sound: OVERLAP,
        samples: 1000,
        length: [0, 0x0b, 0xb8],
        want: &[&[1, 0, 0], &[5, 0, 0], &[7, 0, 0], &[4, 0, 0]],
        taken: 18_000,
        put: 45_441,
        digest: [
            0x65, 0x2a, 0xb6, 0x2d, 0xee, 0xf0, 0x4d, 0xf4, 0xca, 0x6a, 0xd7, 0xd4, 0x2e, 0x96,
            0x6b, 0xc1, 0xbb, 0x75, 0x2d, 0x44,
        ],
    },
    // Each channel to its own.
    Row {
        fps: 48,
        channels: 16,
        frames: 1,
        sound: ALL_CHANNELS,
        samples: 1000,
        length: [0, 0xbb, 0x80],
        want: &[&WIDE],
        taken: 48_000,
        put: 81_348,
        digest: [
            0x29, 0x8b, 0x3e, 0x39, 0x4f, 0x2b, 0xb3, 0xdf, 0x96, 0x33, 0xca, 0x6e, 0x4d, 0x07,
            0x42, 0xfd, 0x65, 0xab, 0x69, 0x2a,
        ],
    },
    // Half of one channel of many: the lowest byte is the first one, and half a step is dropped.
    Row {
        fps: 48,
        channels: 1,
        frames: 1,
        sound: "{\"asset\":\"wide\",\"at\":0,\"from\":0,\"count\":1,\"gains\":[[15,0,32768]]}",
        samples: 1000,
        length: [0, 0x0b, 0xb8],
        want: &[&[0x87, 0x97, 0x27]],
        taken: 48_000,
        put: 36_348,
        digest: [
            0xfd, 0x53, 0x89, 0x17, 0x86, 0xf6, 0xae, 0x43, 0x73, 0x44, 0xf2, 0xe9, 0x10, 0xd4,
            0xd4, 0xbe, 0x54, 0x10, 0xbb, 0x98,
        ],
    },
    // No clip.
    Row {
        fps: 30,
        channels: 2,
        frames: 2,
        sound: "",
        samples: 1600,
        length: [0, 0x25, 0x80],
        want: &[&[0, 0, 0, 0, 0, 0], &[0, 0, 0, 0, 0, 0]],
        taken: 0,
        put: 52_579,
        digest: [
            0xc0, 0x5a, 0xdc, 0xa9, 0x14, 0xfa, 0x44, 0xb0, 0x1d, 0x65, 0xf6, 0xbc, 0x07, 0xe2,
            0x12, 0x91, 0x12, 0x0a, 0x5b, 0x1a,
        ],
    },
];

#[test]
fn the_sound_file_has_the_mixed_clips(rt: HostRuntime) -> Result<(), Fail> {
    for row in &ROWS {
        check_row(&rt, rt.alloc(), row)?;
    }
    Ok(())
}

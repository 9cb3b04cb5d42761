//! Projects and the folders that have their inputs.

use empty_streams::marked;
use mast_base::{Bytes, List};
use mast_world::MemFile;
use std::alloc::{AllocError, Global};

/// The numbers of a project.
#[derive(Clone, Copy)]
pub struct Head {
    pub width: u16,
    pub height: u16,
    pub fps: u8,
    pub rate: u16,
    pub channels: u8,
    pub frames: u32,
}

pub const BASE: Head = Head {
    width: 64,
    height: 48,
    fps: 24,
    rate: 250,
    channels: 0,
    frames: 24,
};

/// All frames from one file.
const RGB: &str =
    "\"assets\":[{\"id\":\"a\",\"kind\":\"rgb48\",\"file\":\"a.rgb\"}],\"picture\":[{\"asset\":\"a\",\"at\":0,\"from\":0,\"count\":24}],\"sound\":[]";

/// A feature of two hours with six channels of sound.
const FEATURE: Head = Head {
    width: 1998,
    height: 1080,
    channels: 6,
    frames: 172_800,
    ..BASE
};

const FILM: &str =
    "\"assets\":[{\"id\":\"film\",\"kind\":\"rgb48\",\"file\":\"film.rgb\"},{\"id\":\"mix\",\"kind\":\"pcm24\",\"file\":\"mix.pcm\",\"channels\":6}],\"picture\":[{\"asset\":\"film\",\"at\":0,\"from\":0,\"count\":172800}],\"sound\":[{\"asset\":\"mix\",\"at\":0,\"from\":0,\"count\":172800,\"gains\":[[0,0,65536]]}]";

/// At the least rate, so that a frame has at most 26,041 bytes.
pub const LEAST: Head = Head {
    fps: 48,
    rate: 10,
    frames: 5,
    ..BASE
};

/// A clip over the end of another, which holds its first frame twice.
pub const OVERLAP: &str =
    "\"assets\":[{\"id\":\"a\",\"kind\":\"j2c\",\"file\":\"s\"},{\"id\":\"b\",\"kind\":\"j2c\",\"file\":\"t\"}],\"picture\":[{\"asset\":\"a\",\"at\":0,\"from\":0,\"count\":4},{\"asset\":\"b\",\"at\":2,\"from\":5,\"count\":3,\"hold\":2}],\"sound\":[]";

/// The same with two channels of sound.
pub const STEREO: Head = Head {
    channels: 2,
    ..LEAST
};

/// The same clips, and in the second and third frame a clip of sound: whole in the first channel, half in the second.
pub const SOUNDED: &str =
    "\"assets\":[{\"id\":\"a\",\"kind\":\"j2c\",\"file\":\"s\"},{\"id\":\"b\",\"kind\":\"j2c\",\"file\":\"t\"},{\"id\":\"m\",\"kind\":\"pcm24\",\"file\":\"m.pcm\",\"channels\":1}],\"picture\":[{\"asset\":\"a\",\"at\":0,\"from\":0,\"count\":4},{\"asset\":\"b\",\"at\":2,\"from\":5,\"count\":3,\"hold\":2}],\"sound\":[{\"asset\":\"m\",\"at\":1,\"from\":0,\"count\":2,\"gains\":[[0,0,65536],[0,1,32768]]}]";

/// Ready frames that hide a clip of a single file, and a clip of sound.
const HIDDEN: &str =
    "\"assets\":[{\"id\":\"a\",\"kind\":\"rgb48\",\"file\":\"a.rgb\"},{\"id\":\"b\",\"kind\":\"j2c\",\"file\":\"s\"},{\"id\":\"c\",\"kind\":\"pcm24\",\"file\":\"c.pcm\",\"channels\":1}],\"picture\":[{\"asset\":\"a\",\"at\":0,\"from\":0,\"count\":2},{\"asset\":\"b\",\"at\":0,\"from\":0,\"count\":2}],\"sound\":[{\"asset\":\"c\",\"at\":0,\"from\":0,\"count\":2,\"gains\":[]}]";

/// What stands in front of a project's numbers.
const FRONT: &str =
    "{\"title\":\"Test\",\"kind\":\"test\",\"issued\":\"2024-05-01T12:00:00\",\"namespace\":\"6ba7b810-9dad-11d1-80b4-00c04fd430c8\",\"power\":11,";

fn push_number(
    alloc: Global,
    text: &mut String,
    name: &str,
    number: u32,
) -> Result<(), AllocError> {
    let member = format!(in alloc; "\"{name}\":{number},")?;
    text.push_str(member.as_str())
}

pub fn text_of(alloc: Global, head: Head, lists: &str) -> Result<String, AllocError> {
    let mut text = String::from_str(alloc, FRONT)?;
    push_number(alloc, &mut text, "width", u32::from(head.width))?;
    push_number(alloc, &mut text, "height", u32::from(head.height))?;
    push_number(alloc, &mut text, "fps", u32::from(head.fps))?;
    push_number(alloc, &mut text, "rate", u32::from(head.rate))?;
    push_number(alloc, &mut text, "channels", u32::from(head.channels))?;
    push_number(alloc, &mut text, "frames", head.frames)?;
    text.push_str(lists)?;
    text.push_str("}")?;
    Ok(text)
}

fn push_file(
    alloc: Global,
    files: &mut List<MemFile>,
    name: &str,
    size: u64,
    fill: u8,
) -> Result<(), AllocError> {
    files.push(MemFile {
        name: Bytes::copy_of(alloc, name.as_bytes())?,
        size,
        fill,
        bytes: List::new(alloc),
    })?;
    Ok(())
}

/// A codestream with this letter in its comment.
fn push_stream(
    alloc: Global,
    files: &mut List<MemFile>,
    name: &str,
    size: u64,
    letter: u8,
) -> Result<(), AllocError> {
    files.push(MemFile {
        name: Bytes::copy_of(alloc, name.as_bytes())?,
        size,
        fill: 0,
        bytes: marked(alloc, letter)?,
    })?;
    Ok(())
}

/// The project file alone.
fn project(alloc: Global, head: Head, lists: &str) -> Result<List<MemFile>, AllocError> {
    let text = text_of(alloc, head, lists)?;
    let mut files = List::new(alloc);
    files.push(MemFile {
        name: Bytes::copy_of(alloc, b"p.json")?,
        size: text.len() as u64,
        fill: 0,
        bytes: Bytes::from(text.into_bytes()),
    })?;
    Ok(files)
}

/// What a source has: a project file, and the files that it names.
#[derive(Clone, Copy)]
pub enum Given {
    /// All frames from one file, which has this size.
    Rgb(u64),
    /// The same without that file.
    NoRgb(Head),
    /// The feature, with sound of this size.
    Feature(u64),
    /// The clips that overlap and their frames, of which the last one has this size.
    Overlap(Head, u64),
    /// The same with the first frame alone.
    FirstFrame(Head),
    /// The same without frames.
    NoFrames(Head),
    /// The clips that overlap with sound, whose file has this size; one of size 0 isn't there.
    Sounded(u64),
    /// The hidden clips' files of these sizes; one of size 0 isn't there.
    Hidden { film: u64, sound: u64 },
}

fn rgb(alloc: Global, size: u64) -> Result<List<MemFile>, AllocError> {
    let mut files = project(alloc, BASE, RGB)?;
    push_file(alloc, &mut files, "a.rgb", size, 0)?;
    Ok(files)
}

fn feature(alloc: Global, sound: u64) -> Result<List<MemFile>, AllocError> {
    let mut files = project(alloc, FEATURE, FILM)?;
    push_file(alloc, &mut files, "film.rgb", 2_237_248_512_000, 7)?;
    push_file(alloc, &mut files, "mix.pcm", sound, 0)?;
    Ok(files)
}

fn first_frame(alloc: Global, head: Head) -> Result<List<MemFile>, AllocError> {
    let mut files = project(alloc, head, OVERLAP)?;
    push_stream(alloc, &mut files, "s/000000.j2c", 205, b'a')?;
    Ok(files)
}

/// The frames of the clips that overlap, of which the last one has this size.
fn push_frames(alloc: Global, files: &mut List<MemFile>, last: u64) -> Result<(), AllocError> {
    push_stream(alloc, files, "s/000000.j2c", 205, b'a')?;
    push_stream(alloc, files, "s/000001.j2c", 205, b'b')?;
    push_stream(alloc, files, "t/000005.j2c", 205, b'c')?;
    push_stream(alloc, files, "t/000006.j2c", last, b'd')
}

fn overlap(alloc: Global, head: Head, last: u64) -> Result<List<MemFile>, AllocError> {
    let mut files = project(alloc, head, OVERLAP)?;
    push_frames(alloc, &mut files, last)?;
    Ok(files)
}

fn sounded(alloc: Global, sound: u64) -> Result<List<MemFile>, AllocError> {
    let mut files = project(alloc, STEREO, SOUNDED)?;
    push_frames(alloc, &mut files, 205)?;
    if sound > 0 {
        push_file(alloc, &mut files, "m.pcm", sound, 2)?;
    }
    Ok(files)
}

fn hidden(alloc: Global, film: u64, sound: u64) -> Result<List<MemFile>, AllocError> {
    let mut files = project(alloc, Head { frames: 2, ..BASE }, HIDDEN)?;
    push_stream(alloc, &mut files, "s/000000.j2c", 205, b'a')?;
    push_stream(alloc, &mut files, "s/000001.j2c", 205, b'b')?;
    if film > 0 {
        push_file(alloc, &mut files, "a.rgb", film, 1)?;
    }
    if sound > 0 {
        push_file(alloc, &mut files, "c.pcm", sound, 1)?;
    }
    Ok(files)
}

pub fn files_of(alloc: Global, given: Given) -> Result<List<MemFile>, AllocError> {
    match given {
        Given::Rgb(size) => rgb(alloc, size),
        Given::NoRgb(head) => project(alloc, head, RGB),
        Given::Feature(sound) => feature(alloc, sound),
        Given::Overlap(head, last) => overlap(alloc, head, last),
        Given::FirstFrame(head) => first_frame(alloc, head),
        Given::NoFrames(head) => project(alloc, head, OVERLAP),
        Given::Sounded(sound) => sounded(alloc, sound),
        Given::Hidden { film, sound } => hidden(alloc, film, sound),
    }
}

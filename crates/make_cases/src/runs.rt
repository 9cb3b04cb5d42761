//! Runs of the commands over devices in memory, and what they leave.

use crate::inputs::{Given, files_of};
use dcp_commands::{run, run_make};
use empty_streams::marked;
use mast_base::List;
use mast_world::{FileId, MemSink, MemSource, MemVolume};
use sha1::Sha1;
use std::alloc::{AllocError, Global};
use std::process::Abort;

pub const PICTURE: FileId = FileId::Picture(1);

pub const SOUND: FileId = FileId::Sound(1);

fn only(alloc: Global, call: u64) -> Result<List<u64>, AllocError> {
    let mut calls = List::new(alloc);
    calls.push(call)?;
    Ok(calls)
}

pub fn words_of(alloc: Global, words: &[&str]) -> Result<Vec<String>, AllocError> {
    let mut all = Vec::new(alloc);
    for word in words {
        all.push(String::from_str(alloc, word)?)?;
    }
    Ok(all)
}

/// What a run of `make` left. The call of source, volume and sink with this number fails; none has
/// the number 0.
#[derive(Drop)]
pub struct Ran {
    pub exit: u8,
    pub printed: MemSink,
    pub source: MemSource,
    pub volume: MemVolume,
}

pub fn make_run(
    alloc: Global,
    words: &[&str],
    given: Given,
    failing: [u64; 3],
) -> Result<Ran, AllocError> {
    let [in_source, in_volume, in_sink] = failing;
    let words = words_of(alloc, words)?;
    let mut source = MemSource::new(files_of(alloc, given)?, only(alloc, in_source)?);
    let mut volume = MemVolume::new(alloc, only(alloc, in_volume)?);
    let mut printed = MemSink::new(alloc, only(alloc, in_sink)?);
    let exit = run_make(alloc, &words, &mut source, &mut volume, &mut printed).exit_code();
    Ok(Ran {
        exit,
        printed,
        source,
        volume,
    })
}

pub const MAKE: [&str; 3] = ["make", "p.json", "out"];

pub fn expect_end(rt: &impl Abort, sink: &MemSink, printed: &str, exit: u8, wanted: u8) {
    assert_eq!(rt; sink.written(), printed.as_bytes());
    assert_eq!(rt; exit, wanted);
}

/// How `make` ends before the picture file is whole: what it prints, its exit status, and the length of what it
/// leaves of that file. There is no sound file then.
pub fn expect_make(
    rt: &impl Abort,
    alloc: Global,
    words: &[&str],
    given: Given,
    printed: &str,
    exit: u8,
    picture: usize,
) -> Result<(), AllocError> {
    let ran = make_run(alloc, words, given, [0, 0, 0])?;
    expect_end(rt, &ran.printed, printed, ran.exit, exit);
    assert_eq!(rt; ran.volume.bytes(PICTURE).len(), picture);
    assert_eq!(rt; ran.volume.put(PICTURE), picture as u64);
    assert_eq!(rt; ran.volume.put(SOUND), 0);
    Ok(())
}

/// How a command without an output folder ends: what it prints and its exit status.
pub fn expect_run(
    rt: &impl Abort,
    alloc: Global,
    words: &[&str],
    given: Given,
    printed: &str,
    exit: u8,
) -> Result<(), AllocError> {
    let words = words_of(alloc, words)?;
    let mut source = MemSource::new(files_of(alloc, given)?, List::new(alloc));
    let mut out = MemSink::new(alloc, List::new(alloc));
    let ended = run(alloc, &words, &mut source, &mut out).exit_code();
    expect_end(rt, &out, printed, ended, exit);
    Ok(())
}

/// The key of a picture item.
const KEY: [u8; 16] = [
    0x06, 0x0e, 0x2b, 0x34, 0x01, 0x02, 0x01, 0x01, 0x0d, 0x01, 0x03, 0x01, 0x15, 0x01, 0x08, 0x01,
];

/// The item of the codestream with this letter.
fn push_item(alloc: Global, picture: &mut Vec<u8>, letter: u8) -> Result<(), AllocError> {
    picture.extend_from_slice(&KEY)?;
    picture.extend_from_slice(&[0x83, 0, 0, 205])?;
    picture.extend_from_slice(marked(alloc, letter)?.as_slice())
}

pub fn items_of_overlap(alloc: Global) -> Result<Vec<u8>, AllocError> {
    let mut items = Vec::new(alloc);
    for letter in [b'a', b'b', b'c', b'c', b'd'] {
        push_item(alloc, &mut items, letter)?;
    }
    Ok(items)
}

/// Checks that a track file has these items behind its head, which has 16,508 bytes.
pub fn expect_items(rt: &impl Abort, file: &[u8], items: &[u8]) {
    let rest = file.get(16_508..).unwrap_or(&[]);
    assert!(rt; rest.starts_with(items), "other items");
}

/// Checks the SHA-1 of a file.
pub fn expect_digest(rt: &impl Abort, file: &[u8], wanted: &[u8; 20]) {
    assert!(rt; Sha1::digest(file) == *wanted, "another digest");
}

/// The picture file of the clips that overlap, as another implementation has it; it is the same beside sound.
pub const OVERLAP_DIGEST: [u8; 20] = [
    0x7c, 0x1d, 0x96, 0x15, 0x1f, 0xf3, 0xb9, 0x7d, 0x68, 0x73, 0xfd, 0xd6, 0x2e, 0x9b, 0x31, 0x68,
    0x05, 0xd3, 0x41, 0xb0,
];

pub fn expect_fault(
    rt: &impl Abort,
    alloc: Global,
    given: Given,
    failing: [u64; 3],
    printed: &str,
    exit: u8,
) -> Result<(), AllocError> {
    let ran = make_run(alloc, &MAKE, given, failing)?;
    expect_end(rt, &ran.printed, printed, ran.exit, exit);
    Ok(())
}

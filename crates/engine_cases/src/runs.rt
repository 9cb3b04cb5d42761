//! Runs of the engine over devices in memory.

use film_inputs::read_plan;
use make_engine::{Options, Report, make_alone};
use mast_base::{Bytes, List};
use mast_world::{FileId, MemFile, MemSource, MemVolume};
use sha1::Sha1;
use std::alloc::{AllocError, Global};
use std::process::Abort;

pub const PICTURE: FileId = FileId::Picture(1);

pub const SOUND: FileId = FileId::Sound(1);

const ALONE: Options = Options {
    workers: 1,
    held: 1,
    fresh: false,
};

/// Puts a file of these bytes into a folder.
pub fn push_file(
    alloc: Global,
    files: &mut List<MemFile>,
    name: &str,
    bytes: Bytes,
) -> Result<(), AllocError> {
    files.push(MemFile {
        name: Bytes::copy_of(alloc, name.as_bytes())?,
        size: bytes.len() as u64,
        fill: 0,
        bytes,
    })?;
    Ok(())
}

/// Makes the package of the project `p.json` of a folder, which has so many frames, and answers how many bytes of
/// input were read for it.
pub fn make(
    rt: &impl Abort,
    alloc: Global,
    source: &mut MemSource,
    volume: &mut MemVolume,
    frames: u32,
) -> u64 {
    let Ok(plan) = read_plan(alloc, source, b"p.json") else {
        panic!(rt; "there is no plan");
    };
    let before = source.taken();
    let made = make_alone(alloc, &plan, &ALONE, source, volume);
    assert!(rt; made.is_ok_and(|report| report == Report { frames, kept: 0 }));
    source.taken().wrapping_sub(before)
}

/// Checks the SHA-1 of some bytes.
pub fn expect_digest(rt: &impl Abort, what: &str, bytes: &[u8], wanted: &[u8; 20]) {
    assert!(rt; Sha1::digest(bytes) == *wanted, "another digest of {what}");
}

//! Runs of `make` on a project with sound.

use crate::inputs::{Given, SOUNDED, STEREO, text_of};
use crate::runs::{
    MAKE, OVERLAP_DIGEST, PICTURE, SOUND, expect_digest, expect_end, expect_fault, expect_items,
    expect_make, items_of_overlap, make_run,
};
use mast_world::FileId;
use std::test::Fail;

/// The files of the output folder that `make` doesn't write.
const OTHERS: [FileId; 9] = [
    FileId::Picture(2),
    FileId::Sound(2),
    FileId::Cpl,
    FileId::Pkl,
    FileId::AssetMap,
    FileId::VolIndex,
    FileId::Job,
    FileId::Info,
    FileId::Spill,
];

/// The sound file of a run, as another implementation has it.
const SOUNDED_DIGEST: [u8; 20] = [
    0xeb, 0xdd, 0xc6, 0x1d, 0xf0, 0x98, 0x20, 0xdd, 0x43, 0x86, 0x01, 0x0a, 0x32, 0x27, 0xe5, 0x69,
    0x27, 0x44, 0xcd, 0x8d,
];

#[test]
fn sound_is_made_beside_the_frames(rt: HostRuntime) -> Result<(), Fail> {
    let alloc = rt.alloc();
    let ran = make_run(alloc, &MAKE, Given::Sounded(6000), [0, 0, 0])?;
    expect_end(&rt, &ran.printed, "done: 5 frames, 0 kept\n", ran.exit, 0);
    let picture = ran.volume.bytes(PICTURE);
    expect_items(&rt, picture, items_of_overlap(alloc)?.as_slice());
    expect_digest(&rt, picture, &OVERLAP_DIGEST);
    let sound = ran.volume.bytes(SOUND);
    // An item has 6,020 bytes. The first frame is silent, and then each sample is 02 02 02 and 01 01 01.
    let first = sound.get(16_525..16_534).unwrap_or(&[]);
    assert_eq!(rt; first, [0, 0x17, 0x70, 0, 0, 0, 0, 0, 0].as_slice());
    let second = sound.get(22_545..22_554).unwrap_or(&[]);
    assert_eq!(rt; second, [0, 0x17, 0x70, 2, 2, 2, 1, 1, 1].as_slice());
    expect_digest(&rt, sound, &SOUNDED_DIGEST);
    // The file has 46,964 bytes, and its head is written twice.
    assert_eq!(rt; ran.volume.put(SOUND), 63_472);
    let text = text_of(alloc, STEREO, SOUNDED)?.len() as u64;
    assert_eq!(rt; ran.source.taken(), text + 6820);
    Ok(())
}

/// Nothing is written where the file of sound isn't there as it should be.
#[test]
fn sound_is_looked_for_first(rt: HostRuntime) -> Result<(), Fail> {
    let alloc = rt.alloc();
    let missing = "input missing: m.pcm\n";
    expect_make(&rt, alloc, &MAKE, Given::Sounded(0), missing, 4, 0)?;
    let short = "input short: m has 5999 needs 6000\n";
    expect_make(&rt, alloc, &MAKE, Given::Sounded(5999), short, 5, 0)?;
    Ok(())
}

/// As without sound, but for the find of its file, two reads of it, and all calls for a second track.
#[test]
fn a_fault_beside_sound_is_a_devices(rt: HostRuntime) -> Result<(), Fail> {
    let alloc = rt.alloc();
    let given = Given::Sounded(6000);
    for call in 1..14u64 {
        expect_fault(&rt, alloc, given, [call, 0, 0], "source fault\n", 7)?;
    }
    for call in 1..21u64 {
        expect_fault(&rt, alloc, given, [0, call, 0], "store fault\n", 8)?;
    }
    expect_fault(&rt, alloc, given, [0, 0, 1], "", 9)?;
    let done = "done: 5 frames, 0 kept\n";
    expect_fault(&rt, alloc, given, [14, 21, 2], done, 0)?;
    Ok(())
}

/// Where a read of sound fails, the picture file is whole, and the sound file has the head and the items so far.
#[test]
fn a_fault_of_sound_leaves_the_picture(rt: HostRuntime) -> Result<(), Fail> {
    let alloc = rt.alloc();
    for (call, size) in [(12, 22_528), (13, 28_548)] {
        let ran = make_run(alloc, &MAKE, Given::Sounded(6000), [call, 0, 0])?;
        expect_end(&rt, &ran.printed, "source fault\n", ran.exit, 7);
        expect_digest(&rt, ran.volume.bytes(PICTURE), &OVERLAP_DIGEST);
        assert_eq!(rt; ran.volume.bytes(SOUND).len(), size);
        assert!(rt; OTHERS.iter().all(|file| ran.volume.put(*file) == 0));
    }
    Ok(())
}

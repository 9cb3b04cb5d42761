//! Runs of `make` on projects without sound, and of `plan`.

use crate::inputs::{BASE, Given, Head, LEAST, OVERLAP, text_of};
use crate::runs::{
    MAKE, OVERLAP_DIGEST, PICTURE, SOUND, expect_digest, expect_end, expect_fault, expect_items,
    expect_make, expect_run, items_of_overlap, make_run, words_of,
};
use dcp_commands::out_name;
use std::alloc::{AllocError, Global};
use std::process::Abort;
use std::test::Fail;

#[test]
fn frames_are_copied_in_order(rt: HostRuntime) -> Result<(), Fail> {
    let alloc = rt.alloc();
    let ran = make_run(alloc, &MAKE, Given::Overlap(LEAST, 205), [0, 0, 0])?;
    expect_end(&rt, &ran.printed, "done: 5 frames, 0 kept\n", ran.exit, 0);
    let picture = ran.volume.bytes(PICTURE);
    expect_items(&rt, picture, items_of_overlap(alloc)?.as_slice());
    expect_digest(&rt, picture, &OVERLAP_DIGEST);
    // The head is written twice.
    assert_eq!(rt; picture.len(), 17_989);
    assert_eq!(rt; ran.volume.put(PICTURE), 34_497);
    assert_eq!(rt; ran.volume.put(SOUND), 0);
    // The frame that is held is read once.
    let text = text_of(alloc, LEAST, OVERLAP)?.len() as u64;
    assert_eq!(rt; ran.source.taken(), text + 820);
    Ok(())
}

const USAGE: &str = "usage: dcp make|plan|frame|read|trial\n";

#[test]
fn make_names_what_is_wrong(rt: HostRuntime) -> Result<(), Fail> {
    let alloc = rt.alloc();
    let none = Given::Rgb(0);
    expect_make(&rt, alloc, &["make", "p.json"], none, USAGE, 2, 0)?;
    let workers = ["make", "p.json", "out", "--workers", "17"];
    expect_make(&rt, alloc, &workers, none, USAGE, 2, 0)?;
    let other = ["make", "q.json", "out"];
    expect_make(&rt, alloc, &other, none, "input missing: q.json\n", 4, 0)?;
    Ok(())
}

#[test]
fn make_names_the_input_that_is_wrong(rt: HostRuntime) -> Result<(), Fail> {
    let alloc = rt.alloc();
    let narrow = Given::NoRgb(Head { width: 31, ..BASE });
    let refused = "project refused: P6 width 31\n";
    expect_make(&rt, alloc, &MAKE, narrow, refused, 3, 0)?;
    let none = Given::NoRgb(BASE);
    expect_make(&rt, alloc, &MAKE, none, "input missing: a.rgb\n", 4, 0)?;
    let short = "input short: a has 442367 needs 442368\n";
    expect_make(&rt, alloc, &MAKE, Given::Rgb(442_367), short, 5, 0)?;
    let first = Given::FirstFrame(LEAST);
    let missing = "input missing: s/000001.j2c\n";
    expect_make(&rt, alloc, &MAKE, first, missing, 4, 16_733)?;
    let long = Given::Overlap(LEAST, 26_042);
    let bad = "bad frame: 4 limit 0 26042\n";
    expect_make(&rt, alloc, &MAKE, long, bad, 12, 17_408)?;
    let longest = Given::Overlap(LEAST, 26_041);
    let bad = "bad frame: 4 stream S2 205\n";
    expect_make(&rt, alloc, &MAKE, longest, bad, 12, 17_408)?;
    Ok(())
}

/// A picture file of raw pictures of bytes 0, which are encoded as black frames are.
fn black_pictures(rt: &impl Abort, alloc: Global) -> Result<Vec<u8>, AllocError> {
    let ran = make_run(alloc, &MAKE, Given::Rgb(442_368), [0, 0, 0])?;
    expect_end(rt, &ran.printed, "done: 24 frames, 0 kept\n", ran.exit, 0);
    ran.volume.bytes(PICTURE).to_vec(alloc)
}

/// Each of them is encoded to the same, and so is a frame that no clip covers.
#[test]
fn raw_pictures_and_black_are_encoded(rt: HostRuntime) -> Result<(), Fail> {
    let alloc = rt.alloc();
    let picture = black_pictures(&rt, alloc)?;
    // An item has 232 bytes. The tail has 565.
    assert_eq!(rt; picture.len(), 22_641);
    let item = picture.get(16_508..16_740).unwrap_or(&[]);
    let mut wanted = items_of_overlap(alloc)?;
    wanted.extend_from_slice(item)?;
    let black = Given::Overlap(Head { frames: 6, ..LEAST }, 205);
    let ran = make_run(alloc, &MAKE, black, [0, 0, 0])?;
    expect_end(&rt, &ran.printed, "done: 6 frames, 0 kept\n", ran.exit, 0);
    expect_items(&rt, ran.volume.bytes(PICTURE), wanted.as_slice());
    Ok(())
}

/// Single files are looked for also where later clips hide them, and where no sound is made.
#[test]
fn hidden_inputs_are_wanted(rt: HostRuntime) -> Result<(), Fail> {
    let alloc = rt.alloc();
    let (film, sound) = (0, 12_000);
    let no_film = Given::Hidden { film, sound };
    expect_make(&rt, alloc, &MAKE, no_film, "input missing: a.rgb\n", 4, 0)?;
    let (film, sound) = (36_864, 0);
    let no_sound = Given::Hidden { film, sound };
    expect_make(&rt, alloc, &MAKE, no_sound, "input missing: c.pcm\n", 4, 0)?;
    let (film, sound) = (36_864, 11_999);
    let short = Given::Hidden { film, sound };
    let told = "input short: c has 11999 needs 12000\n";
    expect_make(&rt, alloc, &MAKE, short, told, 5, 0)?;
    Ok(())
}

const PLAN: [&str; 2] = ["plan", "p.json"];

#[test]
fn plan_shows_a_run_before_it_starts(rt: HostRuntime) -> Result<(), Fail> {
    let alloc = rt.alloc();
    let lines =
        "frames 172800\nsize 1998x1080\nfps 24\nlimit 1302083\ncomponent 1041666\nfresh 172800\nblack 0\n";
    expect_run(&rt, alloc, &PLAN, Given::Feature(6_220_800_000), lines, 0)?;
    let lines = "frames 6\nsize 64x48\nfps 48\nlimit 26041\ncomponent 20833\nfresh 5\nblack 1\n";
    let black = Given::NoFrames(Head { frames: 6, ..LEAST });
    expect_run(&rt, alloc, &PLAN, black, lines, 0)?;
    Ok(())
}

#[test]
fn plan_names_what_is_wrong(rt: HostRuntime) -> Result<(), Fail> {
    let alloc = rt.alloc();
    let short = "input short: mix has 6220799999 needs 6220800000\n";
    expect_run(&rt, alloc, &PLAN, Given::Feature(6_220_799_999), short, 5)?;
    let narrow = Given::NoRgb(Head { width: 31, ..BASE });
    let refused = "project refused: P6 width 31\n";
    expect_run(&rt, alloc, &PLAN, narrow, refused, 3)?;
    let none = Given::NoRgb(BASE);
    expect_run(&rt, alloc, &PLAN, none, "input missing: a.rgb\n", 4)?;
    expect_run(&rt, alloc, &["plan"], none, USAGE, 2)?;
    expect_run(&rt, alloc, &["frame", "p.json"], none, USAGE, 2)?;
    Ok(())
}

/// Source, volume and sink fail at each of their calls in turn, and not behind the last one. The volume is called for
/// the cut, the head, each of five items, the tail, the head again and the sync.
#[test]
fn a_fault_is_a_devices(rt: HostRuntime) -> Result<(), Fail> {
    let alloc = rt.alloc();
    let given = Given::Overlap(LEAST, 205);
    for call in 1..11u64 {
        expect_fault(&rt, alloc, given, [call, 0, 0], "source fault\n", 7)?;
        expect_fault(&rt, alloc, given, [0, call, 0], "store fault\n", 8)?;
    }
    expect_fault(&rt, alloc, given, [0, 0, 1], "", 9)?;
    let done = "done: 5 frames, 0 kept\n";
    expect_fault(&rt, alloc, given, [11, 11, 2], done, 0)?;
    Ok(())
}

#[test]
fn names_the_output_folder(rt: HostRuntime) -> Result<(), Fail> {
    let alloc = rt.alloc();
    let name = out_name(alloc, &words_of(alloc, &MAKE)?)?;
    assert!(rt; name.is_some_and(|name| name.as_slice() == b"out".as_slice()));
    assert!(rt; out_name(alloc, &words_of(alloc, &["make", "p.json", "-o"])?)?.is_none());
    Ok(())
}

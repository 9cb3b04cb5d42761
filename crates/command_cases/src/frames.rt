//! Runs of `frame` over devices in memory.

use dcp_commands::run;
use empty_streams::{STREAM, marked};
use mast_base::{Bytes, List};
use mast_world::{MemFile, MemSink, MemSource};
use std::alloc::{AllocError, Global};
use std::process::Abort;
use std::test::Fail;

const USAGE: &str = "usage: dcp make|plan|frame|read|trial\n";

/// What stands in front of a project's number of channels.
const FRONT: &str =
    "{\"title\":\"Test\",\"kind\":\"test\",\"issued\":\"2024-05-01T12:00:00\",\"namespace\":\"6ba7b810-9dad-11d1-80b4-00c04fd430c8\",\"width\":64,\"height\":48,\"fps\":24,\"rate\":250,\"power\":11,\"frames\":24,\"channels\":";

/// Frames 0 to 6 are codestreams that lie ready, of which the second is shown twice, frames 7 to 9 are PPM pictures,
/// and the others black.
const FILM: &str =
    ",\"assets\":[{\"id\":\"a\",\"kind\":\"j2c\",\"file\":\"s\"},{\"id\":\"b\",\"kind\":\"ppm\",\"file\":\"p\"}],\"picture\":[{\"asset\":\"a\",\"at\":0,\"from\":0,\"count\":1},{\"asset\":\"a\",\"at\":1,\"from\":1,\"count\":2,\"hold\":2},{\"asset\":\"a\",\"at\":3,\"from\":2,\"count\":4},{\"asset\":\"b\",\"at\":7,\"from\":0,\"count\":3}],\"sound\":[]}";

/// All frames from one file, which isn't there.
const SINGLE: &str =
    ",\"assets\":[{\"id\":\"a\",\"kind\":\"rgb48\",\"file\":\"a.rgb\"}],\"picture\":[{\"asset\":\"a\",\"at\":0,\"from\":0,\"count\":24}],\"sound\":[]}";

/// A project file of this name.
fn push_project(
    alloc: Global,
    files: &mut List<MemFile>,
    name: &str,
    channels: &str,
    lists: &str,
) -> Result<(), AllocError> {
    let mut text = String::from_str(alloc, FRONT)?;
    text.push_str(channels)?;
    text.push_str(lists)?;
    push_file(alloc, files, name, Bytes::from(text.into_bytes()))
}

fn push_file(
    alloc: Global,
    files: &mut List<MemFile>,
    name: &str,
    bytes: Bytes,
) -> Result<(), AllocError> {
    let size = bytes.len() as u64;
    push_sized(alloc, files, name, size, bytes)
}

/// A file of this size; behind its bytes all are 0.
fn push_sized(
    alloc: Global,
    files: &mut List<MemFile>,
    name: &str,
    size: u64,
    bytes: Bytes,
) -> Result<(), AllocError> {
    files.push(MemFile {
        name: Bytes::copy_of(alloc, name.as_bytes())?,
        size,
        fill: 0,
        bytes,
    })?;
    Ok(())
}

/// Good codestreams, and then one that ends early, one of another size, and one that is too long.
fn push_streams(alloc: Global, files: &mut List<MemFile>) -> Result<(), AllocError> {
    push_file(alloc, files, "s/000000.j2c", marked(alloc, b'a')?)?;
    push_file(alloc, files, "s/000001.j2c", marked(alloc, b'b')?)?;
    let early = Bytes::copy_of(alloc, &STREAM[..204])?;
    push_file(alloc, files, "s/000003.j2c", early)?;
    let other = Bytes::copy_of(alloc, &STREAM)?;
    push_file(alloc, files, "s/000004.j2c", other)?;
    let long = marked(alloc, b'c')?;
    push_sized(alloc, files, "s/000005.j2c", 1_302_084, long)
}

/// A picture with a wrong header, and one that is a byte short.
fn push_pictures(alloc: Global, files: &mut List<MemFile>) -> Result<(), AllocError> {
    let wrong = Bytes::copy_of(alloc, b"P6\n64 47\n65535\n")?;
    push_file(alloc, files, "p/000000.ppm", wrong)?;
    let short = Bytes::copy_of(alloc, b"P6\n64 48\n65535\n")?;
    push_sized(alloc, files, "p/000001.ppm", 18_446, short)
}

/// A source with three projects, whose call with this number fails; none has the number 0.
fn source_of(alloc: Global, failing: u64) -> Result<MemSource, AllocError> {
    let mut files = List::new(alloc);
    push_project(alloc, &mut files, "p.json", "0", FILM)?;
    push_project(alloc, &mut files, "sound.json", "2", FILM)?;
    push_project(alloc, &mut files, "single.json", "0", SINGLE)?;
    push_streams(alloc, &mut files)?;
    push_pictures(alloc, &mut files)?;
    let mut calls = List::new(alloc);
    calls.push(failing)?;
    Ok(MemSource::new(files, calls))
}

fn words_of(alloc: Global, words: &[&str]) -> Result<Vec<String>, AllocError> {
    let mut all = Vec::new(alloc);
    for word in words {
        all.push(String::from_str(alloc, word)?)?;
    }
    Ok(all)
}

/// How a command ends, over devices whose calls with these numbers fail: what it prints, and its exit status.
fn expect_run(
    rt: &impl Abort,
    alloc: Global,
    words: &[&str],
    failing: [u64; 2],
    printed: &[u8],
    exit: u8,
) -> Result<(), AllocError> {
    let [in_source, in_sink] = failing;
    let words = words_of(alloc, words)?;
    let mut source = source_of(alloc, in_source)?;
    let mut calls = List::new(alloc);
    calls.push(in_sink)?;
    let mut out = MemSink::new(alloc, calls);
    let ended = run(alloc, &words, &mut source, &mut out).exit_code();
    assert_eq!(rt; out.written(), printed);
    assert_eq!(rt; ended, exit);
    Ok(())
}

#[test]
fn frame_wants_a_project_and_a_number(rt: HostRuntime) -> Result<(), Fail> {
    let alloc = rt.alloc();
    let words: [&[&str]; 14] = [
        &["frame"],
        &["frame", "p.json"],
        &["frame", "p.json", "0", "0"],
        &["frame", "", "0"],
        &["frame", "-p.json", "0"],
        &["frames", "p.json", "0"],
        &["plan", "p.json", "0"],
        &["frame", "p.json", ""],
        &["frame", "p.json", "+1"],
        &["frame", "p.json", "-1"],
        &["frame", "p.json", "1 "],
        &["frame", "p.json", "0x1"],
        &["frame", "p.json", "0000000000"],
        // Digits, but none of ASCII.
        &["frame", "p.json", "\u{661}"],
    ];
    for words in &words {
        expect_run(&rt, alloc, *words, [0, 0], USAGE.as_bytes(), 2)?;
    }
    Ok(())
}

/// The words behind `frame`, and how it ends.
type Row = (&'static str, &'static str, &'static str, u8);

#[rattlefmt::skip]
const ROWS: [Row; 15] = [
    ("p.json", "24", "no such frame: 24 of 24\n", 13),
    ("p.json", "000000024", "no such frame: 24 of 24\n", 13),
    ("p.json", "999999999", "no such frame: 999999999 of 24\n", 13),
    ("sound.json", "24", "no such frame: 24 of 24\n", 13),
    ("p.json", "3", "input missing: s/000002.j2c\n", 4),
    ("p.json", "4", "bad frame: 4 stream M1 204\n", 12),
    ("p.json", "5", "bad frame: 5 size 32 32\n", 12),
    ("p.json", "6", "bad frame: 6 limit 0 1302084\n", 12),
    ("p.json", "7", "bad frame: 7 header 6\n", 12),
    ("p.json", "8", "bad frame: 8 short 18446 18447\n", 12),
    ("p.json", "9", "input missing: p/000002.ppm\n", 4),
    ("sound.json", "4", "bad frame: 4 stream M1 204\n", 12),
    // The project comes before its frames.
    ("q.json", "24", "input missing: q.json\n", 4),
    ("single.json", "24", "input missing: a.rgb\n", 4),
    ("s/000000.j2c", "0", "project refused: P1\n", 3),
];

#[test]
fn frame_names_what_is_wrong(rt: HostRuntime) -> Result<(), Fail> {
    let alloc = rt.alloc();
    for (project, number, printed, exit) in &ROWS {
        let words = ["frame", *project, *number];
        expect_run(&rt, alloc, &words, [0, 0], printed.as_bytes(), *exit)?;
    }
    Ok(())
}

/// The codestream as it lies ready, and no line feed behind it; also of a project with sound.
#[test]
fn frame_prints_a_codestream_exactly(rt: HostRuntime) -> Result<(), Fail> {
    let alloc = rt.alloc();
    let rows = [
        ("p.json", "0", b'a'),
        ("p.json", "00", b'a'),
        ("p.json", "1", b'b'),
        ("p.json", "000000002", b'b'),
        ("sound.json", "0", b'a'),
    ];
    for (project, number, letter) in &rows {
        let wanted = marked(alloc, *letter)?;
        let words = ["frame", *project, *number];
        expect_run(&rt, alloc, &words, [0, 0], wanted.as_slice(), 0)?;
    }
    Ok(())
}

/// A black frame is encoded: from the first marker to the last one it is the codestream of a picture of the project's size.
#[test]
fn frame_encodes_black(rt: HostRuntime) -> Result<(), Fail> {
    let alloc = rt.alloc();
    let words = words_of(alloc, &["frame", "p.json", "23"])?;
    let mut source = source_of(alloc, 0)?;
    let mut out = MemSink::new(alloc, List::new(alloc));
    let ended = run(alloc, &words, &mut source, &mut out).exit_code();
    assert_eq!(rt; ended, 0);
    let bytes = out.written();
    assert!(rt; bytes.len() > 143);
    assert!(rt; bytes[8..16].starts_with(&[0, 0, 0, 64, 0, 0, 0, 48]));
    assert!(rt; bytes.ends_with(&[0xff, 0xd9]));
    Ok(())
}

/// The project's file is found and read, and the frame's; none of the calls is made twice, and one print.
#[test]
fn a_fault_is_a_devices(rt: HostRuntime) -> Result<(), Fail> {
    let alloc = rt.alloc();
    let words = ["frame", "p.json", "0"];
    for call in 1..5u64 {
        expect_run(&rt, alloc, &words, [call, 0], b"source fault\n", 7)?;
    }
    expect_run(&rt, alloc, &words, [0, 1], b"", 9)?;
    let wanted = marked(alloc, b'a')?;
    expect_run(&rt, alloc, &words, [5, 2], wanted.as_slice(), 0)?;
    Ok(())
}

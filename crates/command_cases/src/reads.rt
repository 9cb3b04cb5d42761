//! Runs of `read` over devices in memory.

use codec_terms::{HeadRefusal, MarkerRefusal, ReadRefusal};
use dcp_commands::run;
use empty_streams::STREAM;
use mast_base::{Bytes, List};
use mast_world::{MemFile, MemSink, MemSource};
use std::alloc::{AllocError, Global};
use std::process::Abort;
use std::test::Fail;
use stream_inspect::refusal_text;

const GOOD: &str = "size 32x32\nbytes 205\nparts 20 20 20\ncut 0\nblocks 0\n";

const USAGE: &str = "usage: dcp make|plan|frame|read|trial\n";

/// The bytes of the stream with another one at a place.
fn changed(alloc: Global, at: usize, byte: u8) -> Result<Bytes, AllocError> {
    let mut bytes = Bytes::copy_of(alloc, &STREAM)?;
    if at < bytes.len() {
        bytes.set(at, byte);
    }
    Ok(bytes)
}

/// A source with the file `a.j2c` of this size, whose call with this number fails.
fn source_of(
    alloc: Global,
    size: u64,
    bytes: Bytes,
    failing: u64,
) -> Result<MemSource, AllocError> {
    let mut files = List::new(alloc);
    files.push(MemFile {
        name: Bytes::copy_of(alloc, b"a.j2c")?,
        size,
        fill: 0,
        bytes,
    })?;
    let mut calls = List::new(alloc);
    calls.push(failing)?;
    Ok(MemSource::new(files, calls))
}

fn words_of(alloc: Global, words: &[&str]) -> Result<Vec<String>, AllocError> {
    let mut all = Vec::new(alloc);
    for word in words {
        all.push(String::from_str(alloc, word)?)?;
    }
    Ok(all)
}

/// How `run` ends: what it prints, its exit status, and how many bytes it read.
fn expect_run(
    rt: &impl Abort,
    alloc: Global,
    words: &[&str],
    source: &mut MemSource,
    wanted: &(&str, u8, u64),
) -> Result<(), AllocError> {
    let (printed, exit, taken) = *wanted;
    let words = words_of(alloc, words)?;
    let mut out = MemSink::new(alloc, List::new(alloc));
    let ended = run(alloc, &words, source, &mut out).exit_code();
    assert_eq!(rt; out.written(), printed.as_bytes());
    assert_eq!(rt; ended, exit);
    assert_eq!(rt; source.taken(), taken);
    Ok(())
}

#[test]
fn read_wants_one_name(rt: HostRuntime) -> Result<(), Fail> {
    let alloc = rt.alloc();
    let words: [&[&str]; 6] = [
        &["read"],
        &["read", "a.j2c", "a.j2c"],
        &["read", ""],
        &["read", "-a.j2c"],
        &["reads", "a.j2c"],
        &["frame", "a.j2c"],
    ];
    for words in &words {
        let mut source = source_of(alloc, 205, changed(alloc, 205, 0)?, 0)?;
        expect_run(&rt, alloc, *words, &mut source, &(USAGE, 2, 0))?;
    }
    Ok(())
}

/// The size of the file, another byte at a place, and how `read` ends.
type Row = (u64, (usize, u8), (&'static str, u8, u64));

#[rattlefmt::skip]
const ROWS: [Row; 13] = [
    (205, (205, 0), (GOOD, 0, 205)),
    // Another comment than that of a cut.
    (205, (135, 0x44), ("size 32x32\nbytes 205\nparts 20 20 20\ncut none\nblocks 0\n", 0, 205)),
    (205, (143, 0), ("bad stream: M2 143 144\n", 14, 205)),
    (204, (205, 0), ("bad stream: M1 204\n", 14, 204)),
    (206, (205, 0), ("bad stream: S2 205\n", 14, 206)),
    (0, (205, 0), ("bad stream: M1 0\n", 14, 0)),
    (160, (205, 0), ("bad stream: H1 160\n", 14, 160)),
    (205, (1, 0x4e), ("bad stream: M2 0 65358\n", 14, 205)),
    (205, (152, 21), ("bad stream: M3 149 21\n", 14, 205)),
    (205, (128, 21), ("bad stream: M3 189 20\n", 14, 205)),
    // The most bytes that are read, and one more.
    (16_777_216, (205, 0), ("bad stream: S2 205\n", 14, 16_777_216)),
    (16_777_217, (205, 0), ("input too long: 16777217\n", 15, 0)),
    (18_446_744_073_709_551_615, (205, 0), ("input too long: 18446744073709551615\n", 15, 0)),
];

#[test]
fn read_tells_what_a_file_holds(rt: HostRuntime) -> Result<(), Fail> {
    let alloc = rt.alloc();
    for (size, (at, byte), wanted) in &ROWS {
        let mut source = source_of(alloc, *size, changed(alloc, *at, *byte)?, 0)?;
        expect_run(&rt, alloc, &["read", "a.j2c"], &mut source, wanted)?;
    }
    Ok(())
}

#[test]
fn read_names_what_is_wrong(rt: HostRuntime) -> Result<(), Fail> {
    let alloc = rt.alloc();
    let mut source = source_of(alloc, 205, changed(alloc, 205, 0)?, 0)?;
    let missing = ("input missing: b.j2c\n", 4, 0);
    expect_run(&rt, alloc, &["read", "b.j2c"], &mut source, &missing)?;
    assert_eq!(rt; source.absent(), 1);
    // The search fails, and then the only read.
    let fault = ("source fault\n", 7, 0);
    for call in 1..3u64 {
        let mut source = source_of(alloc, 205, changed(alloc, 205, 0)?, call)?;
        expect_run(&rt, alloc, &["read", "a.j2c"], &mut source, &fault)?;
    }
    let mut source = source_of(alloc, 205, changed(alloc, 205, 0)?, 3)?;
    expect_run(&rt, alloc, &["read", "a.j2c"], &mut source, &(GOOD, 0, 205))?;
    Ok(())
}

#[test]
fn a_print_that_fails_is_a_sink_fault(rt: HostRuntime) -> Result<(), Fail> {
    let alloc = rt.alloc();
    let mut source = source_of(alloc, 205, changed(alloc, 205, 0)?, 0)?;
    let mut calls = List::new(alloc);
    calls.push(1)?;
    let mut out = MemSink::new(alloc, calls);
    let words = words_of(alloc, &["read", "a.j2c"])?;
    assert_eq!(rt; run(alloc, &words, &mut source, &mut out).exit_code(), 9);
    assert!(rt; out.written().is_empty());
    Ok(())
}

#[rattlefmt::skip]
const REFUSALS: [(ReadRefusal, &str); 10] = [
    (ReadRefusal::Marker(MarkerRefusal::Truncated { at: 1655 }), "M1 1655"),
    (ReadRefusal::Marker(MarkerRefusal::Marker { at: 4063, got: 39_935 }), "M2 4063 39935"),
    (ReadRefusal::Marker(MarkerRefusal::Field { at: 62, got: 143 }), "M3 62 143"),
    (ReadRefusal::Head(HeadRefusal::Truncated { at: 169 }), "H1 169"),
    (ReadRefusal::Head(HeadRefusal::BadStuffing { at: 223 }), "H2 223"),
    (ReadRefusal::Head(HeadRefusal::TooManyPasses { at: 1747, n: 25 }), "H3 1747 25"),
    (ReadRefusal::Head(HeadRefusal::LengthPast { at: 3966, n: 127 }), "H4 3966 127"),
    (ReadRefusal::Head(HeadRefusal::WideLength { at: 157, n: 33 }), "H5 157 33"),
    (ReadRefusal::PartLength { part: 2, got: 21 }, "S1 2 21"),
    (ReadRefusal::After { at: 1656 }, "S2 1656"),
];

#[test]
fn refusals_print_their_fields(rt: HostRuntime) -> Result<(), Fail> {
    let alloc = rt.alloc();
    for (refusal, text) in &REFUSALS {
        let printed = refusal_text(alloc, *refusal)?;
        assert_eq!(rt; printed.as_slice(), text.as_bytes());
    }
    Ok(())
}

//! Texts of projects, and what is told of each.

use film_printer::{project_text, refusal_text};
use film_reader::read_project;
use mast_base::{Bytes, NoMemory};
use std::alloc::{AllocError, Global};
use std::process::Abort;
use std::test::Fail;

const BASE: &str =
    "{\"title\":\"Test\",\"kind\":\"test\",\"issued\":\"2024-05-01T12:00:00\",\"namespace\":\"6ba7b810-9dad-11d1-80b4-00c04fd430c8\",\"width\":64,\"height\":48,\"fps\":24,\"rate\":250,\"power\":11,\"channels\":2,\"frames\":24,\"assets\":[{\"id\":\"a\",\"kind\":\"rgb48\",\"file\":\"a.rgb\"},{\"id\":\"s\",\"kind\":\"pcm24\",\"file\":\"s.pcm\",\"channels\":2}],\"picture\":[{\"asset\":\"a\",\"at\":0,\"from\":0,\"count\":24}],\"sound\":[{\"asset\":\"s\",\"at\":0,\"from\":0,\"count\":24,\"gains\":[[0,1,65536]]}]}";

/// A text that stands once in the base text, what stands in its place, and what is told of it.
type Row<'a> = (&'a str, &'a str, &'a str);

/// `accepted`, or the refusal as it is printed.
fn told(alloc: Global, text: &[u8]) -> Result<Bytes, NoMemory> {
    match read_project(alloc, text) {
        Ok(_) => Ok(Bytes::copy_of(alloc, b"accepted")?),
        Err(refusal) => refusal_text(alloc, &refusal),
    }
}

/// The base text with another text in the place of one that stands in it.
fn changed(rt: &impl Abort, alloc: Global, from: &str, to: &str) -> Result<String, AllocError> {
    match BASE.split_once(from) {
        Some((before, after)) => {
            let mut text = String::from_str(alloc, before)?;
            text.push_str(to)?;
            text.push_str(after)?;
            Ok(text)
        }
        None => {
            assert!(rt; false, "the base text has no {from}");
            Ok(String::new(alloc))
        }
    }
}

fn tells(rt: &impl Abort, alloc: Global, rows: &[Row<'_>]) -> Result<(), NoMemory> {
    for (from, to, want) in rows {
        let text = changed(rt, alloc, *from, *to)?;
        let line = told(alloc, text.as_bytes())?;
        assert!(rt; line.as_slice() == want.as_bytes(), "{want} at {to}");
    }
    Ok(())
}

const OTHER_VALUES_THAN_OBJECTS: [Row<'static>; 17] = [
    (BASE, "[]", "P2 "),
    (BASE, "\"x\"", "P2 "),
    (BASE, "null", "P2 "),
    (BASE, "1", "P2 "),
    (
        "{\"id\":\"a\",\"kind\":\"rgb48\",\"file\":\"a.rgb\"}",
        "7",
        "P2 assets[0]",
    ),
    (
        "{\"id\":\"s\",\"kind\":\"pcm24\",\"file\":\"s.pcm\",\"channels\":2}",
        "null",
        "P2 assets[1]",
    ),
    (
        "{\"asset\":\"a\",\"at\":0,\"from\":0,\"count\":24}",
        "[]",
        "P2 picture[0]",
    ),
    (
        "{\"asset\":\"a\",\"at\":0,\"from\":0,\"count\":24}",
        "{\"asset\":\"a\",\"at\":0,\"from\":0,\"count\":24},true",
        "P2 picture[1]",
    ),
    (
        "{\"asset\":\"s\",\"at\":0,\"from\":0,\"count\":24,\"gains\":[[0,1,65536]]}",
        "\"s\"",
        "P2 sound[0]",
    ),
    (
        "{\"asset\":\"s\",\"at\":0,\"from\":0,\"count\":24,\"gains\":[[0,1,65536]]}",
        "{\"asset\":\"s\",\"at\":0,\"from\":0,\"count\":24,\"gains\":[[0,1,65536]]},1.5",
        "P2 sound[1]",
    ),
    (BASE, "", "P1"),
    (BASE, "{", "P1"),
    (BASE, "{'a':1}", "P1"),
    ("}]}", "}]},", "P1"),
    (BASE, "{\"a\":01}", "P1"),
    (BASE, "\u{feff}{}", "P1"),
    (BASE, "NaN", "P1"),
];

#[test]
fn other_values_than_objects(rt: HostRuntime) -> Result<(), Fail> {
    tells(&rt, rt.alloc(), &OTHER_VALUES_THAN_OBJECTS)?;
    Ok(())
}

const ABSENT_AND_UNKNOWN_MEMBERS: [Row<'static>; 19] = [
    ("\"title\":\"Test\",", "", "P3 title"),
    ("\"fps\":24,", "", "P3 fps"),
    ("\"id\":\"a\",", "", "P3 assets[0].id"),
    (",\"file\":\"s.pcm\"", "", "P3 assets[1].file"),
    (",\"channels\":2}", "}", "P3 assets[1].channels"),
    ("\"asset\":\"a\",", "", "P3 picture[0].asset"),
    ("\"a\",\"at\":0", "\"a\"", "P3 picture[0].at"),
    ("\"asset\":\"s\",", "", "P3 sound[0].asset"),
    (",\"gains\":[[0,1,65536]]", "", "P3 sound[0].gains"),
    (BASE, "{}", "P3 title"),
    ("\"title\"", "\"Title\"", "P4 Title"),
    ("{\"title\"", "{\"zz\":1,\"aa\":2,\"title\"", "P4 aa"),
    ("{\"title\"", "{\"a\":1,\"\":2,\"title\"", "P4 "),
    ("\"id\":\"a\"", "\"id\":\"a\",\"x\":1", "P4 assets[0].x"),
    (
        "\"id\":\"s\"",
        "\"id\":\"s\",\"hold\":1",
        "P4 assets[1].hold",
    ),
    (
        "\"asset\":\"a\"",
        "\"asset\":\"a\",\"gains\":[]",
        "P4 picture[0].gains",
    ),
    (
        "\"asset\":\"a\"",
        "\"asset\":\"a\",\"b\":1,\"ab\":2",
        "P4 picture[0].ab",
    ),
    (
        "\"asset\":\"s\"",
        "\"asset\":\"s\",\"hold\":1",
        "P4 sound[0].hold",
    ),
    (
        "\"asset\":\"s\"",
        "\"asset\":\"s\",\"été\":1",
        "P4 sound[0].été",
    ),
];

#[test]
fn absent_and_unknown_members(rt: HostRuntime) -> Result<(), Fail> {
    tells(&rt, rt.alloc(), &ABSENT_AND_UNKNOWN_MEMBERS)?;
    Ok(())
}

const OTHER_KINDS: [Row<'static>; 23] = [
    ("\"Test\"", "7", "P5 title"),
    ("\"test\"", "[]", "P5 kind"),
    ("\"width\":64", "\"width\":-1", "P5 width"),
    ("\"width\":64", "\"width\":64.0", "P5 width"),
    ("\"width\":64", "\"width\":6.4e1", "P5 width"),
    ("\"width\":64", "\"width\":18446744073709551616", "P5 width"),
    ("\"width\":64", "\"width\":\"64\"", "P5 width"),
    ("\"width\":64", "\"width\":null", "P5 width"),
    (
        "\"frames\":24",
        "\"frames\":18446744073709551616",
        "P5 frames",
    ),
    ("\"frames\":24", "\"frames\":true", "P5 frames"),
    ("\"fps\":24", "\"fps\":{}", "P5 fps"),
    (
        "[{\"asset\":\"a\",\"at\":0,\"from\":0,\"count\":24}]",
        "{}",
        "P5 picture",
    ),
    (
        "[{\"asset\":\"s\",\"at\":0,\"from\":0,\"count\":24,\"gains\":[[0,1,65536]]}]",
        "7",
        "P5 sound",
    ),
    ("\"id\":\"a\"", "\"id\":1", "P5 assets[0].id"),
    (
        "\"channels\":2}",
        "\"channels\":-2}",
        "P5 assets[1].channels",
    ),
    ("\"asset\":\"a\"", "\"asset\":0", "P5 picture[0].asset"),
    ("\"a\",\"at\":0", "\"a\",\"at\":0.5", "P5 picture[0].at"),
    ("\"asset\":\"s\"", "\"asset\":null", "P5 sound[0].asset"),
    ("[[0,1,65536]]", "7", "P5 sound[0].gains"),
    (
        "[[0,1,65536]]",
        "[[0,1,65536],[0,1]]",
        "P5 sound[0].gains[1]",
    ),
    (
        "[[0,1,65536]]",
        "[[0,1,65536],[0,1,2,3],5]",
        "P5 sound[0].gains[1]",
    ),
    ("[[0,1,65536]]", "[[0,-1,65536]]", "P5 sound[0].gains[0]"),
    (
        "[[0,1,65536]]",
        "[[9,1,65536],\"x\"]",
        "P5 sound[0].gains[1]",
    ),
];

#[test]
fn other_kinds(rt: HostRuntime) -> Result<(), Fail> {
    tells(&rt, rt.alloc(), &OTHER_KINDS)?;
    Ok(())
}

const NUMBERS_OUT_OF_RANGE: [Row<'static>; 31] = [
    ("\"width\":64", "\"width\":31", "P6 width 31"),
    ("\"width\":64", "\"width\":2049", "P6 width 2049"),
    (
        "\"width\":64",
        "\"width\":18446744073709551615",
        "P6 width 18446744073709551615",
    ),
    ("\"height\":48", "\"height\":31", "P6 height 31"),
    ("\"height\":48", "\"height\":1081", "P6 height 1081"),
    ("\"fps\":24", "\"fps\":23", "P6 fps 23"),
    ("\"fps\":24", "\"fps\":26", "P6 fps 26"),
    ("\"rate\":250", "\"rate\":9", "P6 rate 9"),
    ("\"rate\":250", "\"rate\":251", "P6 rate 251"),
    ("\"power\":11", "\"power\":10", "P6 power 10"),
    ("\"power\":11", "\"power\":14", "P6 power 14"),
    (
        "\"channels\":2,\"frames\"",
        "\"channels\":17,\"frames\"",
        "P6 channels 17",
    ),
    ("\"frames\":24", "\"frames\":0", "P6 frames 0"),
    ("\"frames\":24", "\"frames\":432001", "P10 432001"),
    (
        "\"frames\":24",
        "\"frames\":18446744073709551615",
        "P10 18446744073709551615",
    ),
    (
        "\"channels\":2}",
        "\"channels\":0}",
        "P6 assets[1].channels 0",
    ),
    (
        "\"channels\":2}",
        "\"channels\":17}",
        "P6 assets[1].channels 17",
    ),
    (
        "\"id\":\"a\"",
        "\"id\":\"a\",\"channels\":3",
        "P6 assets[0].channels 3",
    ),
    (
        "\"a\",\"at\":0",
        "\"a\",\"at\":432000",
        "P6 picture[0].at 432000",
    ),
    (
        "\"a\",\"at\":0,\"from\":0",
        "\"a\",\"at\":0,\"from\":1000000",
        "P6 picture[0].from 1000000",
    ),
    ("\"count\":24}", "\"count\":0}", "P6 picture[0].count 0"),
    ("\"count\":24}", "\"count\":25}", "P6 picture[0].count 25"),
    (
        "\"a\",\"at\":0,\"from\":0,\"count\":24",
        "\"a\",\"at\":23,\"from\":0,\"count\":2",
        "P6 picture[0].count 2",
    ),
    (
        "\"a\",\"at\":0",
        "\"a\",\"at\":24",
        "P6 picture[0].count 24",
    ),
    (
        "\"asset\":\"a\"",
        "\"asset\":\"a\",\"hold\":0",
        "P6 picture[0].hold 0",
    ),
    (
        "\"asset\":\"a\"",
        "\"asset\":\"a\",\"hold\":101",
        "P6 picture[0].hold 101",
    ),
    (
        "\"s\",\"at\":0",
        "\"s\",\"at\":432000",
        "P6 sound[0].at 432000",
    ),
    (
        "\"count\":24,\"gains\"",
        "\"count\":25,\"gains\"",
        "P6 sound[0].count 25",
    ),
    ("[[0,1,65536]]", "[[2,1,0]]", "P6 sound[0].gains[0] 2"),
    ("[[0,1,65536]]", "[[0,2,0]]", "P6 sound[0].gains[0] 2"),
    (
        "[[0,1,65536]]",
        "[[0,1,0],[0,1,262145]]",
        "P6 sound[0].gains[1] 262145",
    ),
];

#[test]
fn numbers_out_of_range(rt: HostRuntime) -> Result<(), Fail> {
    tells(&rt, rt.alloc(), &NUMBERS_OUT_OF_RANGE)?;
    Ok(())
}

const TEXTS_THAT_BREAK_THEIR_RULES: [Row<'static>; 29] = [
    ("\"Test\"", "\"\"", "P7 title 0"),
    (
        "\"Test\"",
        "\"ttttttttttttttttttttttttttttttttttttttttttttttttttttttttttttttttttttttttttttttttttttttttttttttttttttt\"",
        "P7 title 100",
    ),
    ("\"Test\"", "\"a\\u0001b\"", "P7 title 1"),
    ("\"Test\"", "\"café\"", "P7 title 3"),
    ("\"Test\"", "\"ab\\u007f\"", "P7 title 2"),
    ("\"test\"", "\"Test\"", "P7 kind 0"),
    ("\"test\"", "\"\"", "P7 kind 0"),
    ("2024-05-01T12:00:00", "2024-05-01", "P7 issued 10"),
    ("2024-05-01T12", "2024-05-01 12", "P7 issued 10"),
    ("12:00:00\"", "12:00:00Z\"", "P7 issued 19"),
    ("2024-05", "1899-05", "P7 issued 0"),
    ("12:00:00", "12:00:60", "P7 issued 17"),
    ("05-01", "02-30", "P7 issued 0"),
    ("12:00:00", "24:00:00", "P7 issued 0"),
    ("6ba7", "6Ba7", "P7 namespace 1"),
    ("30c8\"", "30c\"", "P7 namespace 35"),
    ("30c8\"", "30c8a\"", "P7 namespace 36"),
    ("b810-9", "b8109-", "P7 namespace 8"),
    ("\"id\":\"a\"", "\"id\":\"\"", "P7 assets[0].id 0"),
    (
        "\"id\":\"s\"",
        "\"id\":\"sssssssssssssssssssssssssssssssssssssssss\"",
        "P7 assets[1].id 40",
    ),
    ("\"id\":\"a\"", "\"id\":\"a/b\"", "P7 assets[0].id 1"),
    ("\"rgb48\"", "\"RGB48\"", "P7 assets[0].kind 0"),
    ("a.rgb", "", "P7 assets[0].file 0"),
    ("a.rgb", "/a", "P7 assets[0].file 0"),
    ("a.rgb", "a/../b", "P7 assets[0].file 2"),
    ("a.rgb", "..", "P7 assets[0].file 0"),
    ("s.pcm", "a/..", "P7 assets[1].file 2"),
    ("s.pcm", "a b", "P7 assets[1].file 1"),
    (
        "a.rgb",
        "fffffffffffffffffffffffffffffffffffffffffffffffffffffffffffffffffffffffffffffffffffffffffffffffffffffffffffffffffffffffffffffffffffffffffffffffffffffffffffffffffffffffffffffffffffffffffffffffffffffffff",
        "P7 assets[0].file 200",
    ),
];

#[test]
fn texts_that_break_their_rules(rt: HostRuntime) -> Result<(), Fail> {
    tells(&rt, rt.alloc(), &TEXTS_THAT_BREAK_THEIR_RULES)?;
    Ok(())
}

const IDS_THAT_ARE_NOT_RIGHT: [Row<'static>; 8] = [
    ("\"id\":\"s\"", "\"id\":\"a\"", "P8 assets[1].id"),
    (
        "{\"id\":\"s\",\"kind\":\"pcm24\",\"file\":\"s.pcm\",\"channels\":2}",
        "{\"id\":\"s\",\"kind\":\"pcm24\",\"file\":\"s.pcm\",\"channels\":2},{\"id\":\"s\",\"kind\":\"pcm24\",\"file\":\"s.pcm\",\"channels\":2}",
        "P8 assets[2].id",
    ),
    ("\"asset\":\"a\"", "\"asset\":\"b\"", "P9 picture[0].asset"),
    ("\"asset\":\"a\"", "\"asset\":\"s\"", "P9 picture[0].asset"),
    ("\"asset\":\"a\"", "\"asset\":\"\"", "P9 picture[0].asset"),
    ("\"asset\":\"s\"", "\"asset\":\"a\"", "P9 sound[0].asset"),
    (
        "\"asset\":\"s\",\"at\":0,\"from\":0,\"count\":24,\"gains\":[[0,1,65536]]",
        "\"asset\":\"zz\",\"at\":0,\"from\":0,\"count\":24,\"gains\":[[15,1,0]]",
        "P9 sound[0].asset",
    ),
    (
        "\"asset\":\"s\",\"at\":0,\"from\":0,\"count\":24,\"gains\":[[0,1,65536]]",
        "\"asset\":\"zz\",\"at\":0,\"from\":0,\"count\":24,\"gains\":[[16,1,0]]",
        "P6 sound[0].gains[0] 16",
    ),
];

#[test]
fn ids_that_are_not_right(rt: HostRuntime) -> Result<(), Fail> {
    tells(&rt, rt.alloc(), &IDS_THAT_ARE_NOT_RIGHT)?;
    Ok(())
}

const THE_FIRST_FAULT_IS_TOLD: [Row<'static>; 13] = [
    (
        "\"Test\",\"kind\":\"test\"",
        "\"\",\"kind\":\"\"",
        "P7 title 0",
    ),
    (
        "\"width\":64,\"height\":48",
        "\"width\":1,\"height\":null",
        "P6 width 1",
    ),
    ("\"width\":64,\"height\":48", "\"height\":1", "P3 width"),
    (
        "\"channels\":2,\"frames\":24",
        "\"channels\":99,\"frames\":999999",
        "P6 channels 99",
    ),
    (BASE, "{\"b\":1,\"a\":2}", "P4 a"),
    (
        "\"frames\":24,\"assets\":[{\"id\":\"a\",\"kind\":\"rgb48\",\"file\":\"a.rgb\"}",
        "\"frames\":0,\"assets\":[7",
        "P6 frames 0",
    ),
    (
        "{\"id\":\"a\",\"kind\":\"rgb48\",\"file\":\"a.rgb\"},{\"id\":\"s\",\"kind\":\"pcm24\",\"file\":\"s.pcm\",\"channels\":2}",
        "{\"id\":1},7",
        "P5 assets[0].id",
    ),
    (
        "{\"id\":\"a\",\"kind\":\"rgb48\",\"file\":\"a.rgb\"},{\"id\":\"s\",\"kind\":\"pcm24\",\"file\":\"s.pcm\",\"channels\":2}",
        "{\"id\":\"a\",\"kind\":\"x\",\"file\":\"\",\"z\":1},7",
        "P4 assets[0].z",
    ),
    (
        "\"asset\":\"a\",\"at\":0,\"from\":0,\"count\":24}",
        "\"asset\":\"b\",\"at\":0,\"from\":0,\"count\":0}",
        "P6 picture[0].count 0",
    ),
    ("\"asset\":\"a\"", "\"asset\":\"b\"", "P9 picture[0].asset"),
    (
        "[{\"asset\":\"a\",\"at\":0,\"from\":0,\"count\":24}],\"sound\":[{\"asset\":\"s\",\"at\":0,\"from\":0,\"count\":24,\"gains\":[[0,1,65536]]}]",
        "[7],\"sound\":[7]",
        "P2 picture[0]",
    ),
    ("\"id\":\"s\"", "\"id\":\"a\",\"y\":1", "P4 assets[1].y"),
    (
        "{\"asset\":\"a\",\"at\":0,\"from\":0,\"count\":24}],\"sound\":[{\"asset\":\"s\",\"at\":0,\"from\":0,\"count\":24,\"gains\":[[0,1,65536]]}",
        "{\"asset\":\"a\",\"at\":0,\"from\":0,\"count\":24},{\"asset\":\"s\",\"at\":0,\"from\":0,\"count\":24}],\"sound\":[{}",
        "P9 picture[1].asset",
    ),
];

#[test]
fn the_first_fault_is_told(rt: HostRuntime) -> Result<(), Fail> {
    tells(&rt, rt.alloc(), &THE_FIRST_FAULT_IS_TOLD)?;
    Ok(())
}

/// Each number and each text at its least.
const LEAST: &str =
    "{\"title\":\"x\",\"kind\":\"psa\",\"issued\":\"1900-01-01T00:00:00\",\"namespace\":\"00000000-0000-0000-0000-000000000000\",\"width\":32,\"height\":32,\"fps\":24,\"rate\":10,\"power\":11,\"channels\":0,\"frames\":1,\"assets\":[{\"id\":\"-\",\"kind\":\"ppm\",\"file\":\".\"},{\"id\":\"_\",\"kind\":\"pcm24\",\"file\":\"s\",\"channels\":1}],\"picture\":[{\"asset\":\"-\",\"at\":0,\"from\":0,\"count\":1,\"hold\":1}],\"sound\":[{\"asset\":\"_\",\"at\":0,\"from\":0,\"count\":1,\"gains\":[]}]}";

/// Each number and each text at its greatest.
const GREATEST: &str =
    "{\"title\":\"~~~~~~~~~~~~~~~~~~~~~~~~~~~~~~~~~~~~~~~~~~~~~~~~~~~~~~~~~~~~~~~~~~~~~~~~~~~~~~~~~~~~~~~~~~~~~~~~~~~~\",\"kind\":\"advertisement\",\"issued\":\"9999-12-31T23:59:59\",\"namespace\":\"ffffffff-ffff-ffff-ffff-ffffffffffff\",\"width\":2048,\"height\":1080,\"fps\":48,\"rate\":250,\"power\":13,\"channels\":16,\"frames\":432000,\"assets\":[{\"id\":\"zzzzzzzzzzzzzzzzzzzzzzzzzzzzzzzzzzzzzzzz\",\"kind\":\"j2c\",\"file\":\"ffffffffffffffffffffffffffffffffffffffffffffffffffffffffffffffffffffffffffffffffffffffffffffffffffffffffffffffffffffffffffffffffffffffffffffffffffffffffffffffffffffffffffffffffffffffffffffffffffffffff\"},{\"id\":\"s\",\"kind\":\"pcm24\",\"file\":\"s\",\"channels\":16}],\"picture\":[{\"asset\":\"zzzzzzzzzzzzzzzzzzzzzzzzzzzzzzzzzzzzzzzz\",\"at\":0,\"from\":999999,\"count\":432000,\"hold\":100},{\"asset\":\"zzzzzzzzzzzzzzzzzzzzzzzzzzzzzzzzzzzzzzzz\",\"at\":431999,\"from\":999999,\"count\":1,\"hold\":100}],\"sound\":[{\"asset\":\"s\",\"at\":0,\"from\":999999,\"count\":432000,\"gains\":[[15,15,262144],[0,0,0]]},{\"asset\":\"s\",\"at\":431999,\"from\":999999,\"count\":1,\"gains\":[]}]}";

/// Five black frames.
const NO_ITEMS: &str =
    "{\"title\":\"Test\",\"kind\":\"test\",\"issued\":\"2024-05-01T12:00:00\",\"namespace\":\"6ba7b810-9dad-11d1-80b4-00c04fd430c8\",\"width\":64,\"height\":48,\"fps\":24,\"rate\":250,\"power\":11,\"channels\":0,\"frames\":5,\"assets\":[],\"picture\":[],\"sound\":[]}";

const WHAT_IS_ACCEPTED: [Row<'static>; 33] = [
    (BASE, BASE, "accepted"),
    (BASE, LEAST, "accepted"),
    (BASE, GREATEST, "accepted"),
    (BASE, NO_ITEMS, "accepted"),
    ("\"width\":64", "\"width\":32", "accepted"),
    ("\"width\":64", "\"width\":2048", "accepted"),
    ("\"height\":48", "\"height\":32", "accepted"),
    ("\"height\":48", "\"height\":1080", "accepted"),
    ("\"fps\":24", "\"fps\":25", "accepted"),
    ("\"fps\":24", "\"fps\":30", "accepted"),
    ("\"fps\":24", "\"fps\":48", "accepted"),
    ("\"rate\":250", "\"rate\":10", "accepted"),
    ("\"power\":11", "\"power\":12", "accepted"),
    ("\"power\":11", "\"power\":13", "accepted"),
    ("\"frames\":24", "\"frames\":432000", "accepted"),
    (
        "\"channels\":2,\"frames\"",
        "\"channels\":16,\"frames\"",
        "accepted",
    ),
    ("\"channels\":2}", "\"channels\":16}", "accepted"),
    ("\"id\":\"a\"", "\"id\":\"a\",\"channels\":0", "accepted"),
    (
        "\"asset\":\"a\"",
        "\"asset\":\"a\",\"hold\":100",
        "accepted",
    ),
    ("[[0,1,65536]]", "[]", "accepted"),
    ("[[0,1,65536]]", "[[1,1,262144],[0,0,0]]", "accepted"),
    (
        "[{\"asset\":\"s\",\"at\":0,\"from\":0,\"count\":24,\"gains\":[[0,1,65536]]}]",
        "[]",
        "accepted",
    ),
    (
        "[{\"asset\":\"a\",\"at\":0,\"from\":0,\"count\":24}],\"sound\":[{\"asset\":\"s\",\"at\":0,\"from\":0,\"count\":24,\"gains\":[[0,1,65536]]}]",
        "[],\"sound\":[]",
        "accepted",
    ),
    (
        "\"Test\"",
        "\"~~~~~~~~~~~~~~~~~~~~~~~~~~~~~~~~~~~~~~~~~~~~~~~~~~~~~~~~~~~~~~~~~~~~~~~~~~~~~~~~~~~~~~~~~~~~~~~~~~~~\"",
        "accepted",
    ),
    ("\"Test\"", "\" \\\"\\\\ \"", "accepted"),
    ("2024-05", "1900-05", "accepted"),
    ("2024-05-01T12:00:00", "9999-12-31T23:59:59", "accepted"),
    ("a.rgb", "a..b/.../c//d.", "accepted"),
    (
        "a.rgb",
        "ffffffffffffffffffffffffffffffffffffffffffffffffffffffffffffffffffffffffffffffffffffffffffffffffffffffffffffffffffffffffffffffffffffffffffffffffffffffffffffffffffffffffffffffffffffffffffffffffffffffff",
        "accepted",
    ),
    ("\"id\":\"s\"", "\"id\":\"S-_.\"", "P9 sound[0].asset"),
    ("\"width\":64", "\"width\":1,\"width\":64", "accepted"),
    ("\"width\":64", "\"width\":64,\"width\":1", "P6 width 1"),
    (
        "\"title\":\"Test\"",
        " \"t\\u0069tle\" :\n\"Test\" ",
        "accepted",
    ),
];

#[test]
fn what_is_accepted(rt: HostRuntime) -> Result<(), Fail> {
    tells(&rt, rt.alloc(), &WHAT_IS_ACCEPTED)?;
    Ok(())
}

/// The text with spaces behind it, up to this length.
fn padded(alloc: Global, text: &str, length: usize) -> Result<Vec<u8>, AllocError> {
    let mut bytes = text.as_bytes().to_vec(alloc)?;
    let spaces = Vec::from_elem(alloc, b' ', length.saturating_sub(text.len()))?;
    bytes.extend_from_slice(&spaces)?;
    Ok(bytes)
}

fn tells_padded(
    rt: &impl Abort,
    alloc: Global,
    text: &str,
    length: usize,
    want: &str,
) -> Result<(), NoMemory> {
    let bytes = padded(alloc, text, length)?;
    let line = told(alloc, &bytes)?;
    assert!(rt; line.as_slice() == want.as_bytes(), "{want} at {length}");
    Ok(())
}

#[test]
fn texts_that_are_long_or_no_text(rt: HostRuntime) -> Result<(), Fail> {
    let alloc = rt.alloc();
    tells_padded(&rt, alloc, BASE, 8_388_608, "accepted")?;
    tells_padded(&rt, alloc, BASE, 8_388_609, "P11 8388609")?;
    tells_padded(&rt, alloc, "", 8_388_608, "P1")?;
    tells_padded(&rt, alloc, "", 8_388_610, "P11 8388610")?;
    assert!(rt; told(alloc, b"{\"a\":\"\xFF\"}")?.as_slice() == b"P1".as_slice());
    Ok(())
}

/// A list in the base text, an item, how often that item stands in its place, and what is told.
const LISTS: [(&str, &str, usize, &str); 10] = [
    ("[[0,1,65536]]", "[0,1,1]", 256, "accepted"),
    ("[[0,1,65536]]", "[0,1,1]", 257, "P6 sound[0].gains 257"),
    ("[[0,1,65536]]", "[9,9,9]", 257, "P6 sound[0].gains 257"),
    ("[[0,1,65536]]", "[0]", 257, "P5 sound[0].gains[0]"),
    (
        "[{\"asset\":\"a\",\"at\":0,\"from\":0,\"count\":24}]",
        "{\"asset\":\"a\",\"at\":0,\"from\":0,\"count\":24}",
        1000,
        "accepted",
    ),
    (
        "[{\"asset\":\"a\",\"at\":0,\"from\":0,\"count\":24}]",
        "7",
        1001,
        "P6 picture 1001",
    ),
    (
        "[{\"asset\":\"s\",\"at\":0,\"from\":0,\"count\":24,\"gains\":[[0,1,65536]]}]",
        "{\"asset\":\"s\",\"at\":0,\"from\":0,\"count\":24,\"gains\":[[0,1,65536]]}",
        1000,
        "accepted",
    ),
    (
        "[{\"asset\":\"s\",\"at\":0,\"from\":0,\"count\":24,\"gains\":[[0,1,65536]]}]",
        "7",
        1001,
        "P6 sound 1001",
    ),
    (
        "[{\"id\":\"a\",\"kind\":\"rgb48\",\"file\":\"a.rgb\"},{\"id\":\"s\",\"kind\":\"pcm24\",\"file\":\"s.pcm\",\"channels\":2}]",
        "7",
        1000,
        "P2 assets[0]",
    ),
    (
        "[{\"id\":\"a\",\"kind\":\"rgb48\",\"file\":\"a.rgb\"},{\"id\":\"s\",\"kind\":\"pcm24\",\"file\":\"s.pcm\",\"channels\":2}]",
        "7",
        1001,
        "P6 assets 1001",
    ),
];

fn repeated(alloc: Global, item: &str, times: usize) -> Result<String, AllocError> {
    let mut list = String::from_str(alloc, "[")?;
    for index in 0..times {
        if index > 0 {
            list.push_str(",")?;
        }
        list.push_str(item)?;
    }
    list.push_str("]")?;
    Ok(list)
}

#[test]
fn lists_at_their_greatest_lengths(rt: HostRuntime) -> Result<(), Fail> {
    for (from, item, times, want) in LISTS {
        let list = repeated(rt.alloc(), item, times)?;
        tells(&rt, rt.alloc(), &[(from, list.as_str(), want)])?;
    }
    Ok(())
}

/// One object inside another, as often as is told.
fn nested(alloc: Global, times: usize) -> Result<String, AllocError> {
    let mut text = String::new(alloc);
    for _ in 0..times {
        text.push_str("{\"a\":")?;
    }
    text.push_str("1")?;
    for _ in 0..times {
        text.push_str("}")?;
    }
    Ok(text)
}

#[test]
fn objects_in_one_another(rt: HostRuntime) -> Result<(), Fail> {
    let alloc = rt.alloc();
    let deepest = nested(alloc, 127)?;
    assert!(rt; told(alloc, deepest.as_bytes())?.as_slice() == b"P4 a".as_slice());
    let too_deep = nested(alloc, 128)?;
    assert!(rt; told(alloc, too_deep.as_bytes())?.as_slice() == b"P1".as_slice());
    Ok(())
}

const CANONICAL: &str =
    "{\"assets\":[{\"channels\":0,\"file\":\"a.rgb\",\"id\":\"a\",\"kind\":\"rgb48\"},{\"channels\":2,\"file\":\"s.pcm\",\"id\":\"s\",\"kind\":\"pcm24\"}],\"channels\":2,\"fps\":24,\"frames\":24,\"height\":48,\"issued\":\"2024-05-01T12:00:00\",\"kind\":\"test\",\"namespace\":\"6ba7b810-9dad-11d1-80b4-00c04fd430c8\",\"picture\":[{\"asset\":\"a\",\"at\":0,\"count\":24,\"from\":0,\"hold\":1}],\"power\":11,\"rate\":250,\"sound\":[{\"asset\":\"s\",\"at\":0,\"count\":24,\"from\":0,\"gains\":[[0,1,65536]]}],\"title\":\"Test\",\"width\":64}";

/// The canonical text of a text that is accepted; empty for another.
fn reprinted(alloc: Global, text: &[u8]) -> Result<Bytes, NoMemory> {
    match read_project(alloc, text) {
        Ok(project) => project_text(alloc, &project),
        Err(_) => Ok(Bytes::new(alloc)),
    }
}

#[test]
fn the_canonical_text(rt: HostRuntime) -> Result<(), Fail> {
    let alloc = rt.alloc();
    let first = reprinted(alloc, BASE.as_bytes())?;
    assert!(rt; first.as_slice() == CANONICAL.as_bytes());
    let second = reprinted(alloc, first.as_slice())?;
    assert!(rt; second.as_slice() == CANONICAL.as_bytes());
    Ok(())
}

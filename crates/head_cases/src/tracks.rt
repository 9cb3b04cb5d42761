//! Heads and tails of two tracks, whose digests other implementations gave.

ghost use Rattle.std.specs.Prelude.{◌≡◌, ◌≤◌, length, All, IfOk};

use film_project::Project;
use film_reader::read_project;
use mast_base::NoMemory;
use mxf_header::head;
use mxf_track::tail;
use sha1::Sha1;
use std::alloc::{AllocError, Global};
use std::process::Abort;
use std::test::Fail;
use track_terms::{TrackFacts, TrackKind};

/// One frame more than an index segment has.
const PROJECT: &str =
    "{\"title\":\"Test\",\"kind\":\"test\",\"issued\":\"2024-05-01T12:34:56\",\"namespace\":\"6ba7b810-9dad-11d1-80b4-00c04fd430c8\",\"width\":1998,\"height\":1080,\"fps\":25,\"rate\":250,\"power\":11,\"channels\":6,\"frames\":5001,\"assets\":[],\"picture\":[],\"sound\":[]}";

const ASSET: [u8; 16] = [0, 1, 2, 3, 4, 5, 6, 7, 8, 9, 10, 11, 12, 13, 14, 15];

/// The place behind the items.
const FOOTER: u64 = 5_017_508;

/// The places of so many items, each of 1,000 bytes.
fn places(alloc: Global, count: u32) -> Result<Vec<u64>, AllocError>
    ensures count { IfOk result (λ places. length places.items ≡ count) }
    ensures behind { IfOk result (λ places. All (λ place. 16508 ≤ place) places.items) }
{
    let mut places = Vec::new(alloc);
    for item in 0..count {
        places.push(16_508 + 1000 * u64::from(item))?;
    }
    Ok(places)
}

fn head_digest(alloc: Global, facts: &TrackFacts) -> Result<[u8; 20], NoMemory> {
    let head = head(alloc, facts, FOOTER)?;
    Ok(Sha1::digest(head.as_slice()))
}

fn tail_digest(alloc: Global, facts: &TrackFacts) -> Result<[u8; 20], NoMemory> {
    let places = places(alloc, facts.frames)?;
    let tail = tail(alloc, facts, &places, FOOTER)?;
    Ok(Sha1::digest(tail.as_slice()))
}

/// A track, and the digests of its head and tail.
#[derive(Clone, Copy)]
struct Row {
    kind: TrackKind,
    name: &'static str,
    head: [u8; 20],
    tail: [u8; 20],
}

const PICTURE: Row = Row {
    kind: TrackKind::Picture,
    name: "picture-1.mxf",
    head: [
        0xde, 0x37, 0xa2, 0xd5, 0xac, 0xad, 0x06, 0x0d, 0x17, 0xbf, 0x19, 0x4c, 0x8f, 0x0e, 0x3f,
        0x15, 0xa3, 0x23, 0xc3, 0xf4,
    ],
    tail: [
        0xed, 0xe8, 0x9e, 0xa2, 0x4a, 0x80, 0x7c, 0x30, 0x25, 0x81, 0x48, 0xc5, 0x22, 0xfd, 0x5e,
        0x3c, 0xc6, 0xbd, 0xe9, 0xd8,
    ],
};

const SOUND: Row = Row {
    kind: TrackKind::Sound,
    name: "sound-1.mxf",
    head: [
        0x65, 0xa4, 0xf1, 0xbf, 0x9f, 0xab, 0xf7, 0x28, 0x42, 0xf0, 0xd3, 0x99, 0x4b, 0xbc, 0xde,
        0x23, 0xce, 0xd1, 0xd4, 0x68,
    ],
    tail: [
        0xbb, 0x79, 0xfc, 0x4f, 0xda, 0x31, 0x1d, 0xc5, 0x7a, 0xb1, 0x98, 0x17, 0xf7, 0xfb, 0xf3,
        0x5c, 0x57, 0xf0, 0x38, 0xdb,
    ],
};

/// Checks the digests of the project's track of this row.
fn check_track(
    rt: &impl Abort,
    alloc: Global,
    project: &Project,
    row: &Row,
) -> Result<(), NoMemory> {
    let facts = TrackFacts::of_project(alloc, project, row.kind, row.name.as_bytes(), &ASSET)?;
    assert!(rt;
        head_digest(alloc, &facts)? == row.head,
        "{} head",
        row.name
    );
    assert!(rt;
        tail_digest(alloc, &facts)? == row.tail,
        "{} tail",
        row.name
    );
    Ok(())
}

#[test]
fn heads_and_tails_have_these_digests(rt: HostRuntime) -> Result<(), Fail> {
    let alloc = rt.alloc();
    let Ok(project) = read_project(alloc, PROJECT.as_bytes()) else {
        assert!(rt; false, "the project is refused");
        return Ok(());
    };
    check_track(&rt, alloc, &project, &PICTURE)?;
    check_track(&rt, alloc, &project, &SOUND)?;
    Ok(())
}

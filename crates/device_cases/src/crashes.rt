//! What a crash may leave of a file of a volume in memory.

use mast_base::List;
use mast_world::{CrashImage, FileId, MemVolume, Volume};
use std::process::Abort;
use std::test::Fail;

const JOB: FileId = FileId::Job;

/// An image, and what it has of the file.
#[derive(Clone, Copy)]
struct Row {
    image: CrashImage,
    wanted: &'static [u8],
}

/// Behind a sync no image has anything else.
const SYNCED: [Row; 4] = [
    Row {
        image: CrashImage::AsBefore,
        wanted: b"abcd",
    },
    Row {
        image: CrashImage::AsWritten,
        wanted: b"abcd",
    },
    Row {
        image: CrashImage::HalfWritten,
        wanted: b"abcd",
    },
    Row {
        image: CrashImage::AllOnes,
        wanted: b"abcd",
    },
];

/// Behind a write of four bytes past the end, and a cut to one byte.
const UNSYNCED: [Row; 4] = [
    Row {
        image: CrashImage::AsBefore,
        wanted: b"a",
    },
    Row {
        image: CrashImage::AsWritten,
        wanted: &[b'a', b'b', 9, 8, 7, 6],
    },
    Row {
        image: CrashImage::HalfWritten,
        wanted: &[b'a', b'b', 9, 8, 0, 0],
    },
    Row {
        image: CrashImage::AllOnes,
        wanted: &[b'a', b'b', 1, 1, 1, 1],
    },
];

fn expect_images(rt: &impl Abort, volume: &MemVolume, rows: &[Row]) {
    for row in rows {
        let left = volume
            .crash_image(row.image, JOB)
            .expect(rt, "there is memory");
        assert!(rt; left.as_slice() == row.wanted, "{:?}", row.image);
    }
}

#[test]
fn a_crash_leaves_one_of_four_images(rt: HostRuntime) -> Result<(), Fail> {
    let alloc = rt.alloc();
    let mut volume = MemVolume::new(alloc, List::new(alloc));
    assert_eq!(rt; volume.write(JOB, 0, b"abcd"), Ok(()));
    assert_eq!(rt; volume.sync(JOB), Ok(()));
    expect_images(&rt, &volume, &SYNCED);
    assert!(rt; volume.bytes(JOB).len() == 4);
    assert_eq!(rt; volume.write(JOB, 2, &[9, 8, 7, 6]), Ok(()));
    assert_eq!(rt; volume.cut(JOB, 1), Ok(()));
    expect_images(&rt, &volume, &UNSYNCED);
    Ok(())
}

//! Raw frames of sources in memory.

use mast_base::{Bytes, List};
use mast_world::{MemFile, MemSource};
use raw_frames::{FrameRefusal, read_ppm, read_rgb48};
use std::alloc::{AllocError, Global};
use std::test::Fail;

/// The bytes of a picture of 32 columns and 32 rows.
const SIZE: u64 = 6144;

/// Headers of such a picture.
const GOOD: [&[u8]; 20] = [
    b"P6 32 32 65535 ",
    b"P6\n32 32\n65535\n",
    b"P6\t32\x0b32\x0c65535\r",
    b"P6  32   32    65535 ",
    b"P6\r\n32 32\r\n65535\n",
    b"P6#\n32 32 65535 ",
    b"P6 # a comment\n32 32 65535 ",
    b"P6# a\n# b\n32 32 65535\n",
    b"P6 32# width\n32 65535 ",
    b"P6 32 # width\n 32 65535 ",
    b"P6 32 32# height\n65535 ",
    b"P6 32 32 # height\n65535 ",
    b"P6#a\n32#b\n32#c\n65535 ",
    b"P6 #a\n 32 #b\n 32 #c\n 65535\t",
    b"P6 ##\n#\n32 32 65535 ",
    b"P6 # 32 32 65535 \n32 32 65535 ",
    b"P6 #\r\n32 32 65535 ",
    b"P6\x0b\x0c\t\r\n 32 32 65535\x0c",
    b"P6 32 32 65535\x0b",
    b"P6 32\n#P6\n32\n65535\n",
];

/// Files without a whole header of it: their first bytes, the number of blanks behind them, and where they are wrong.
const BAD: [(&[u8], u64, usize); 64] = [
    (b"", 0, 0),
    (b" ", 0, 0),
    (b"#", 0, 0),
    (b"#\nP6 32 32 65535 ", 0, 0),
    (b" P6 32 32 65535 ", 0, 0),
    (b"P", 0, 1),
    (b"P6", 0, 2),
    (b"p6 32 32 65535 ", 0, 0),
    (b"P5 32 32 65535 ", 0, 0),
    (b"P3 32 32 65535 ", 0, 0),
    (b"P66 32 32 65535 ", 0, 0),
    (b"P632 32 65535 ", 0, 0),
    (b"Q", 0, 0),
    (b"P 6 32 32 65535 ", 0, 0),
    (b"P6\x0032 32 65535 ", 0, 0),
    (b"P6\x00", 0, 0),
    (b"P6 ", 0, 3),
    (b"P6#", 0, 3),
    (b"P6 # open", 0, 9),
    (b"P6 #\n", 0, 5),
    (b"P6 3", 0, 4),
    (b"P6 32", 0, 5),
    (b"P6 4", 0, 3),
    (b"P6 33 32 65535 ", 0, 3),
    (b"P6 032 32 65535 ", 0, 3),
    (b"P6 +32 32 65535 ", 0, 3),
    (b"P6 320 32 65535 ", 0, 3),
    (b"P6 3 2 32 65535 ", 0, 3),
    (b"P6 3#\n2 32 65535 ", 0, 3),
    (b"P6 32x32 65535 ", 0, 3),
    (b"P6 32,32 65535 ", 0, 3),
    (b"P6 32 ", 0, 6),
    (b"P6 32#", 0, 6),
    (b"P6 32 # open", 0, 12),
    (b"P6 32 3", 0, 7),
    (b"P6 32 32", 0, 8),
    (b"P6 32 5", 0, 6),
    (b"P6 32 31 65535 ", 0, 6),
    (b"P6 32 0032 65535 ", 0, 6),
    (b"P6 32 -32 65535 ", 0, 6),
    (b"P6 32 32.0 65535 ", 0, 6),
    (b"P6 32 32 ", 0, 9),
    (b"P6 32 32#", 0, 9),
    (b"P6 32 32 # open", 0, 15),
    (b"P6 32 32 6", 0, 10),
    (b"P6 32 32 65535", 0, 14),
    (b"P6 32 32 7", 0, 9),
    (b"P6 32 32 255 ", 0, 9),
    (b"P6 32 32 65534 ", 0, 9),
    (b"P6 32 32 065535 ", 0, 9),
    (b"P6 32 32 655350 ", 0, 9),
    (b"P6 32 32 65535#\n ", 0, 14),
    (b"P6 32 32 65535#", 0, 14),
    (b"P6 32 32 65535x ", 0, 9),
    (b"P6 32 32 0xffff ", 0, 9),
    (b"P6 # no line feed here\r32 32 65535 ", 0, 35),
    (b"P6", 1022, 1024),
    (b"P6", 5000, 1024),
    (b"P6 32", 1100, 1024),
    (b"P6 32 32", 1100, 1024),
    (b"P6 32 32 # a comment without an end", 1100, 1024),
    (b"P6 32 32 255", 2000, 9),
    (b"", 1, 0),
    (b"", 6000, 0),
];

/// A source of one file: these bytes, and as many others behind.
fn source_of(
    alloc: Global,
    name: &[u8],
    bytes: &[u8],
    behind: u64,
    fill: u8,
) -> Result<MemSource, AllocError> {
    let mut files = List::new(alloc);
    files.push(MemFile {
        name: Bytes::copy_of(alloc, name)?,
        size: behind.saturating_add(bytes.len() as u64),
        fill,
        bytes: Bytes::copy_of(alloc, bytes)?,
    })?;
    Ok(MemSource::new(files, List::new(alloc)))
}

#[test]
fn pictures_are_read_behind_their_headers(rt: HostRuntime) -> Result<(), Fail> {
    let alloc = rt.alloc();
    let mut frame = Bytes::new(alloc);
    for header in GOOD {
        let mut source = source_of(alloc, b"s/000007.ppm", header, SIZE + 1, b'A')?;
        assert_eq!(rt;
            read_ppm(alloc, &mut source, b"s", 7, 32, 32, &mut frame),
            Ok(())
        );
        assert_eq!(rt; frame.len(), 6144);
        assert!(rt; frame.as_slice().iter().all(|byte| *byte == b'A'));
    }
    Ok(())
}

#[test]
fn a_picture_that_is_cut_short_is_told(rt: HostRuntime) -> Result<(), Fail> {
    let alloc = rt.alloc();
    let mut frame = Bytes::copy_of(alloc, b"before")?;
    let mut source = source_of(alloc, b"s/1234567.ppm", b"P6 32 32 65535 ", SIZE - 1, 0)?;
    let short = FrameRefusal::Short {
        size: 6158,
        need: 6159,
    };
    assert_eq!(rt;
        read_ppm(alloc, &mut source, b"s", 1_234_567, 32, 32, &mut frame),
        Err(short)
    );
    assert_eq!(rt; frame.len(), 0);
    assert_eq!(rt; source.taken(), 1024);
    Ok(())
}

#[test]
fn wrong_headers_are_told_by_their_places(rt: HostRuntime) -> Result<(), Fail> {
    let alloc = rt.alloc();
    let mut frame = Bytes::copy_of(alloc, b"before")?;
    for (bytes, blanks, at) in BAD {
        let mut source = source_of(alloc, b"s/000007.ppm", bytes, blanks, b' ')?;
        let refusal = FrameRefusal::BadHeader { at };
        assert_eq!(rt;
            read_ppm(alloc, &mut source, b"s", 7, 32, 32, &mut frame),
            Err(refusal)
        );
        assert_eq!(rt; frame.len(), 0);
    }
    Ok(())
}

#[test]
fn frames_stand_one_after_another(rt: HostRuntime) -> Result<(), Fail> {
    let alloc = rt.alloc();
    let first = Vec::from_elem(alloc, 1u8, 6144)?;
    let mut source = source_of(alloc, b"film", &first, SIZE, 2)?;
    let mut frame = Bytes::new(alloc);
    assert_eq!(rt;
        read_rgb48(alloc, &mut source, b"film", 0, 32, 32, &mut frame),
        Ok(())
    );
    assert!(rt; frame.as_slice().iter().all(|byte| *byte == 1));
    assert_eq!(rt;
        read_rgb48(alloc, &mut source, b"film", 1, 32, 32, &mut frame),
        Ok(())
    );
    assert_eq!(rt; frame.len(), 6144);
    assert!(rt; frame.as_slice().iter().all(|byte| *byte == 2));
    assert_eq!(rt; source.taken(), 12288);
    let short = FrameRefusal::Short {
        size: 12288,
        need: 18432,
    };
    assert_eq!(rt;
        read_rgb48(alloc, &mut source, b"film", 2, 32, 32, &mut frame),
        Err(short)
    );
    assert_eq!(rt; frame.len(), 0);
    Ok(())
}

#[test]
fn missing_files_and_faults_are_told(rt: HostRuntime) -> Result<(), Fail> {
    let alloc = rt.alloc();
    let mut source = source_of(alloc, b"s/000007.ppm", b"P6 32 32 65535 ", SIZE, 0)?;
    let mut frame = Bytes::copy_of(alloc, b"before")?;
    assert_eq!(rt;
        read_ppm(alloc, &mut source, b"s", 8, 32, 32, &mut frame),
        Err(FrameRefusal::Missing)
    );
    assert_eq!(rt; source.absent(), 1);
    assert_eq!(rt; frame.len(), 0);
    let mut failing = List::new(alloc);
    failing.push(3)?;
    let mut files = List::new(alloc);
    files.push(MemFile {
        name: Bytes::copy_of(alloc, b"s/000007.ppm")?,
        size: 8000,
        fill: 0,
        bytes: Bytes::copy_of(alloc, b"P6 32 32 65535 ")?,
    })?;
    let mut faulty = MemSource::new(files, failing);
    assert_eq!(rt;
        read_ppm(alloc, &mut faulty, b"s", 7, 32, 32, &mut frame),
        Err(FrameRefusal::SourceFault)
    );
    assert_eq!(rt; frame.len(), 0);
    Ok(())
}

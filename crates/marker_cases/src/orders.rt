//! The segments of a header in many orders.

use crate::headers::{HEAD, HEADER};
use code_markers::read_main;
use codec_terms::MarkerRefusal::{Marker, Truncated};
use codec_terms::{MainHead, MarkerRefusal};
use std::alloc::{AllocError, Global};
use std::test::Fail;

/// The segment or marker of a letter.
#[rattlefmt::skip]
fn segment(letter: u8) -> &'static [u8] {
    match letter {
        b'C' => &HEADER[51..71],
        b'Q' => &HEADER[71..108],
        b'T' => &HEADER[108..129],
        // Comments: two that state a cut, the shortest, and three that state none.
        b'M' => &[0xff, 0x64, 0, 12, 0, 0, 0x43, 0x55, 0x54, 0x31, 0, 0, 0, 5],
        b'N' => &[0xff, 0x64, 0, 12, 0, 0, 0x43, 0x55, 0x54, 0x31, 0, 0, 0, 7],
        b'L' => &[0xff, 0x64, 0, 5, 0, 1, 0x20],
        b'W' => &[0xff, 0x64, 0, 12, 0, 0, 0x43, 0x55, 0x54, 0x32, 0, 0, 0, 9],
        b'B' => &[0xff, 0x64, 0, 12, 0, 1, 0x43, 0x55, 0x54, 0x31, 0, 0, 0, 9],
        b'A' => &[0xff, 0x64, 0, 13, 0, 0, 0x43, 0x55, 0x54, 0x31, 0, 0, 0, 9, 0],
        b'S' => &[0xff, 0x90],
        b'Z' => &[0xff, 0x51],
        b'O' => &[0xff, 0x4f],
        b'D' => &[0xff, 0x93],
        b'E' => &[0xff, 0xd9],
        _ => &[0xff, 0x53],
    }
}

/// The letters of the segments behind SIZ, and the place of the first tile-part and the cut, or the refusal.
type Row = (&'static [u8], Result<(usize, Option<u32>), MarkerRefusal>);

#[rattlefmt::skip]
const ORDERS: [Row; 49] = [
    (b"CQTMS", Ok((143, Some(5)))),
    (b"CTQMS", Ok((143, Some(5)))),
    (b"QCTMS", Ok((143, Some(5)))),
    (b"QTCMS", Ok((143, Some(5)))),
    (b"TCQMS", Ok((143, Some(5)))),
    (b"TQCMS", Ok((143, Some(5)))),
    (b"MCQTS", Ok((143, Some(5)))),
    (b"CMQTS", Ok((143, Some(5)))),
    (b"CQMTS", Ok((143, Some(5)))),
    (b"CQTS", Ok((129, None))),
    (b"CQTNMS", Ok((157, Some(7)))),
    (b"CQTMNS", Ok((157, Some(5)))),
    (b"NCMQMTMS", Ok((185, Some(7)))),
    (b"LCLQLTLS", Ok((157, None))),
    (b"WCQTNS", Ok((157, Some(7)))),
    (b"BACQTWBS", Ok((186, None))),
    (b"BACQTWBMS", Ok((200, Some(5)))),
    (b"LLLLLLLLCQTLS", Ok((192, None))),
    (b"S", Err(Marker { at: 51, got: 0xff90 })),
    (b"CS", Err(Marker { at: 71, got: 0xff90 })),
    (b"QS", Err(Marker { at: 88, got: 0xff90 })),
    (b"TS", Err(Marker { at: 72, got: 0xff90 })),
    (b"CQS", Err(Marker { at: 108, got: 0xff90 })),
    (b"CTS", Err(Marker { at: 92, got: 0xff90 })),
    (b"QTS", Err(Marker { at: 109, got: 0xff90 })),
    (b"MCQS", Err(Marker { at: 122, got: 0xff90 })),
    (b"MMS", Err(Marker { at: 79, got: 0xff90 })),
    (b"CC", Err(Marker { at: 71, got: 0xff52 })),
    (b"CMC", Err(Marker { at: 85, got: 0xff52 })),
    (b"QQ", Err(Marker { at: 88, got: 0xff5c })),
    (b"QLQ", Err(Marker { at: 95, got: 0xff5c })),
    (b"TT", Err(Marker { at: 72, got: 0xff55 })),
    (b"TWT", Err(Marker { at: 86, got: 0xff55 })),
    (b"CQTC", Err(Marker { at: 129, got: 0xff52 })),
    (b"CQTMQ", Err(Marker { at: 143, got: 0xff5c })),
    (b"CQTT", Err(Marker { at: 129, got: 0xff55 })),
    (b"CZ", Err(Marker { at: 71, got: 0xff51 })),
    (b"CQTZ", Err(Marker { at: 129, got: 0xff51 })),
    (b"CQTO", Err(Marker { at: 129, got: 0xff4f })),
    (b"CQTD", Err(Marker { at: 129, got: 0xff93 })),
    (b"CQTE", Err(Marker { at: 129, got: 0xffd9 })),
    (b"CQTME", Err(Marker { at: 143, got: 0xffd9 })),
    (b"P", Err(Marker { at: 51, got: 0xff53 })),
    (b"CP", Err(Marker { at: 71, got: 0xff53 })),
    (b"", Err(Truncated { at: 51 })),
    (b"C", Err(Truncated { at: 71 })),
    (b"CQTM", Err(Truncated { at: 143 })),
    (b"MMMM", Err(Truncated { at: 107 })),
    (b"CQTL", Err(Truncated { at: 136 })),
];

fn put_together(alloc: Global, letters: &[u8]) -> Result<Vec<u8>, AllocError> {
    let mut bytes = Vec::new(alloc);
    bytes.extend_from_slice(&HEADER[..51])?;
    for letter in letters {
        bytes.extend_from_slice(segment(*letter))?;
    }
    Ok(bytes)
}

#[test]
fn reads_segments_in_any_order(rt: HostRuntime) -> Result<(), Fail> {
    for (letters, told) in ORDERS {
        let bytes = put_together(rt.alloc(), letters)?;
        let want = told.map(|(next, cut)| MainHead { cut, next, ..HEAD });
        assert!(rt; read_main(&bytes) == want);
    }
    Ok(())
}

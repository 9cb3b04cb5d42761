use mast_base::Bytes;
use std::alloc::{AllocError, Global};

/// A black picture of 32 columns and 32 rows at cut 0: a main header of 143 bytes, three parts of 20, the end marker.
#[rattlefmt::skip]
pub const STREAM: [u8; 205] = [
    0xff, 0x4f, 0xff, 0x51, 0, 0x2f, 0, 3, 0, 0, 0, 0x20, 0, 0, 0, 0x20,
    0, 0, 0, 0, 0, 0, 0, 0, 0, 0, 0, 0x20, 0, 0, 0, 0x20,
    0, 0, 0, 0, 0, 0, 0, 0, 0, 3, 0x0b, 1, 1, 0x0b, 1, 1,
    0x0b, 1, 1, 0xff, 0x52, 0, 0x12, 1, 4, 0, 1, 1, 5, 3, 3, 0,
    0, 0x77, 0x88, 0x88, 0x88, 0x88, 0x88, 0xff, 0x5c, 0, 0x23, 0x22, 0x70, 0, 0x79, 0,
    0x79, 0, 0x7a, 0, 0x71, 0, 0x71, 0, 0x72, 0, 0x69, 0, 0x69, 0, 0x6a, 0,
    0x69, 0, 0x69, 0, 0x6a, 0, 0x61, 0, 0x61, 0, 0x62, 0, 0xff, 0x55, 0, 0x13,
    0, 0x50, 0, 0, 0, 0, 0x14, 0, 0, 0, 0, 0x14, 0, 0, 0, 0,
    0x14, 0xff, 0x64, 0, 0x0c, 0, 0, 0x43, 0x55, 0x54, 0x31, 0, 0, 0, 0, 0xff,
    0x90, 0, 0x0a, 0, 0, 0, 0, 0, 0x14, 0, 3, 0xff, 0x93, 0, 0, 0,
    0, 0, 0, 0xff, 0x90, 0, 0x0a, 0, 0, 0, 0, 0, 0x14, 1, 3, 0xff,
    0x93, 0, 0, 0, 0, 0, 0, 0xff, 0x90, 0, 0x0a, 0, 0, 0, 0, 0,
    0x14, 2, 3, 0xff, 0x93, 0, 0, 0, 0, 0, 0, 0xff, 0xd9,
];

/// The place of the first letter of its comment. Where another stands there, the comment tells no cut.
const COMMENT: usize = 135;

/// The same of a picture of 64 columns and 48 rows, with this letter in its comment.
pub fn marked(alloc: Global, letter: u8) -> Result<Bytes, AllocError> {
    let mut bytes = Bytes::copy_of(alloc, &STREAM)?;
    let changes = [(11, 64), (15, 48), (27, 64), (31, 48), (COMMENT, letter)];
    for (at, byte) in changes {
        if at < bytes.len() {
            bytes.set(at, byte);
        }
    }
    Ok(bytes)
}

//! Packets that are read: what they hold, or why they are refused and where.

use codec_terms::HeadRefusal::{BadStuffing, LengthPast, TooManyPasses, Truncated, WideLength};
use codec_terms::{BandShape, HeadRefusal, PacketBlock, PacketRead};
use mast_base::NoMemory;
use packet_reading::read_packet;
use std::alloc::Global;
use std::process::Abort;
use std::test::Fail;

/// The zero planes, the passes and the codeword of a block that is included.
type Block = Option<(u8, u8, &'static [u8])>;

#[derive(Clone, Copy, Debug)]
enum Answer {
    /// The place behind the packet, and the blocks of all sub-bands.
    Packet(usize, &'static [Block]),
    Refused(HeadRefusal),
}

use Answer::{Packet, Refused};

/// Bytes, the place where the packet begins, of each sub-band its columns, its rows and the number of its
/// bit-planes, and what is read.
type Row = (&'static [u8], usize, &'static [(u32, u32, u8)], Answer);

/// Small packets of whole pictures.
#[rattlefmt::skip]
const WORKED: [Row; 6] = [
    (b"\xc0\x04\x20\x03", 0, &[(1, 1, 12), (1, 1, 12), (1, 1, 12)], Packet(4, &[Some((11, 1, b"\x03")), None,
     None])),
    (b"\xc0\x04", 0, &[(1, 1, 12), (1, 1, 12), (1, 1, 12)], Refused(Truncated { at: 2 })),
    (b"\x00", 0, &[(1, 1, 12), (1, 1, 12), (1, 1, 12)], Packet(1, &[None, None, None])),
    (b"\xc0\x04\x20\xf4", 0, &[(1, 1, 12)], Packet(4, &[Some((11, 1, b"\xf4"))])),
    (b"\xe0", 0, &[(1, 1, 12)], Packet(1, &[Some((0, 1, b""))])),
    (b"\xc5\x0e\xa0\xe4\x85\x2d\xe4\xf2\x5d\x5d\xd0", 0, &[(3, 4, 12)], Packet(11, &[None, None, None, None, None,
     None, None, None, None, None, None, Some((4, 1, b"\xe4\x85\x2d\xe4\xf2\x5d\x5d\xd0"))])),
];

/// Empty packets, packets of no block, and places within the bytes and past their end.
#[rattlefmt::skip]
const PLACES: [Row; 16] = [
    (b"\x7f", 0, &[(1, 1, 12)], Packet(1, &[None])),
    (b"\x00\xff\xff", 0, &[], Packet(1, &[])),
    (b"\x80", 0, &[], Packet(1, &[])),
    (b"", 0, &[(1, 1, 12)], Refused(Truncated { at: 0 })),
    (b"", 0, &[], Refused(Truncated { at: 0 })),
    (b"\x00", 1, &[(1, 1, 12)], Refused(Truncated { at: 1 })),
    (b"\x00", 2, &[(1, 1, 12)], Refused(Truncated { at: 1 })),
    (b"\x00", 0x8000_0000_0000_0000, &[(1, 1, 12)], Refused(Truncated { at: 1 })),
    (b"\x00", 0xffff_ffff_ffff_ffff, &[(1, 1, 12)], Refused(Truncated { at: 1 })),
    (b"\xff\xe0", 1, &[(1, 1, 12)], Packet(2, &[Some((0, 1, b""))])),
    (b"\xff\x00", 1, &[(1, 1, 12)], Packet(2, &[None])),
    (b"\x12\x34\xc0\x04\x20\x03\xff\xff", 2, &[(1, 1, 12), (1, 1, 12), (1, 1, 12)], Packet(6, &[Some((11, 1,
     b"\x03")), None, None])),
    (b"\x00", 0, &[(2, 3, 9), (0, 5, 9), (1, 1, 9)], Packet(1, &[None, None, None, None, None, None, None])),
    (b"\x80", 0, &[(0, 4, 12), (4, 0, 12)], Packet(1, &[])),
    (b"\xff", 0, &[(0, 0, 12)], Refused(Truncated { at: 1 })),
    (b"\xff\x80", 0, &[(0, 0, 12)], Refused(BadStuffing { at: 1 })),
];

/// Packets of which the last bytes are missing.
#[rattlefmt::skip]
const CUT: [Row; 16] = [
    (b"", 0, &[(1, 1, 12)], Refused(Truncated { at: 0 })),
    (b"\xcf", 0, &[(1, 1, 12)], Refused(Truncated { at: 1 })),
    (b"\xcf\xa8", 0, &[(1, 1, 12)], Refused(Truncated { at: 2 })),
    (b"\xcf\xa8\x50", 0, &[(1, 1, 12)], Refused(LengthPast { at: 3, n: 20 })),
    (b"\xcf\xa8\x50\x22", 0, &[(1, 1, 12)], Refused(LengthPast { at: 3, n: 20 })),
    (b"\xcf\xa8\x50\x22\x91", 0, &[(1, 1, 12)], Refused(LengthPast { at: 3, n: 20 })),
    (b"\xcf\xa8\x50\x22\x91\xc3\x10\x41\x1e\x7e\xc2\x73\x78\xa6\x61\x35\x18\x7c\x07\x63\x6e\x9b", 0, &[(1, 1, 12)],
     Refused(LengthPast { at: 3, n: 20 })),
    (b"\xcf\xa8\x50\x22\x91\xc3\x10\x41\x1e\x7e\xc2\x73\x78\xa6\x61\x35\x18\x7c\x07\x63\x6e\x9b\xc3", 0, &[(1, 1,
     12)], Packet(23, &[Some((2, 16,
     b"\x22\x91\xc3\x10\x41\x1e\x7e\xc2\x73\x78\xa6\x61\x35\x18\x7c\x07\x63\x6e\x9b\xc3"))])),
    (b"\xc4", 0, &[(1, 1, 4), (1, 1, 2)], Refused(Truncated { at: 1 })),
    (b"\xc4\x58", 0, &[(1, 1, 4), (1, 1, 2)], Refused(Truncated { at: 2 })),
    (b"\xc4\x58\xc0", 0, &[(1, 1, 4), (1, 1, 2)], Refused(LengthPast { at: 3, n: 2 })),
    (b"\xc4\x58\xc0\x0e", 0, &[(1, 1, 4), (1, 1, 2)], Refused(LengthPast { at: 3, n: 2 })),
    (b"\xc4\x58\xc0\x0e\x17", 0, &[(1, 1, 4), (1, 1, 2)], Refused(LengthPast { at: 5, n: 3 })),
    (b"\xc4\x58\xc0\x0e\x17\x15", 0, &[(1, 1, 4), (1, 1, 2)], Refused(LengthPast { at: 5, n: 3 })),
    (b"\xc4\x58\xc0\x0e\x17\x15\x5c", 0, &[(1, 1, 4), (1, 1, 2)], Refused(LengthPast { at: 5, n: 3 })),
    (b"\xc4\x58\xc0\x0e\x17\x15\x5c\x2b", 0, &[(1, 1, 4), (1, 1, 2)], Packet(8, &[Some((3, 1, b"\x0e\x17")),
     Some((0, 1, b"\x15\x5c\x2b"))])),
];

/// Bytes FF in a header and at its end.
#[rattlefmt::skip]
const STUFFED: [Row; 12] = [
    (b"\xff\x00", 0, &[(1, 1, 60)], Refused(Truncated { at: 2 })),
    (b"\xff\x80", 0, &[(1, 1, 60)], Refused(BadStuffing { at: 1 })),
    (b"\xff\x7f", 0, &[(1, 1, 60)], Refused(Truncated { at: 2 })),
    (b"\xff\x7f\xff\x80", 0, &[(1, 1, 60)], Refused(BadStuffing { at: 3 })),
    (b"\xff\xff", 0, &[(1, 1, 60)], Refused(BadStuffing { at: 1 })),
    (b"\xff\x78\x00\x10\x7f\x01", 0, &[(1, 1, 60)], Packet(6, &[Some((0, 37, b"\x7f\x01"))])),
    (b"\xff\x7f\xf0\x02\x02", 0, &[(1, 1, 60)], Packet(5, &[Some((0, 164, b"\x02"))])),
    (b"\xc0\xbe\xff\x00", 0, &[(1, 1, 60)], Refused(LengthPast { at: 4, n: 255 })),
    (b"\xc0\xbe\xff\x7f", 0, &[(1, 1, 60)], Refused(LengthPast { at: 4, n: 255 })),
    (b"\xc0\xbe\xff", 0, &[(1, 1, 60)], Refused(Truncated { at: 3 })),
    (b"\xc0\xbe\xff\x80", 0, &[(1, 1, 60)], Refused(BadStuffing { at: 3 })),
    (b"\xc0\xbe\xff\x00\x02\x03", 0, &[(1, 1, 60)], Refused(LengthPast { at: 4, n: 255 })),
];

/// Each kind of codeword of a number of passes.
#[rattlefmt::skip]
const PASSES: [Row; 14] = [
    (b"\xe2\x22\x91", 0, &[(1, 1, 60)], Packet(3, &[Some((0, 1, b"\x22\x91"))])),
    (b"\xf0\x80\x0e\x17", 0, &[(1, 1, 60)], Packet(4, &[Some((0, 2, b"\x0e\x17"))])),
    (b"\xf8\x20\x3c\x97", 0, &[(1, 1, 60)], Packet(4, &[Some((0, 3, b"\x3c\x97"))])),
    (b"\xfa\x10\x3c\x4d", 0, &[(1, 1, 60)], Packet(4, &[Some((0, 4, b"\x3c\x4d"))])),
    (b"\xfc\x10\x9f\x41", 0, &[(1, 1, 60)], Packet(4, &[Some((0, 5, b"\x9f\x41"))])),
    (b"\xfe\x00\x80\x92\x14", 0, &[(1, 1, 60)], Packet(5, &[Some((0, 6, b"\x92\x14"))])),
    (b"\xfe\x10\x80\x52\x26", 0, &[(1, 1, 60)], Packet(5, &[Some((0, 7, b"\x52\x26"))])),
    (b"\xff\x68\x08\x8c\x55", 0, &[(1, 1, 60)], Packet(5, &[Some((0, 35, b"\x8c\x55"))])),
    (b"\xff\x70\x08\x54\x0e", 0, &[(1, 1, 60)], Packet(5, &[Some((0, 36, b"\x54\x0e"))])),
    (b"\xff\x78\x00\x10\xae\x9b", 0, &[(1, 1, 60)], Packet(6, &[Some((0, 37, b"\xae\x9b"))])),
    (b"\xff\x78\x10\x10\xa3\x6b", 0, &[(1, 1, 60)], Packet(6, &[Some((0, 38, b"\xa3\x6b"))])),
    (b"\xff\x7b\xf0\x08\x25\x75", 0, &[(1, 1, 60)], Packet(6, &[Some((0, 100, b"\x25\x75"))])),
    (b"\xff\x7f\xe0\x04\x8a\x9f", 0, &[(1, 1, 60)], Packet(6, &[Some((0, 163, b"\x8a\x9f"))])),
    (b"\xff\x7f\xf0\x04\x18\xbd", 0, &[(1, 1, 60)], Packet(6, &[Some((0, 164, b"\x18\xbd"))])),
];

/// As many passes as the bit-planes have, and more; blocks without a bit-plane.
#[rattlefmt::skip]
const TOO_MANY: [Row; 22] = [
    (b"\xe1\xaa", 0, &[(1, 1, 1)], Packet(2, &[Some((0, 1, b"\xaa"))])),
    (b"\xf0\x40\xaa", 0, &[(1, 1, 1)], Refused(TooManyPasses { at: 0, n: 2 })),
    (b"\xfa\x08\xaa", 0, &[(1, 1, 2)], Packet(3, &[Some((0, 4, b"\xaa"))])),
    (b"\xfc\x08\xaa", 0, &[(1, 1, 2)], Refused(TooManyPasses { at: 0, n: 5 })),
    (b"\xd8\x20\xaa", 0, &[(1, 1, 2)], Refused(TooManyPasses { at: 0, n: 2 })),
    (b"\xc3\x04\xaa", 0, &[(1, 1, 5)], Refused(TooManyPasses { at: 1, n: 2 })),
    (b"\xcf\x84\x10\xaa", 0, &[(1, 1, 5)], Packet(4, &[Some((2, 7, b"\xaa"))])),
    (b"\xcf\x88\x08\xaa", 0, &[(1, 1, 5)], Refused(TooManyPasses { at: 1, n: 8 })),
    (b"\xdf\xc8\x08\xaa", 0, &[(1, 1, 12)], Packet(4, &[Some((1, 31, b"\xaa"))])),
    (b"\xdf\xd0\x04\xaa", 0, &[(1, 1, 12)], Refused(TooManyPasses { at: 1, n: 32 })),
    (b"\xff\x7f\xe0\x02\xaa", 0, &[(1, 1, 55)], Packet(5, &[Some((0, 163, b"\xaa"))])),
    (b"\xff\x7f\xf0\x02\xaa", 0, &[(1, 1, 55)], Refused(TooManyPasses { at: 2, n: 164 })),
    (b"\xff\x7f\xf0\x02\xaa", 0, &[(1, 1, 12)], Refused(TooManyPasses { at: 2, n: 164 })),
    (b"\xc7\xd4\x02\xaa", 0, &[(1, 1, 9)], Packet(4, &[Some((3, 16, b"\xaa"))])),
    (b"\xc7\xd6\x02\xaa", 0, &[(1, 1, 9)], Refused(TooManyPasses { at: 1, n: 17 })),
    (b"\xc0\x00", 0, &[(1, 1, 0)], Refused(TooManyPasses { at: 0, n: 0 })),
    (b"\xc0\x00", 0, &[(1, 1, 1)], Refused(TooManyPasses { at: 0, n: 0 })),
    (b"\xc0\x00", 0, &[(1, 1, 5)], Refused(TooManyPasses { at: 0, n: 0 })),
    (b"\xc0\x00\x00", 0, &[(1, 1, 12)], Refused(TooManyPasses { at: 1, n: 0 })),
    (b"\xc0\x00\x00\x00\x00\x00", 0, &[(1, 1, 31)], Refused(TooManyPasses { at: 4, n: 0 })),
    (b"\xff\xff\xff\xff", 0, &[(1, 1, 0)], Refused(TooManyPasses { at: 0, n: 0 })),
    (b"\xff\x7f", 0, &[(1, 1, 5)], Refused(Truncated { at: 2 })),
];

/// Lengths in fields of 3 to 32 bits, and wider ones.
#[rattlefmt::skip]
const LENGTHS: [Row; 23] = [
    (b"\xe0", 0, &[(1, 1, 60)], Packet(1, &[Some((0, 1, b""))])),
    (b"\xe7\x52\x26\x65\xa6\x0c\x12\x89", 0, &[(1, 1, 60)], Packet(8, &[Some((0, 1,
     b"\x52\x26\x65\xa6\x0c\x12\x89"))])),
    (b"\xea\x00\x3a\x5e\x60\x20\x31\xb4\x0b\x15", 0, &[(1, 1, 60)], Packet(10, &[Some((0, 1,
     b"\x3a\x5e\x60\x20\x31\xb4\x0b\x15"))])),
    (b"\xef\xbf\xc0", 0, &[(1, 1, 60)], Refused(LengthPast { at: 3, n: 255 })),
    (b"\xf0\x40\x22", 0, &[(1, 1, 60)], Packet(3, &[Some((0, 2, b"\x22"))])),
    (b"\xf3\xc0\x35\x02\x85\xbc\x09\x28\x3d\x04\x0e\xae\x25\xb1\x5e\x3d\x1d", 0, &[(1, 1, 60)], Packet(17,
     &[Some((0, 2, b"\x35\x02\x85\xbc\x09\x28\x3d\x04\x0e\xae\x25\xb1\x5e\x3d\x1d"))])),
    (b"\xf9\x40\x5c\x78\x7b\x48\x6a\x3a\x72\x01\x68\xa8\xb6\x42\x3c\xa2\x38\x02", 0, &[(1, 1, 60)], Packet(18,
     &[Some((0, 3, b"\x5c\x78\x7b\x48\x6a\x3a\x72\x01\x68\xa8\xb6\x42\x3c\xa2\x38\x02"))])),
    (b"\xfa\x00", 0, &[(1, 1, 60)], Packet(2, &[Some((0, 4, b""))])),
    (b"\xfe\x27\xe0", 0, &[(1, 1, 60)], Refused(LengthPast { at: 3, n: 63 })),
    (b"\xfe\x2a\x00", 0, &[(1, 1, 60)], Refused(LengthPast { at: 3, n: 64 })),
    (b"\xef\x80\x40\x22", 0, &[(1, 1, 60)], Packet(4, &[Some((0, 1, b"\x22"))])),
    (b"\xef\xff\x7f\xff\x60\x00\x00\x00\x00", 0, &[(1, 1, 60)], Packet(9, &[Some((0, 1, b""))])),
    (b"\xf7\xff\x7f\xff\x60\x00\x00\x00\x30\x3c\x97\x8b", 0, &[(1, 1, 60)], Packet(12, &[Some((0, 2,
     b"\x3c\x97\x8b"))])),
    (b"\xfe\x2f\xff\x7f\xfe\x00\x00\x00\x01\x22", 0, &[(1, 1, 60)], Packet(10, &[Some((0, 8, b"\x22"))])),
    (b"\xef\xff\x7f\xff\x6f\xff\x7f\xff\x7c", 0, &[(1, 1, 60)], Refused(LengthPast { at: 9, n: 4294967295 })),
    (b"\xef\xff\x7f\xff\x68\x00\x00\x00\x00", 0, &[(1, 1, 60)], Refused(LengthPast { at: 9, n: 2147483648 })),
    (b"\xef\xff\x7f\xff\x70\x00\x00\x00\x00", 0, &[(1, 1, 60)], Refused(WideLength { at: 4, n: 33 })),
    (b"\xf7\xff\x7f\xff\x70\x00\x00\x00\x00", 0, &[(1, 1, 60)], Refused(WideLength { at: 4, n: 33 })),
    (b"\xff\x7f\xff\x7f\xff\x78\x00\x00\x00\x00", 0, &[(1, 1, 60)], Refused(WideLength { at: 5, n: 33 })),
    (b"\xff\x7f\xff\x7f\xff\x70\x00\x00\x00\x00", 0, &[(1, 1, 60)], Packet(10, &[Some((0, 164, b""))])),
    (b"\xef\xff\x7f\xff\x7f\xff\x70\x00\x00\x00\x00\x00\x00", 0, &[(1, 1, 60)], Refused(WideLength { at: 6, n: 48
     })),
    (b"\xf7\xff\x7f\xff\x7f\xff\x7f\xff\x7f\xff\x7f", 0, &[(1, 1, 60)], Refused(Truncated { at: 11 })),
    (b"\xf7\xff\x7f\xff\x7f\xff\x7f\xff\x7f", 0, &[(1, 1, 60)], Refused(Truncated { at: 9 })),
];

/// Grids of blocks.
#[rattlefmt::skip]
const GRIDS: [Row; 29] = [
    (b"\xc1\xf5\x80\x00", 0, &[(1, 1, 12)], Packet(4, &[Some((5, 17, b""))])),
    (b"\xee\x04\xe8\x20\x34", 0, &[(2, 1, 7)], Packet(5, &[Some((1, 2, b"")), Some((3, 4, b"\x34"))])),
    (b"\xe0\x41\x0f\xe0\x00\x8f", 0, &[(1, 2, 12)], Packet(6, &[Some((11, 1, b"\x8f")), Some((6, 6, b""))])),
    (b"\xf1\x07\xa0\x2e\x04\x65", 0, &[(2, 2, 4)], Packet(6, &[Some((3, 1, b"")), Some((0, 4, b"")), None, Some((1,
     3, b"\x65"))])),
    (b"\xe9\xfe\x20\x00", 0, &[(3, 1, 12)], Packet(4, &[None, Some((2, 23, b"")), None])),
    (b"\xf3\xf8\x40\x7f\x04\x01\xad", 0, &[(1, 3, 7)], Packet(7, &[Some((2, 7, b"")), None, Some((2, 5,
     b"\x01\xad"))])),
    (b"\xfc\xe8\x4b\xf0\x02\x8c\x20\xa1\x5e\x09\x17", 0, &[(3, 2, 4)], Packet(11, &[Some((2, 4, b"\xa1\x5e")), None,
     None, Some((0, 6, b"\x09")), None, Some((3, 1, b"\x17"))])),
    (b"\xf4\xf4\x02\x7d\x60\x3c\x00\x87\xf0\x82\xec\x12\xb9", 0, &[(2, 3, 12)], Packet(13, &[Some((3, 4, b"")),
     None, None, Some((5, 17, b"\xec")), Some((11, 1, b"\x12")), Some((1, 7, b"\xb9"))])),
    (b"\xff\x60\xbc\x17\xc2\x9c\x0f\xe2\x03\x7c\x00\xe7\x01\x8c\x40\xa2\x9c\x9e\xf7\xcf\x10\xd7\x6a\x36\xe8\xf9", 0,
     &[(3, 3, 4)], Packet(26, &[Some((0, 5, b"\xa2\x9c")), Some((0, 3, b"\x9e\xf7")), Some((0, 2, b"\xcf\x10")),
     Some((2, 3, b"\xd7")), Some((0, 8, b"\x6a")), Some((1, 6, b"\x36")), Some((2, 2, b"")), None, Some((3, 1,
     b"\xe8\xf9"))])),
    (b"\xf3\x07\x81\xf4\x1c\x8f\x80\x0f\xd6\x04\xf0\x5b\xb8\x20", 0, &[(4, 1, 12)], Packet(14, &[Some((7, 5,
     b"\xf0")), Some((2, 4, b"\x5b")), Some((7, 6, b"")), Some((4, 17, b"\xb8\x20"))])),
    (b"\xf8\x30\xf8\x1e\x0e\x07\xf5\x01\x00\xba\x87\x5b\x80\xa6", 0, &[(1, 4, 7)], Packet(14, &[Some((5, 1,
     b"\xba")), Some((5, 3, b"\x87")), Some((5, 3, b"\x5b")), Some((0, 16, b"\x80\xa6"))])),
    (b"\xf0\xfe\xb0\x2b\xe8\x02\x00\xb6\xb2\x58", 0, &[(4, 2, 12)], Packet(10, &[Some((4, 17, b"\xb6\xb2")),
     Some((5, 14, b"\x58")), None, None, None, None, None, None])),
    (b"\xf9\xe8\x25\x17\x10\x3f\x10\x0a\x10\x28\x8a\x0e\x5c", 0, &[(2, 4, 4)], Packet(13, &[Some((2, 4, b"\x28")),
     None, None, Some((3, 1, b"\x8a\x0e")), Some((3, 1, b"")), None, Some((0, 8, b"")), Some((1, 1, b"\x5c"))])),
    (b"\xff\x74\x01\x84\x54\xfc\x20\x85\x3f\x18\x20\xb3\x68\x79\xd1\xad\x96", 0, &[(4, 3, 7)], Packet(17, &[Some((0,
     14, b"\xb3")), Some((4, 1, b"\x68\x79")), None, Some((2, 7, b"\xd1")), None, None, None, None, None, Some((2,
     9, b"\xad\x96")), None, None])),
    (b"\xf0\xfe\x00\xbd\x0a\x50\xfe\x03\xf4\x14\x4c\x40\xbd\xef\xf4\x65\x37\xdd\x85\x9a", 0, &[(3, 4, 7)],
     Packet(20, &[Some((4, 6, b"\xbd\xef")), Some((4, 4, b"\xf4\x65")), None, None, Some((5, 1, b"\x37")), Some((4,
     5, b"")), Some((4, 4, b"\xdd")), None, None, None, None, Some((6, 1, b"\x85\x9a"))])),
    (b"\xff\x72\x81\x7e\x85\x02\x12\x20\x34\xf9\x00\xfe\x40\x37\xc0\x14\x74\x20\xfb\xe3\x7d\x06\x3c\xac\x43\x12\x37\x61",
     0, &[(4, 4, 7)], Packet(28, &[Some((0, 11, b"\xfb")), None, Some((0, 4, b"\xe3\x7d")), Some((6, 1, b"\x06")),
     None, None, Some((3, 1, b"")), None, None, None, Some((3, 10, b"\x3c")), Some((1, 10, b"\xac")), None, None,
     Some((2, 6, b"\x43\x12")), Some((4, 4, b"\x37\x61"))])),
    (b"\xf1\xd0\x6f\x03\xf9\x80\xb3\xc0\x4e\x82\xf3\x21\x92\x4e", 0, &[(2, 2, 5), (2, 1, 6)], Packet(14, &[Some((3,
     4, b"\xf3")), Some((1, 5, b"\x21")), Some((0, 12, b"\x92")), None, Some((2, 3, b"")), Some((4, 4, b"\x4e"))])),
    (b"\xf1\xd0\x6f\x03\xf9\x80\xb3", 0, &[(2, 2, 5), (2, 1, 6)], Refused(Truncated { at: 7 })),
    (b"\xf1\xd0\x6f\x03\xf9\x80\xb3\xc0\x4e\x82\xf3\x21\x92", 0, &[(2, 2, 5), (2, 1, 6)], Refused(LengthPast { at:
     13, n: 1 })),
    (b"\xe0\x18\x1b\xc1\x00\x0d\xaa", 0, &[(1, 2, 9), (0, 0, 9), (2, 2, 9)], Packet(7, &[Some((8, 1, b"")), None,
     Some((1, 3, b"\x0d\xaa")), None, None, None])),
    (b"\xe0\x18\x1b", 0, &[(1, 2, 9), (0, 0, 9), (2, 2, 9)], Refused(Truncated { at: 3 })),
    (b"\xe0\x18\x1b\xc1\x00\x0d", 0, &[(1, 2, 9), (0, 0, 9), (2, 2, 9)], Refused(LengthPast { at: 5, n: 2 })),
    (b"\xdf\x42\x6f\xc8\x03\x84\x38\x44\x6d\x16", 0, &[(2, 1, 4), (2, 1, 5), (2, 1, 6)], Packet(10, &[None, Some((0,
     4, b"\x38\x44")), None, None, Some((1, 10, b"")), Some((1, 2, b"\x6d\x16"))])),
    (b"\xdf\x42\x6f\xc8\x03", 0, &[(2, 1, 4), (2, 1, 5), (2, 1, 6)], Refused(Truncated { at: 5 })),
    (b"\xdf\x42\x6f\xc8\x03\x84\x38\x44\x6d", 0, &[(2, 1, 4), (2, 1, 5), (2, 1, 6)], Refused(LengthPast { at: 8, n:
     2 })),
    (b"\x80", 0, &[(2, 2, 5)], Packet(1, &[None, None, None, None])),
    (b"\x80\x00", 0, &[(4, 4, 12)], Packet(1, &[None, None, None, None, None, None, None, None, None, None, None,
     None, None, None, None, None])),
    (b"\xe0\x00", 0, &[(2, 1, 5)], Refused(TooManyPasses { at: 0, n: 0 })),
    (b"\xe4\x00\x00", 0, &[(2, 1, 5)], Refused(TooManyPasses { at: 1, n: 0 })),
];

fn shapes_of(alloc: Global, sizes: &[(u32, u32, u8)]) -> Result<Vec<BandShape>, NoMemory> {
    let mut shapes = Vec::new(alloc);
    for (columns, rows, mb) in sizes {
        shapes.push(BandShape {
            columns: *columns,
            rows: *rows,
            mb: *mb,
        })?;
    }
    Ok(shapes)
}

fn is_block(block: &PacketBlock, wanted: &Block) -> bool {
    match wanted {
        Some((zero_planes, passes, codeword)) => {
            block.included
                && block.zero_planes == *zero_planes
                && block.passes == *passes
                && block.codeword.as_slice() == *codeword
        }
        None => {
            !block.included
                && block.zero_planes == 0
                && block.passes == 0
                && block.codeword.as_slice().is_empty()
        }
    }
}

/// Whether a packet has sub-bands of these sizes.
fn has_shapes(packet: &PacketRead, shapes: &[BandShape]) -> bool {
    let bands = packet.bands.as_slice();
    bands.len() == shapes.len()
        && bands.iter().zip(shapes).all(|(band, shape)| {
            band.columns == shape.columns
                && band.rows == shape.rows
                && band.blocks.len() as u64 == u64::from(shape.columns) * u64::from(shape.rows)
        })
}

/// Whether these are the blocks of all its sub-bands.
fn has_blocks(packet: &PacketRead, wanted: &[Block]) -> bool {
    let mut at = 0;
    for band in packet.bands.as_slice() {
        for block in band.blocks.as_slice() {
            match wanted.get(at) {
                Some(one) if is_block(block, one) => at += 1,
                _ => return false,
            }
        }
    }
    at == wanted.len()
}

fn check(rt: &impl Abort, alloc: Global, rows: &[Row]) -> Result<(), NoMemory> {
    for (at, (bytes, start, sizes, answer)) in rows.iter().enumerate() {
        let shapes = shapes_of(alloc, *sizes)?;
        match (read_packet(alloc, *bytes, *start, &shapes), answer) {
            (Ok(packet), Packet(next, blocks)) => {
                assert!(rt; packet.next == *next, "{at}");
                assert!(rt; has_shapes(&packet, &shapes), "{at}");
                assert!(rt; has_blocks(&packet, *blocks), "{at}");
            }
            (Err(refusal), Refused(wanted)) => assert!(rt; refusal == *wanted, "{at}"),
            _ => assert!(rt; false, "{at}"),
        }
    }
    Ok(())
}

#[test]
fn reads_packets(rt: HostRuntime) -> Result<(), Fail> {
    let alloc = rt.alloc();
    check(&rt, alloc, &WORKED)?;
    check(&rt, alloc, &PLACES)?;
    check(&rt, alloc, &PASSES)?;
    Ok(())
}

#[test]
fn reads_grids(rt: HostRuntime) -> Result<(), Fail> {
    check(&rt, rt.alloc(), &GRIDS)?;
    Ok(())
}

#[test]
fn refuses_what_is_cut_or_stuffed(rt: HostRuntime) -> Result<(), Fail> {
    let alloc = rt.alloc();
    check(&rt, alloc, &CUT)?;
    check(&rt, alloc, &STUFFED)?;
    Ok(())
}

#[test]
fn refuses_passes_and_lengths(rt: HostRuntime) -> Result<(), Fail> {
    let alloc = rt.alloc();
    check(&rt, alloc, &TOO_MANY)?;
    check(&rt, alloc, &LENGTHS)?;
    Ok(())
}

/// A header that ends with FF: a byte more stands between it and the codeword.
#[test]
fn reads_a_codeword_behind_ff(rt: HostRuntime) -> Result<(), Fail> {
    let alloc = rt.alloc();
    let mut bytes = Vec::new(alloc);
    bytes.extend_from_slice(&[0xc0, 0xbe, 0xff, 0x00])?;
    bytes.extend_from_slice(&[7; 255])?;
    let shapes = shapes_of(alloc, &[(1, 1, 60)])?;
    match read_packet(alloc, &bytes, 0, &shapes) {
        Ok(packet) => {
            assert!(rt; packet.next == 259);
            assert!(rt; has_blocks(&packet, &[Some((6, 1, &[7; 255]))]));
        }
        Err(_) => assert!(rt; false),
    }
    Ok(())
}

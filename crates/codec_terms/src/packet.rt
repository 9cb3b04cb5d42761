use mast_base::{Bytes, List};

/// A code-block in a packet. The number of zero planes, the number of passes and the codeword
/// count only where the block is included; elsewhere a reader gives 0, 0 and no bytes.
#[derive(Debug, Drop)]
pub struct PacketBlock {
    pub included: bool,
    pub zero_planes: u8,
    pub passes: u8,
    pub codeword: Bytes,
}

/// The code-blocks that a packet has of one sub-band, in raster order.
#[derive(Debug, Drop)]
pub struct PacketBand {
    pub columns: u32,
    pub rows: u32,
    pub blocks: List<PacketBlock>,
}

/// What a reader knows of a sub-band before it reads a packet: its grid of code-blocks there, and
/// the number of its bit-planes.
#[derive(Clone, Copy, Debug, PartialEq, Eq)]
pub struct BandShape {
    pub columns: u32,
    pub rows: u32,
    pub mb: u8,
}

/// A packet that was read, and the place behind it.
#[derive(Debug, Drop)]
pub struct PacketRead {
    pub bands: List<PacketBand>,
    pub next: usize,
}

/// Why a packet is refused, and at which byte.
#[derive(Clone, Copy, Debug, PartialEq, Eq)]
pub enum HeadRefusal {
    /// A wanted header byte isn't there; `at` is the number of bytes.
    Truncated { at: usize },
    /// A byte that follows FF isn't below 80.
    BadStuffing { at: usize },
    /// The zero planes reach the number of bit-planes, with `n` 0, or there are `n` passes and
    /// the other bit-planes have fewer.
    TooManyPasses { at: usize, n: u32 },
    /// The bytes end before a codeword of `n` bytes, which begins at `at`, does.
    LengthPast { at: usize, n: u32 },
    /// A length field has `n` bits, which are more than 32.
    WideLength { at: usize, n: u64 },
    /// Want of memory, which no definition speaks of.
    NoMemory,
}

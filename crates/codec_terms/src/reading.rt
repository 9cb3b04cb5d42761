use crate::packet::HeadRefusal;
use crate::picture::Shape;
use mast_base::List;

/// Why a codestream's markers are refused, and at which byte.
#[derive(Clone, Copy, Debug, PartialEq, Eq)]
pub enum MarkerRefusal {
    /// The bytes end; `at` is their number.
    Truncated { at: usize },
    /// Another marker than those that may stand there.
    Marker { at: usize, got: u16 },
    /// A field with a value outside the profile.
    Field { at: usize, got: u32 },
}

/// What a main header says.
#[derive(Clone, Copy, Debug, PartialEq, Eq)]
pub struct MainHead {
    pub shape: Shape,
    /// The number of bit-planes of each sub-band, in the order of the segment QCD.
    pub mb: [u8; 16],
    /// The lengths that the segment TLM gives of the tile-parts.
    pub parts: [u32; 3],
    /// The cut that a comment states, where one does.
    pub cut: Option<u32>,
    /// The place of the first tile-part.
    pub next: usize,
}

/// Why a codestream is refused.
#[derive(Clone, Copy, Debug, PartialEq, Eq)]
pub enum ReadRefusal {
    Marker(MarkerRefusal),
    Head(HeadRefusal),
    /// A tile-part's stated length isn't that of its packets.
    PartLength { part: u8, got: u32 },
    /// Bytes stand behind the end marker.
    After { at: usize },
    /// Want of memory, which no definition speaks of.
    NoMemory,
}

/// What a codestream holds. The values stand in the order of components, sub-bands and rows.
#[derive(Debug, Drop)]
pub struct Coefficients {
    pub shape: Shape,
    pub values: List<i32>,
    pub cut: Option<u32>,
    pub parts: [u32; 3],
    /// The number of code-blocks that packets include.
    pub blocks: u32,
}

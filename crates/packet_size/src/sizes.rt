ghost use Rattle.std.specs.Prelude.{◌≡◌, ◌*◌, ◌≤◌, length};

/// What a packet's header says of a code-block, laid out as in C. Where it isn't included, no other number counts.
#[derive(Clone, Copy, Debug, PartialEq, Eq)]
#[repr(C)]
pub struct BlockSize {
    pub included: bool,
    pub zero_planes: u8,
    pub passes: u8,
    /// The number of its codeword's bytes.
    pub len: u32,
}

/// The code-blocks that a packet has of one sub-band, in raster order: at most four columns and rows.
#[derive(Clone, Copy, Debug)]
pub struct BandSizes<'a> {
    pub columns: usize,
    pub rows: usize,
    pub blocks: &'a [BlockSize],
    pub ghost few_columns: { columns ≤ 4 },
    pub ghost few_rows: { rows ≤ 4 },
    pub ghost whole: { length blocks.now ≡ rows * columns },
}

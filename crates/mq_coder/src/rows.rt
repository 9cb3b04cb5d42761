ghost use Rattle.std.specs.Prelude.{◌<◌};
ghost use Rattle.mq_coder.specs.Rows.{IsRow, IsStep};

/// What Table C.2 says of a state: a row of it and the more probable symbol together.
#[derive(Clone, Copy, Debug)]
pub(crate) struct Row {
    /// The probability of the less probable symbol.
    pub(crate) qe: u32,
    /// The more probable symbol.
    pub(crate) mps: bool,
    /// The state after the more probable symbol.
    pub(crate) after_mps: u8,
    /// The state after the less probable symbol.
    pub(crate) after_lps: u8,
}

/// The states of the contexts 0 to 18 at the start (Table D.7).
pub(crate) const START: [u8; 19] = [8, 0, 0, 0, 0, 0, 0, 0, 0, 0, 0, 0, 0, 0, 0, 0, 0, 6, 92];

/// Table C.2 by states: twice the row's index, and one more where the more probable symbol is 1.
#[rattlefmt::skip]
static ROWS: [Row; 94] = [
    Row { qe: 0x5601, mps: false, after_mps: 2, after_lps: 3 },
    Row { qe: 0x5601, mps: true, after_mps: 3, after_lps: 2 },
    Row { qe: 0x3401, mps: false, after_mps: 4, after_lps: 12 },
    Row { qe: 0x3401, mps: true, after_mps: 5, after_lps: 13 },
    Row { qe: 0x1801, mps: false, after_mps: 6, after_lps: 18 },
    Row { qe: 0x1801, mps: true, after_mps: 7, after_lps: 19 },
    Row { qe: 0x0ac1, mps: false, after_mps: 8, after_lps: 24 },
    Row { qe: 0x0ac1, mps: true, after_mps: 9, after_lps: 25 },
    Row { qe: 0x0521, mps: false, after_mps: 10, after_lps: 58 },
    Row { qe: 0x0521, mps: true, after_mps: 11, after_lps: 59 },
    Row { qe: 0x0221, mps: false, after_mps: 76, after_lps: 66 },
    Row { qe: 0x0221, mps: true, after_mps: 77, after_lps: 67 },
    Row { qe: 0x5601, mps: false, after_mps: 14, after_lps: 13 },
    Row { qe: 0x5601, mps: true, after_mps: 15, after_lps: 12 },
    Row { qe: 0x5401, mps: false, after_mps: 16, after_lps: 28 },
    Row { qe: 0x5401, mps: true, after_mps: 17, after_lps: 29 },
    Row { qe: 0x4801, mps: false, after_mps: 18, after_lps: 28 },
    Row { qe: 0x4801, mps: true, after_mps: 19, after_lps: 29 },
    Row { qe: 0x3801, mps: false, after_mps: 20, after_lps: 28 },
    Row { qe: 0x3801, mps: true, after_mps: 21, after_lps: 29 },
    Row { qe: 0x3001, mps: false, after_mps: 22, after_lps: 34 },
    Row { qe: 0x3001, mps: true, after_mps: 23, after_lps: 35 },
    Row { qe: 0x2401, mps: false, after_mps: 24, after_lps: 36 },
    Row { qe: 0x2401, mps: true, after_mps: 25, after_lps: 37 },
    Row { qe: 0x1c01, mps: false, after_mps: 26, after_lps: 40 },
    Row { qe: 0x1c01, mps: true, after_mps: 27, after_lps: 41 },
    Row { qe: 0x1601, mps: false, after_mps: 58, after_lps: 42 },
    Row { qe: 0x1601, mps: true, after_mps: 59, after_lps: 43 },
    Row { qe: 0x5601, mps: false, after_mps: 30, after_lps: 29 },
    Row { qe: 0x5601, mps: true, after_mps: 31, after_lps: 28 },
    Row { qe: 0x5401, mps: false, after_mps: 32, after_lps: 28 },
    Row { qe: 0x5401, mps: true, after_mps: 33, after_lps: 29 },
    Row { qe: 0x5101, mps: false, after_mps: 34, after_lps: 30 },
    Row { qe: 0x5101, mps: true, after_mps: 35, after_lps: 31 },
    Row { qe: 0x4801, mps: false, after_mps: 36, after_lps: 32 },
    Row { qe: 0x4801, mps: true, after_mps: 37, after_lps: 33 },
    Row { qe: 0x3801, mps: false, after_mps: 38, after_lps: 34 },
    Row { qe: 0x3801, mps: true, after_mps: 39, after_lps: 35 },
    Row { qe: 0x3401, mps: false, after_mps: 40, after_lps: 36 },
    Row { qe: 0x3401, mps: true, after_mps: 41, after_lps: 37 },
    Row { qe: 0x3001, mps: false, after_mps: 42, after_lps: 38 },
    Row { qe: 0x3001, mps: true, after_mps: 43, after_lps: 39 },
    Row { qe: 0x2801, mps: false, after_mps: 44, after_lps: 38 },
    Row { qe: 0x2801, mps: true, after_mps: 45, after_lps: 39 },
    Row { qe: 0x2401, mps: false, after_mps: 46, after_lps: 40 },
    Row { qe: 0x2401, mps: true, after_mps: 47, after_lps: 41 },
    Row { qe: 0x2201, mps: false, after_mps: 48, after_lps: 42 },
    Row { qe: 0x2201, mps: true, after_mps: 49, after_lps: 43 },
    Row { qe: 0x1c01, mps: false, after_mps: 50, after_lps: 44 },
    Row { qe: 0x1c01, mps: true, after_mps: 51, after_lps: 45 },
    Row { qe: 0x1801, mps: false, after_mps: 52, after_lps: 46 },
    Row { qe: 0x1801, mps: true, after_mps: 53, after_lps: 47 },
    Row { qe: 0x1601, mps: false, after_mps: 54, after_lps: 48 },
    Row { qe: 0x1601, mps: true, after_mps: 55, after_lps: 49 },
    Row { qe: 0x1401, mps: false, after_mps: 56, after_lps: 50 },
    Row { qe: 0x1401, mps: true, after_mps: 57, after_lps: 51 },
    Row { qe: 0x1201, mps: false, after_mps: 58, after_lps: 52 },
    Row { qe: 0x1201, mps: true, after_mps: 59, after_lps: 53 },
    Row { qe: 0x1101, mps: false, after_mps: 60, after_lps: 54 },
    Row { qe: 0x1101, mps: true, after_mps: 61, after_lps: 55 },
    Row { qe: 0x0ac1, mps: false, after_mps: 62, after_lps: 56 },
    Row { qe: 0x0ac1, mps: true, after_mps: 63, after_lps: 57 },
    Row { qe: 0x09c1, mps: false, after_mps: 64, after_lps: 58 },
    Row { qe: 0x09c1, mps: true, after_mps: 65, after_lps: 59 },
    Row { qe: 0x08a1, mps: false, after_mps: 66, after_lps: 60 },
    Row { qe: 0x08a1, mps: true, after_mps: 67, after_lps: 61 },
    Row { qe: 0x0521, mps: false, after_mps: 68, after_lps: 62 },
    Row { qe: 0x0521, mps: true, after_mps: 69, after_lps: 63 },
    Row { qe: 0x0441, mps: false, after_mps: 70, after_lps: 64 },
    Row { qe: 0x0441, mps: true, after_mps: 71, after_lps: 65 },
    Row { qe: 0x02a1, mps: false, after_mps: 72, after_lps: 66 },
    Row { qe: 0x02a1, mps: true, after_mps: 73, after_lps: 67 },
    Row { qe: 0x0221, mps: false, after_mps: 74, after_lps: 68 },
    Row { qe: 0x0221, mps: true, after_mps: 75, after_lps: 69 },
    Row { qe: 0x0141, mps: false, after_mps: 76, after_lps: 70 },
    Row { qe: 0x0141, mps: true, after_mps: 77, after_lps: 71 },
    Row { qe: 0x0111, mps: false, after_mps: 78, after_lps: 72 },
    Row { qe: 0x0111, mps: true, after_mps: 79, after_lps: 73 },
    Row { qe: 0x0085, mps: false, after_mps: 80, after_lps: 74 },
    Row { qe: 0x0085, mps: true, after_mps: 81, after_lps: 75 },
    Row { qe: 0x0049, mps: false, after_mps: 82, after_lps: 76 },
    Row { qe: 0x0049, mps: true, after_mps: 83, after_lps: 77 },
    Row { qe: 0x0025, mps: false, after_mps: 84, after_lps: 78 },
    Row { qe: 0x0025, mps: true, after_mps: 85, after_lps: 79 },
    Row { qe: 0x0015, mps: false, after_mps: 86, after_lps: 80 },
    Row { qe: 0x0015, mps: true, after_mps: 87, after_lps: 81 },
    Row { qe: 0x0009, mps: false, after_mps: 88, after_lps: 82 },
    Row { qe: 0x0009, mps: true, after_mps: 89, after_lps: 83 },
    Row { qe: 0x0005, mps: false, after_mps: 90, after_lps: 84 },
    Row { qe: 0x0005, mps: true, after_mps: 91, after_lps: 85 },
    Row { qe: 0x0001, mps: false, after_mps: 90, after_lps: 86 },
    Row { qe: 0x0001, mps: true, after_mps: 91, after_lps: 87 },
    Row { qe: 0x5601, mps: false, after_mps: 92, after_lps: 92 },
    Row { qe: 0x5601, mps: true, after_mps: 93, after_lps: 93 },
];

/// The row of a state.
pub(crate) fn row_of(state: u8) -> Row
    requires { state < 94 }
    ensures { IsRow state result }
{
    ROWS[state as usize]
}

/// What a bit does in a state, as Table C.2 says.
#[derive(Clone, Copy, Debug)]
pub(crate) struct Step {
    /// The probability of the less probable symbol.
    pub(crate) qe: u32,
    /// Whether the bit is the more probable symbol.
    pub(crate) is_mps: bool,
    /// The state after it, where it changes.
    pub(crate) next: u8,
}

/// Table C.2 by states and bits, two states a line: Qe in bits 0 to 15, the next state in bits 16 to 22, and bit 31
/// where the bit is the more probable symbol. In one word, so that a decision looks once.
#[rattlefmt::skip]
static STEPS: [u32; 188] = [
    0x8002_5601, 0x0003_5601, 0x0002_5601, 0x8003_5601,
    0x8004_3401, 0x000c_3401, 0x000d_3401, 0x8005_3401,
    0x8006_1801, 0x0012_1801, 0x0013_1801, 0x8007_1801,
    0x8008_0ac1, 0x0018_0ac1, 0x0019_0ac1, 0x8009_0ac1,
    0x800a_0521, 0x003a_0521, 0x003b_0521, 0x800b_0521,
    0x804c_0221, 0x0042_0221, 0x0043_0221, 0x804d_0221,
    0x800e_5601, 0x000d_5601, 0x000c_5601, 0x800f_5601,
    0x8010_5401, 0x001c_5401, 0x001d_5401, 0x8011_5401,
    0x8012_4801, 0x001c_4801, 0x001d_4801, 0x8013_4801,
    0x8014_3801, 0x001c_3801, 0x001d_3801, 0x8015_3801,
    0x8016_3001, 0x0022_3001, 0x0023_3001, 0x8017_3001,
    0x8018_2401, 0x0024_2401, 0x0025_2401, 0x8019_2401,
    0x801a_1c01, 0x0028_1c01, 0x0029_1c01, 0x801b_1c01,
    0x803a_1601, 0x002a_1601, 0x002b_1601, 0x803b_1601,
    0x801e_5601, 0x001d_5601, 0x001c_5601, 0x801f_5601,
    0x8020_5401, 0x001c_5401, 0x001d_5401, 0x8021_5401,
    0x8022_5101, 0x001e_5101, 0x001f_5101, 0x8023_5101,
    0x8024_4801, 0x0020_4801, 0x0021_4801, 0x8025_4801,
    0x8026_3801, 0x0022_3801, 0x0023_3801, 0x8027_3801,
    0x8028_3401, 0x0024_3401, 0x0025_3401, 0x8029_3401,
    0x802a_3001, 0x0026_3001, 0x0027_3001, 0x802b_3001,
    0x802c_2801, 0x0026_2801, 0x0027_2801, 0x802d_2801,
    0x802e_2401, 0x0028_2401, 0x0029_2401, 0x802f_2401,
    0x8030_2201, 0x002a_2201, 0x002b_2201, 0x8031_2201,
    0x8032_1c01, 0x002c_1c01, 0x002d_1c01, 0x8033_1c01,
    0x8034_1801, 0x002e_1801, 0x002f_1801, 0x8035_1801,
    0x8036_1601, 0x0030_1601, 0x0031_1601, 0x8037_1601,
    0x8038_1401, 0x0032_1401, 0x0033_1401, 0x8039_1401,
    0x803a_1201, 0x0034_1201, 0x0035_1201, 0x803b_1201,
    0x803c_1101, 0x0036_1101, 0x0037_1101, 0x803d_1101,
    0x803e_0ac1, 0x0038_0ac1, 0x0039_0ac1, 0x803f_0ac1,
    0x8040_09c1, 0x003a_09c1, 0x003b_09c1, 0x8041_09c1,
    0x8042_08a1, 0x003c_08a1, 0x003d_08a1, 0x8043_08a1,
    0x8044_0521, 0x003e_0521, 0x003f_0521, 0x8045_0521,
    0x8046_0441, 0x0040_0441, 0x0041_0441, 0x8047_0441,
    0x8048_02a1, 0x0042_02a1, 0x0043_02a1, 0x8049_02a1,
    0x804a_0221, 0x0044_0221, 0x0045_0221, 0x804b_0221,
    0x804c_0141, 0x0046_0141, 0x0047_0141, 0x804d_0141,
    0x804e_0111, 0x0048_0111, 0x0049_0111, 0x804f_0111,
    0x8050_0085, 0x004a_0085, 0x004b_0085, 0x8051_0085,
    0x8052_0049, 0x004c_0049, 0x004d_0049, 0x8053_0049,
    0x8054_0025, 0x004e_0025, 0x004f_0025, 0x8055_0025,
    0x8056_0015, 0x0050_0015, 0x0051_0015, 0x8057_0015,
    0x8058_0009, 0x0052_0009, 0x0053_0009, 0x8059_0009,
    0x805a_0005, 0x0054_0005, 0x0055_0005, 0x805b_0005,
    0x805a_0001, 0x0056_0001, 0x0057_0001, 0x805b_0001,
    0x805c_5601, 0x005c_5601, 0x005d_5601, 0x805d_5601,
];

/// The step of a bit, 0 or 1, in a state.
pub(crate) fn step_of(state: u8, bit: u8) -> Step
    requires state { state < 94 }
    requires bit { bit < 2 }
    ensures { IsStep state bit result }
{
    let step = STEPS[2 * usize::from(state) + usize::from(bit)];
    Step {
        qe: step & 0xffff,
        is_mps: step >> 31 == 1,
        next: (step >> 16 & 0x7f) as u8,
    }
}

//! Keys and labels of sixteen bytes, in groups of four bytes.
ghost use Rattle.std.specs.Prelude.{◌≡◌};
ghost use Rattle.track_terms.specs.Keys as spec;

use klv_base::Key;

/// The first four bytes of each key and label.
pub const LABEL: u32 = 0x060E_2B34;

/// The key of a header partition pack.
pub const HEADER: [u32; 4] = [LABEL, 0x0205_0101, 0x0D01_0201, 0x0102_0400];

/// The key of a body partition pack.
pub const BODY: [u32; 4] = [LABEL, 0x0205_0101, 0x0D01_0201, 0x0103_0400];

/// The key of a footer partition pack.
pub const FOOTER: [u32; 4] = [LABEL, 0x0205_0101, 0x0D01_0201, 0x0104_0400];

/// The key of the primer pack.
pub const PRIMER: [u32; 4] = [LABEL, 0x0205_0101, 0x0D01_0201, 0x0105_0100];

/// The key of the random index pack.
pub const RANDOM_INDEX: [u32; 4] = [LABEL, 0x0205_0101, 0x0D01_0201, 0x0111_0100];

/// The key of an index segment.
pub const INDEX: [u32; 4] = [LABEL, 0x0253_0101, 0x0D01_0201, 0x0110_0100];

/// The key of the fill.
pub const FILL: [u32; 4] = [LABEL, 0x0101_0102, 0x0301_0210, 0x0100_0000];

/// The key of a set, without the byte that says which: that is the last but one.
pub const SET: [u32; 4] = [LABEL, 0x0253_0101, 0x0D01_0101, 0x0101_0000];

/// The first half of a package's identifier (UMID); the other half is a UUID.
pub const UMID: [u32; 4] = [0x060A_2B34, 0x0101_0105, 0x0101_0F20, 0x1300_0000];

/// The label of the operational pattern.
pub const PATTERN: [u32; 4] = [LABEL, 0x0401_0102, 0x0D01_0201, 0x1000_0000];

/// The label of the pictures' coding.
pub const CODING: [u32; 4] = [LABEL, 0x0401_0109, 0x0401_0202, 0x0301_0103];

/// The bytes of a key or a label, each group with its highest byte first.
pub fn key_of(groups: [u32; 4]) -> Key
    ensures { result ≡ spec.key_of groups }
{
    let [a, b, c, d] = groups;
    let [a0, a1, a2, a3] = a.to_be_bytes();
    let [b0, b1, b2, b3] = b.to_be_bytes();
    let [c0, c1, c2, c3] = c.to_be_bytes();
    let [d0, d1, d2, d3] = d.to_be_bytes();
    [
        a0, a1, a2, a3, b0, b1, b2, b3, c0, c1, c2, c3, d0, d1, d2, d3,
    ]
}

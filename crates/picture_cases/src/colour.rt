//! Code values of pixels.
ghost use Rattle.std.specs.Prelude.{◌≤◌};

use std::alloc::Global;
use std::process::Abort;
use std::test::Fail;
use xyz_convert::{Tables, to_xyz_row};

const PIXELS: usize = 12;

/// Black, one step above it, white, the three primaries, a grey and others.
const RAW: [u8; 72] = [
    0x00, 0x00, 0x00, 0x00, 0x00, 0x00, 0x00, 0x01, 0x00, 0x01, 0x00, 0x01, 0xff, 0xff, 0xff, 0xff,
    0xff, 0xff, 0xff, 0xff, 0x00, 0x00, 0x00, 0x00, 0x00, 0x00, 0xff, 0xff, 0x00, 0x00, 0x00, 0x00,
    0x00, 0x00, 0xff, 0xff, 0x80, 0x00, 0x80, 0x00, 0x80, 0x00, 0x47, 0x3d, 0x1d, 0x35, 0xaa, 0x22,
    0xb2, 0xcd, 0x99, 0x50, 0x2e, 0x41, 0x56, 0xbd, 0x9f, 0xc5, 0x00, 0xc6, 0xbb, 0x65, 0x1b, 0x76,
    0xed, 0x19, 0x00, 0x87, 0x04, 0xf7, 0x05, 0x37,
];

const X11: [u16; PIXELS] = [
    0, 0, 3883, 2816, 2666, 2049, 2160, 1640, 2515, 1979, 2681, 112,
];

const Y11: [u16; PIXELS] = [
    0, 0, 3960, 2183, 3480, 1440, 2202, 1233, 2584, 2404, 2018, 129,
];

const Z11: [u16; PIXELS] = [
    0, 0, 4091, 868, 1747, 3883, 2276, 2754, 1419, 1191, 3657, 150,
];

const X12: [u16; PIXELS] = [
    0, 0, 3883, 2816, 2666, 2049, 2048, 1560, 2432, 1889, 2635, 83,
];

const Y12: [u16; PIXELS] = [
    0, 0, 3960, 2183, 3480, 1440, 2088, 1157, 2492, 2310, 1975, 95,
];

const Z12: [u16; PIXELS] = [
    0, 0, 4091, 868, 1747, 3883, 2157, 2667, 1330, 1146, 3634, 111,
];

const X13: [u16; PIXELS] = [
    0, 0, 3883, 2816, 2666, 2049, 1941, 1487, 2354, 1805, 2591, 61,
];

const Y13: [u16; PIXELS] = [
    0, 0, 3960, 2183, 3480, 1440, 1980, 1092, 2403, 2222, 1937, 70,
];

const Z13: [u16; PIXELS] = [
    0, 0, 4091, 868, 1747, 3883, 2045, 2584, 1252, 1104, 3612, 82,
];

fn check(
    rt: &impl Abort,
    alloc: Global,
    power: u8,
    x: &[u16],
    y: &[u16],
    z: &[u16],
) -> Result<(), Fail>
    requires least_power { 11 ≤ power }
    requires greatest_power { power ≤ 13 }
{
    let tables = Tables::new(alloc, power)?;
    let mut scratch = Vec::from_elem(alloc, 0u32, 4 * PIXELS)?;
    let mut row_x = [0u16; PIXELS];
    let mut row_y = [0u16; PIXELS];
    let mut row_z = [0u16; PIXELS];
    to_xyz_row(
        &tables,
        &RAW,
        scratch.as_mut_slice(),
        &mut row_x,
        &mut row_y,
        &mut row_z,
    );
    assert!(rt; row_x.as_slice() == x);
    assert!(rt; row_y.as_slice() == y);
    assert!(rt; row_z.as_slice() == z);
    Ok(())
}

#[test]
fn converts_worked_pixels(rt: HostRuntime) -> Result<(), Fail> {
    let alloc = rt.alloc();
    check(&rt, alloc, 11, &X11, &Y11, &Z11)?;
    check(&rt, alloc, 12, &X12, &Y12, &Z12)?;
    check(&rt, alloc, 13, &X13, &Y13, &Z13)?;
    Ok(())
}

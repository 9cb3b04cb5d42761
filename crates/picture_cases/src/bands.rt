//! Sizes of sub-bands, precincts and code-blocks, the order of packets, and quantised rows.

ghost use Rattle.std.specs.Prelude.{◌≡◌, ◌≤◌, ◌^◌, All, unsigned_abs};

use band_map::{
    BlockGrid, band_size, block_size, blocks_of, packet_at, packet_count, precincts, resolution_of,
};
use codec_terms::{Band, BandKind, Shape};
use quantiser::quantise;
use std::process::Abort;

fn band(level: u8, kind: BandKind) -> Band
    requires least { 1 ≤ level }
    requires greatest { level ≤ 5 }
    ensures { result.level ≡ level }
{
    Band {
        component: 0,
        level,
        kind,
    }
}

#[test]
fn divides_pictures_into_sub_bands(rt: HostRuntime) {
    for (width, height, level, kind, resolution, columns, rows) in [
        (33, 47, 5u8, BandKind::LL, 0, 2, 2),
        (33, 47, 5, BandKind::HL, 1, 1, 2),
        (33, 47, 5, BandKind::LH, 1, 2, 1),
        (33, 47, 3, BandKind::HH, 3, 4, 6),
        (33, 47, 1, BandKind::LH, 5, 17, 23),
        (33, 47, 1, BandKind::HL, 5, 16, 24),
        (32, 32, 5, BandKind::HH, 1, 1, 1),
        (255, 257, 1, BandKind::HL, 5, 127, 129),
        (255, 257, 4, BandKind::LH, 2, 16, 16),
        (1998, 1080, 5, BandKind::HL, 1, 62, 34),
        (1998, 1080, 2, BandKind::LH, 4, 500, 270),
        (2048, 1080, 4, BandKind::LH, 2, 128, 67),
        (2048, 1080, 1, BandKind::HH, 5, 1024, 540),
        (65535, 1, 5, BandKind::HH, 1, 2048, 0),
    ] {
        let band = band(level.clamp(1, 5), kind);
        let size = band_size(Shape { width, height }, band);
        assert!(rt;
            size == (columns, rows),
            "{width} x {height}, level {level}"
        );
        assert!(rt; resolution_of(band) == resolution, "level {level}");
    }
}

#[test]
fn divides_resolutions_into_precincts(rt: HostRuntime) {
    for (width, height, resolution, columns, rows) in [
        (32, 32, 0, 1, 1),
        (33, 257, 5, 1, 2),
        (33, 257, 4, 1, 1),
        (2048, 1080, 0, 1, 1),
        (2048, 1080, 3, 2, 2),
        (2048, 1080, 4, 4, 3),
        (2048, 1080, 5, 8, 5),
        (1998, 858, 5, 8, 4),
        (1998, 858, 3, 2, 1),
        (65535, 4097, 0, 16, 2),
        (65535, 4097, 1, 16, 2),
        (65535, 257, 5, 256, 2),
    ] {
        let got = precincts(Shape { width, height }, resolution);
        assert!(rt;
            got == (columns, rows),
            "{width} x {height}, resolution {resolution}"
        );
    }
}

#[test]
fn divides_precincts_into_code_blocks(rt: HostRuntime) {
    for (width, height, level, kind, precinct, (x, y, columns, rows)) in [
        (2048, 1080, 5u8, BandKind::LL, 0, (0, 0, 2, 2)),
        (2048, 1080, 1, BandKind::HL, 7, (28, 0, 4, 4)),
        (2048, 1080, 1, BandKind::HL, 39, (28, 16, 4, 1)),
        (2048, 1080, 1, BandKind::HH, 9, (4, 4, 4, 4)),
        (2048, 1080, 2, BandKind::LH, 11, (12, 8, 4, 1)),
        (2048, 1080, 3, BandKind::HH, 3, (4, 4, 4, 1)),
        (33, 257, 1, BandKind::HL, 0, (0, 0, 1, 4)),
        (33, 257, 1, BandKind::HL, 1, (0, 4, 1, 1)),
        (33, 257, 1, BandKind::LH, 1, (0, 4, 1, 0)),
        (33, 257, 5, BandKind::HH, 0, (0, 0, 1, 1)),
        (1998, 1080, 1, BandKind::HL, 15, (28, 4, 4, 4)),
    ] {
        let shape = Shape { width, height };
        let band = band(level.clamp(1, 5), kind);
        let (across, down) = precincts(shape, resolution_of(band));
        assert!(rt; precinct < across * down);
        let want = BlockGrid {
            x,
            y,
            columns,
            rows,
        };
        assert!(rt;
            blocks_of(shape, band, precinct) == want,
            "{width} x {height}, level {level}, {precinct}"
        );
    }
}

#[test]
fn cuts_the_last_code_blocks(rt: HostRuntime) {
    let shape = Shape {
        width: 33,
        height: 257,
    };
    assert!(rt; block_size(shape, band(1, BandKind::HL), 0, 0) == (16, 32));
    assert!(rt; block_size(shape, band(1, BandKind::HL), 0, 4) == (16, 1));
    assert!(rt; block_size(shape, band(1, BandKind::LH), 0, 3) == (17, 32));
    assert!(rt; block_size(shape, band(1, BandKind::LH), 1, 4) == (0, 0));
}

/// Checks that a component has these packets and no more.
fn check_packets(rt: &impl Abort, width: u16, height: u16, want: &[(u8, u32)]) {
    let shape = Shape { width, height };
    assert!(rt; packet_count(shape) as usize == want.len());
    let mut n = 0u32;
    for packet in want {
        assert!(rt;
            packet_at(shape, n) == Some(*packet),
            "{width} x {height}, packet {n}"
        );
        n = n.wrapping_add(1);
    }
    assert!(rt; packet_at(shape, n) == None);
    assert!(rt; packet_at(shape, u32::MAX) == None);
}

#[test]
fn orders_packets(rt: HostRuntime) {
    let small = [(0, 0), (1, 0), (2, 0), (3, 0), (4, 0), (5, 0)];
    check_packets(&rt, 32, 32, &small);
    let high = [(0, 0), (1, 0), (2, 0), (3, 0), (4, 0), (5, 0), (5, 1)];
    check_packets(&rt, 33, 257, &high);
    check_packets(&rt, 0, 257, &[]);
    let full = [
        (0, 0),
        (1, 0),
        (2, 0),
        (3, 0),
        (4, 0),
        (5, 0),
        (5, 1),
        (4, 1),
        (5, 2),
        (5, 3),
        (3, 1),
        (4, 2),
        (5, 4),
        (5, 5),
        (4, 3),
        (5, 6),
        (5, 7),
        (5, 8),
        (5, 9),
        (5, 10),
        (5, 11),
        (5, 12),
        (5, 13),
        (5, 14),
        (5, 15),
        (4, 4),
        (5, 16),
        (5, 17),
        (4, 5),
        (5, 18),
        (5, 19),
        (4, 6),
        (5, 20),
        (5, 21),
        (4, 7),
        (5, 22),
        (5, 23),
        (5, 24),
        (5, 25),
        (5, 26),
        (5, 27),
        (5, 28),
        (5, 29),
        (5, 30),
        (5, 31),
        (3, 2),
        (4, 8),
        (5, 32),
        (5, 33),
        (4, 9),
        (5, 34),
        (5, 35),
        (3, 3),
        (4, 10),
        (5, 36),
        (5, 37),
        (4, 11),
        (5, 38),
        (5, 39),
    ];
    check_packets(&rt, 2048, 1080, &full);
}

#[test]
fn orders_the_packets_of_a_large_picture(rt: HostRuntime) {
    let shape = Shape {
        width: 8193,
        height: 4097,
    };
    assert_eq!(rt; packet_count(shape), 786);
    for (n, resolution, precinct) in [
        (37, 5, 16),
        (100, 5, 63),
        (192, 5, 135),
        (193, 3, 10),
        (194, 4, 36),
        (500, 4, 99),
        (785, 5, 560),
    ] {
        assert!(rt;
            packet_at(shape, n) == Some((resolution, precinct)),
            "packet {n}"
        );
    }
}

/// Whether a row of this sample, within the clamp, is quantised to such words.
fn gives(band: Band, sample: i32, word: u16) -> bool {
    let row = row_of(sample);
    let mut words = [0; 19];
    quantise(band, &row, &mut words);
    words == [word; 19]
}

fn row_of(sample: i32) -> [i32; 19]
    ensures { All (λ v. unsigned_abs v ≤ 2 ^ 26) result }
{
    [sample.clamp(-0x400_0000, 0x400_0000); 19]
}

#[test]
fn quantises_rows(rt: HostRuntime) {
    for (kind, level, step, greatest) in [
        (BandKind::LL, 5, 2048, 16383),
        (BandKind::HL, 5, 2304, 29127),
        (BandKind::LH, 5, 2304, 29127),
        (BandKind::HH, 5, 5120, 13107),
        (BandKind::HL, 4, 4608, 14563),
        (BandKind::LH, 4, 4608, 14563),
        (BandKind::HH, 4, 10240, 6553),
        (BandKind::HL, 3, 9216, 7281),
        (BandKind::LH, 3, 9216, 7281),
        (BandKind::HH, 3, 20480, 3276),
        (BandKind::HL, 2, 9216, 7281),
        (BandKind::LH, 2, 9216, 7281),
        (BandKind::HH, 2, 20480, 3276),
        (BandKind::HL, 1, 18432, 3640),
        (BandKind::LH, 1, 18432, 3640),
        (BandKind::HH, 1, 40960, 1638),
    ] {
        let band = Band {
            component: 1,
            level,
            kind,
        };
        assert!(rt; gives(band, 0, 0));
        assert!(rt; gives(band, step - 1, 0), "below step {step}");
        assert!(rt; gives(band, step, 1), "step {step}");
        assert!(rt; gives(band, -step, 0x8001), "step {step}");
        assert!(rt; gives(band, 0x400_0000, greatest), "greatest, step {step}");
        assert!(rt;
            gives(band, -0x400_0000, 0x8000 | greatest),
            "least, step {step}"
        );
    }
}

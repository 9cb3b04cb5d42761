//! Whole pictures, whose coefficients' digests another implementation gave.
ghost use Rattle.std.specs.Prelude.{◌≤◌, ◌<◌};
ghost use Rattle.codec_laws.specs.Bounds.{IsPictureSize};

use codec_terms::{Band, BandKind, Shape};
use picture_bands::PictureBands;
use sample_pictures::{Scene, raw_picture};
use sha1::Sha1;
use std::alloc::Global;
use std::process::Abort;
use std::test::Fail;

/// The digest of values as 32 bits each, the lowest byte first.
fn digest(words: &[u16]) -> [u8; 20] {
    let mut hasher = Sha1::new();
    for word in words {
        let magnitude = i32::from(*word & 0x7fff);
        let value = if *word < 0x8000 {
            magnitude
        } else {
            -magnitude
        };
        hasher.update(&value.to_le_bytes());
    }
    hasher.finalize()
}

/// Checks that a component's sub-bands stand one behind another from a place on, and gives the place behind them.
fn check_component(rt: &impl Abort, bands: &PictureBands, component: u8, start: usize) -> usize
    requires { component < 3 }
{
    let mut end = start;
    for step in 0..5u8 {
        let level = 5 - step;
        for kind in [BandKind::LL, BandKind::HL, BandKind::LH, BandKind::HH] {
            if kind != BandKind::LL || level == 5 {
                let words = bands.band(Band {
                    component,
                    level,
                    kind,
                });
                let next = end.saturating_add(words.len());
                assert!(rt;
                    bands.words().get(end..next) == Some(words),
                    "{component}, level {level}"
                );
                end = next;
            }
        }
    }
    end
}

fn check(
    rt: &impl Abort,
    alloc: Global,
    scene: Scene,
    shape: Shape,
    power: u8,
    want: &[u8; 20],
) -> Result<(), Fail>
    requires size { IsPictureSize shape }
    requires least_power { 11 ≤ power }
    requires greatest_power { power ≤ 13 }
{
    let raw = raw_picture(alloc, scene, shape)?;
    let mut bands = PictureBands::new(alloc, shape, power)?;
    assert!(rt; raw.len() == usize::from(shape.width) * usize::from(shape.height) * 6);
    bands.transform(&raw);
    assert!(rt; &digest(bands.words()) == want, "{scene:?}");
    let second = check_component(rt, &bands, 0, 0);
    let third = check_component(rt, &bands, 1, second);
    assert!(rt;
        check_component(rt, &bands, 2, third) == bands.words().len(),
        "{scene:?}"
    );
    Ok(())
}

#[test]
fn transforms_pictures(rt: HostRuntime) -> Result<(), Fail> {
    let alloc = rt.alloc();
    let edges = [
        0xb4, 0x29, 0xe7, 0x6f, 0x41, 0x32, 0xea, 0xe7, 0xbc, 0xc3, 0x3b, 0x0f, 0xfc, 0x03, 0xb7,
        0x44, 0x5d, 0x7b, 0x10, 0x0e,
    ];
    check(
        &rt,
        alloc,
        Scene::Edges,
        Shape {
            width: 129,
            height: 33,
        },
        13,
        &edges,
    )?;
    let gradient = [
        0x99, 0x13, 0xdd, 0x76, 0x57, 0x99, 0xc2, 0xcc, 0x81, 0xb2, 0x1a, 0x8a, 0x99, 0xc2, 0x77,
        0x66, 0x54, 0xea, 0x55, 0x00,
    ];
    check(
        &rt,
        alloc,
        Scene::Gradient,
        Shape {
            width: 100,
            height: 300,
        },
        12,
        &gradient,
    )?;
    let checker = [
        0xd6, 0x1d, 0x77, 0x7e, 0x3d, 0x8c, 0x55, 0xa6, 0x09, 0x2a, 0xef, 0xe0, 0x63, 0xa4, 0x96,
        0x58, 0x5c, 0x95, 0x73, 0xee,
    ];
    check(
        &rt,
        alloc,
        Scene::Checker,
        Shape {
            width: 64,
            height: 64,
        },
        13,
        &checker,
    )?;
    Ok(())
}

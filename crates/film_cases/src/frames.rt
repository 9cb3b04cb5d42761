//! Raw frames of a project's assets.

ghost use Rattle.std.specs.Prelude.{◌<◌};

use film_project::{Asset, AssetKind};
use film_reader::read_project;
use mast_base::{Bytes, List};
use mast_world::{MemFile, MemSource};
use raw_frames::{FrameRefusal, read_frame};
use std::alloc::{AllocError, Global};
use std::process::Abort;
use std::test::Fail;

const TWO_ASSETS: &str =
    "{\"title\":\"Test\",\"kind\":\"test\",\"issued\":\"2024-05-01T12:00:00\",\"namespace\":\"6ba7b810-9dad-11d1-80b4-00c04fd430c8\",\"width\":32,\"height\":32,\"fps\":24,\"rate\":250,\"power\":11,\"channels\":0,\"frames\":24,\"assets\":[{\"id\":\"a\",\"kind\":\"rgb48\",\"file\":\"a.rgb\"},{\"id\":\"p\",\"kind\":\"ppm\",\"file\":\"p\"}],\"picture\":[],\"sound\":[]}";

/// The bytes of a frame.
const SIZE: u64 = 6144;

fn put_file(
    alloc: Global,
    files: &mut List<MemFile>,
    name: &[u8],
    front: &[u8],
    behind: u64,
    fill: u8,
) -> Result<(), AllocError> {
    files.push(MemFile {
        name: Bytes::copy_of(alloc, name)?,
        size: behind.saturating_add(front.len() as u64),
        fill,
        bytes: Bytes::copy_of(alloc, front)?,
    })?;
    Ok(())
}

/// A file of two frames and a half, and a folder whose pictures 3 and 4 are there, the second one cut short.
fn folder(alloc: Global) -> Result<MemSource, AllocError> {
    let mut files = List::new(alloc);
    put_file(alloc, &mut files, b"a.rgb", b"", SIZE * 5 / 2, 7)?;
    put_file(
        alloc,
        &mut files,
        b"p/000003.ppm",
        b"P6 32 32 65535\n",
        SIZE,
        9,
    )?;
    put_file(
        alloc,
        &mut files,
        b"p/000004.ppm",
        b"P6 32 32 65535\n",
        SIZE - 1,
        9,
    )?;
    Ok(MemSource::new(files, List::new(alloc)))
}

fn expect_frame(
    rt: &impl Abort,
    alloc: Global,
    source: &mut MemSource,
    asset: &Asset,
    index: u32,
    told: Result<u8, FrameRefusal>,
)
    requires { index < 10000000 }
{
    if asset.kind == AssetKind::J2c || asset.kind == AssetKind::Pcm24 {
        assert!(rt; false, "no asset of raw frames");
        return;
    }
    let mut frame = Bytes::new(alloc);
    let read = read_frame(alloc, source, asset, index, 32, 32, &mut frame);
    match told {
        Ok(fill) => {
            assert_eq!(rt; read, Ok(()));
            assert_eq!(rt; frame.len(), 6144);
            assert!(rt; frame.as_slice().iter().all(|byte| *byte == fill));
        }
        Err(refusal) => {
            assert_eq!(rt; read, Err(refusal));
            assert_eq!(rt; frame.len(), 0);
        }
    }
}

#[test]
fn frames_of_assets_are_read_or_refused(rt: HostRuntime) -> Result<(), Fail> {
    let alloc = rt.alloc();
    let Ok(project) = read_project(alloc, TWO_ASSETS.as_bytes()) else {
        assert!(rt; false, "the project is refused");
        return Ok(());
    };
    let [file, pictures] = project.assets.as_slice() else {
        assert!(rt; false, "there aren't two assets");
        return Ok(());
    };
    let mut source = folder(alloc)?;
    let short = FrameRefusal::Short {
        size: SIZE * 5 / 2,
        need: SIZE * 3,
    };
    let cut = FrameRefusal::Short {
        size: SIZE + 14,
        need: SIZE + 15,
    };
    expect_frame(&rt, alloc, &mut source, file, 0, Ok(7));
    expect_frame(&rt, alloc, &mut source, file, 1, Ok(7));
    expect_frame(&rt, alloc, &mut source, file, 2, Err(short));
    expect_frame(&rt, alloc, &mut source, pictures, 3, Ok(9));
    expect_frame(&rt, alloc, &mut source, pictures, 4, Err(cut));
    expect_frame(
        &rt,
        alloc,
        &mut source,
        pictures,
        5,
        Err(FrameRefusal::Missing),
    );
    Ok(())
}

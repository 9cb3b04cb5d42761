//! Codestreams of pictures that are made by rule, at several cuts: prints the length and the SHA-1 of each, and writes them
//! into a folder where one is named.
#![tactic(auto)]

mod picture;

ghost use Rattle.std.specs.Prelude.{◌≤◌};
ghost use Rattle.codec_laws.specs.Bounds.{IsPictureSize};

use crate::picture::coded_picture;
use cinema_stream::{higher_cut_laws, stream_at};
use codec_terms::Shape;
use sample_pictures::Scene;
use sha1::Sha1;
use std::alloc::{AllocError, Global};
use std::rt::Env;
use std::{env, fs, io};

// At the last cut no code-block is left.
const LAST_CUT: u32 = 720;

/// A picture by what it shows, its size, and five times the exponent of its colours.
#[derive(Clone, Copy, Debug)]
struct Sample {
    scene: Scene,
    shape: Shape,
    power: u8,
}

/// Bytes in hexadecimal digits.
fn hexadecimal(alloc: Global, bytes: &[u8]) -> Result<String, AllocError> {
    let mut text = String::new(alloc);
    for byte in bytes {
        text.push_str(format!(in alloc; "{byte:02x}")?.as_str())?;
    }
    Ok(text)
}

/// The name of a sample's codestream.
fn name_of(alloc: Global, sample: &Sample, cut: u32) -> Result<String, AllocError> {
    let scene = match sample.scene {
        Scene::Checker => "checker",
        Scene::Edges => "edges",
        Scene::Gradient => "gradient",
    };
    let (width, height) = (sample.shape.width, sample.shape.height);
    format!(in alloc; "{scene}-{width}x{height}-{cut}")
}

/// Tells of one codestream, and writes it.
fn tell(rt: &HostRuntime, name: &str, stream: &[u8], folder: Option<&str>) -> io::Result<()> {
    let alloc = rt.alloc();
    let mut hasher = Sha1::new();
    hasher.update(stream);
    let digest = hexadecimal(alloc, &hasher.finalize())?;
    let len = stream.len();
    println!(rt; "{name}: {len} bytes, {digest}")?;
    let Some(folder) = folder else {
        return Ok(());
    };
    let path = format!(in alloc; "{folder}/{name}.j2c")?;
    fs::write(rt, path.as_str(), stream)
}

/// Makes the codestreams of a sample at these cuts.
fn make_streams(
    rt: &HostRuntime,
    sample: &Sample,
    cuts: &[u32],
    folder: Option<&str>,
) -> io::Result<()>
    requires size { IsPictureSize sample.now.shape }
    requires least_power { 11 ≤ sample.now.power }
    requires greatest_power { sample.now.power ≤ 13 }
{
    higher_cut_laws();
    let alloc = rt.alloc();
    let Ok(blocks) = coded_picture(alloc, sample.scene, sample.shape, sample.power) else {
        return Err(AllocError.into());
    };
    for cut in cuts {
        let cut = (*cut).min(LAST_CUT);
        let Ok(stream) = stream_at(alloc, &blocks, cut) else {
            return Err(AllocError.into());
        };
        let name = name_of(alloc, sample, cut)?;
        tell(rt, name.as_str(), stream.as_slice(), folder)?;
    }
    Ok(())
}

fn main(rt: HostRuntime) -> io::Result<()> {
    let cuts = [0, 1, 48, 97, 300, 500, 719, 720];
    let named = env::args(&rt)?.nth(1);
    let folder = named.as_ref().map(|name| name.as_str());
    let edges = Sample {
        scene: Scene::Edges,
        shape: Shape {
            width: 129,
            height: 33,
        },
        power: 13,
    };
    make_streams(&rt, &edges, &cuts, folder)?;
    let gradient = Sample {
        scene: Scene::Gradient,
        shape: Shape {
            width: 100,
            height: 300,
        },
        power: 12,
    };
    make_streams(&rt, &gradient, &cuts, folder)?;
    let checker = Sample {
        scene: Scene::Checker,
        shape: Shape {
            width: 64,
            height: 64,
        },
        power: 13,
    };
    make_streams(&rt, &checker, &cuts, folder)?;
    let bricks = Sample {
        scene: Scene::Edges,
        shape: Shape {
            width: 1001,
            height: 501,
        },
        power: 13,
    };
    make_streams(&rt, &bricks, &[214], folder)?;
    let large = Sample {
        scene: Scene::Gradient,
        shape: Shape {
            width: 2048,
            height: 1080,
        },
        power: 11,
    };
    make_streams(&rt, &large, &[0], folder)
}

//! Pictures for tests and samples, made by rule.
#![tactic(auto)]

ghost use Rattle.std.specs.Prelude.{◌≡◌, ◌*◌, IfOk, length};

use codec_terms::Shape;
use mast_base::NoMemory;
use std::alloc::Global;

/// What a picture shows.
#[derive(Clone, Copy, Debug, PartialEq, Eq)]
pub enum Scene {
    /// Black and white pixels by turns.
    Checker,
    /// Magenta in a circle, outside of it bricks in green and yellow.
    Edges,
    /// Red grows to the right, green downwards, blue in both directions.
    Gradient,
}

/// A value's share of the greatest sample.
fn share(value: u32, most: u32) -> u16 {
    let share = u64::from(value) * 65_535 / u64::from(most.max(1));
    share.min(65_535) as u16
}

fn squared(n: u16) -> u32 {
    u32::from(n) * u32::from(n)
}

fn is_in_circle(shape: Shape, x: u16, y: u16) -> bool {
    let across = squared(x.abs_diff(shape.width / 2));
    let down = squared(y.abs_diff(shape.height / 2));
    let radius = squared(shape.width.min(shape.height) / 3);
    u64::from(across) + u64::from(down) < u64::from(radius)
}

fn edge_pixel(shape: Shape, x: u16, y: u16) -> (u16, u16, u16) {
    if is_in_circle(shape, x, y) {
        (0xffff, 0, 0xffff)
    } else if (x / 7 + y / 5) % 2 == 1 {
        (0, 0xffff, 0)
    } else {
        (0xffff, 0xffff, 0)
    }
}

fn pixel(scene: Scene, shape: Shape, x: u16, y: u16) -> (u16, u16, u16) {
    match scene {
        Scene::Checker if x % 2 == y % 2 => (0, 0, 0),
        Scene::Checker => (0xffff, 0xffff, 0xffff),
        Scene::Edges => edge_pixel(shape, x, y),
        Scene::Gradient => {
            let right = u32::from(shape.width.saturating_sub(1));
            let bottom = u32::from(shape.height.saturating_sub(1));
            let (x, y) = (u32::from(x), u32::from(y));
            (
                share(x, right),
                share(y, bottom),
                share(x + y, right + bottom),
            )
        }
    }
}

/// The raw bytes of a picture of a scene: rows from the top, six bytes for each pixel.
pub fn raw_picture(alloc: Global, scene: Scene, shape: Shape) -> Result<Vec<u8>, NoMemory>
    ensures { IfOk result (λ raw. length raw.items ≡ shape.width * shape.height * 6) }
{
    let mut raw = Vec::new(alloc);
    for y in 0..shape.height {
        for x in 0..shape.width {
            let (red, green, blue) = pixel(scene, shape, x, y);
            raw.extend_from_slice(&red.to_be_bytes())?;
            raw.extend_from_slice(&green.to_be_bytes())?;
            raw.extend_from_slice(&blue.to_be_bytes())?;
        }
    }
    Ok(raw)
}

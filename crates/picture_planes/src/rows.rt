ghost use Rattle.std.specs.Prelude.{◌≡◌, ◌*◌, ◌<◌, ◌≤◌, [], ◌∷◌, length, All, IfOk};
ghost use Rattle.codec_terms.specs.Encode.{component_planes, picture_planes};

use dwt97::{chroma_blue_row, chroma_red_row, luma_row};
use mast_base::NoMemory;
use std::alloc::Global;
use std::marker::Model;
use xyz_convert::{Tables, to_xyz_row};

/// Room for a row of pixels on its way from raw bytes to its components. Contracts see the number of pixels.
#[derive(Debug, Drop)]
pub struct PixelRows {
    width: usize,
    light: Vec<u32>,
    x: Vec<u16>,
    y: Vec<u16>,
    z: Vec<u16>,
}

impl Model for PixelRows {
    ghost use Rattle.std.specs.Prelude.{ℕ};

    ghost Value = { ℕ };

    ghost use Rattle.picture_planes.specs.Room.{IsRoom};

    ghost view = { λ rows. rows.width };

    ghost invariant = { IsRoom };
}

// The three components of a row.
fn components_row(
    x: &[u16],
    y: &[u16],
    z: &[u16],
    luma: &mut [i32],
    chroma_blue: &mut [i32],
    chroma_red: &mut [i32],
)
    requires y { length y.now ≡ length x.now }
    requires z { length z.now ≡ length x.now }
    requires luma { length luma.old ≡ length x.now }
    requires chroma_blue { length chroma_blue.old ≡ length x.now }
    requires chroma_red { length chroma_red.old ≡ length x.now }
    requires x_codes { All (λ code. code < 4096) x.now }
    requires y_codes { All (λ code. code < 4096) y.now }
    requires z_codes { All (λ code. code < 4096) z.now }
    ensures { luma.new ∷ chroma_blue.new ∷ chroma_red.new ∷ [] ≡ component_planes x.now y.now z.now }
{
    luma_row(luma, x, y, z);
    chroma_blue_row(chroma_blue, x, y, z);
    chroma_red_row(chroma_red, x, y, z);
}

impl PixelRows {
    /// Room for rows of so many pixels, 22 bytes for each.
    pub fn new(alloc: Global, width: usize) -> Result<Self, NoMemory>
        requires { width ≤ 2048 }
        ensures { IfOk result (λ rows. rows ≡ width) }
    {
        let light = Vec::from_elem(alloc, 0u32, 4 * width)?;
        let x = Vec::from_elem(alloc, 0u16, width)?;
        let y = Vec::from_elem(alloc, 0u16, width)?;
        let z = Vec::from_elem(alloc, 0u16, width)?;
        Ok(PixelRows {
            width,
            light,
            x,
            y,
            z,
        })
    }

    pub fn width(&self) -> usize
        ensures { result ≡ self.now }
    {
        self.width
    }

    /// The components of a row of pixels.
    pub(crate) fn fill_row(
        &mut self,
        tables: &Tables,
        rgb: &[u8],
        luma: &mut [i32],
        chroma_blue: &mut [i32],
        chroma_red: &mut [i32],
    )
        requires whole { length rgb.now ≡ 6 * self.old }
        requires luma { length luma.old ≡ self.old }
        requires chroma_blue { length chroma_blue.old ≡ self.old }
        requires chroma_red { length chroma_red.old ≡ self.old }
        ensures width { self.new ≡ self.old }
        ensures planes { luma.new ∷ chroma_blue.new ∷ chroma_red.new ∷ [] ≡ picture_planes tables.now rgb.now }
    {
        let (light, x, y, z) = (&mut self.light, &mut self.x, &mut self.y, &mut self.z);
        to_xyz_row(tables, rgb, light, x, y, z);
        components_row(x, y, z, luma, chroma_blue, chroma_red);
    }
}

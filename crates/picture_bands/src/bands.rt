ghost use Rattle.std.specs.Prelude.{◌≡◌, ◌*◌, ◌≤◌, [], ◌∷◌, length, map, All, IfOk};
ghost use Rattle.codec_terms.specs.Bands.{band_length, band_values};
ghost use Rattle.codec_terms.specs.Encode.{wave, quantised_planes, coefficients};
ghost use Rattle.codec_laws.specs.Bounds.{IsPictureSize, IsClamped};
ghost use Rattle.quantiser.specs.Signed.{signed_values};
ghost use Rattle.wave_level.specs.Component.{room_for};
ghost use Rattle.band_starts.specs.Places.{IsPictureBand};

use band_starts::{band_length, band_start, picture_area};
use codec_terms::{Band, Shape};
use mast_base::NoMemory;
use picture_planes::{PixelRows, fill_planes};
use std::alloc::Global;
use std::marker::Model;
use wave_level::{room_length, sub_bands};
use xyz_convert::Tables;

/// The quantised sub-bands of a picture, and all the memory that making them takes: about 20 bytes for each pixel, 43 MB
/// at 2048 × 1080. A word has a coefficient's sign in bit 15 and its magnitude below.
#[derive(Debug, Drop)]
pub struct PictureBands {
    shape: Shape,
    tables: Tables,
    rows: PixelRows,
    luma: Vec<i32>,
    chroma_blue: Vec<i32>,
    chroma_red: Vec<i32>,
    room: Vec<i32>,
    words: Vec<u16>,
}

impl Model for PictureBands {
    ghost use Rattle.picture_bands.specs.Words.{PictureWords};
    ghost use Rattle.picture_bands.specs.Sound.{IsSound};

    ghost Value = { PictureWords };

    ghost view = { λ bands. record { shape = bands.shape; power = bands.tables; words = bands.words.items } };

    ghost invariant = { IsSound };
}

impl PictureBands {
    /// Room for pictures of this size and colour power.
    pub fn new(alloc: Global, shape: Shape, power: u8) -> Result<Self, NoMemory>
        requires size { IsPictureSize shape }
        requires least_power { 11 ≤ power }
        requires greatest_power { power ≤ 13 }
        ensures shape { IfOk result (λ bands. bands.shape ≡ shape) }
        ensures power { IfOk result (λ bands. bands.power ≡ power) }
    {
        let area = picture_area(shape);
        let tables = Tables::new(alloc, power)?;
        let rows = PixelRows::new(alloc, usize::from(shape.width))?;
        let luma = Vec::from_elem(alloc, 0i32, area)?;
        let chroma_blue = Vec::from_elem(alloc, 0i32, area)?;
        let chroma_red = Vec::from_elem(alloc, 0i32, area)?;
        let room = Vec::from_elem(alloc, 0i32, room_length(shape))?;
        let words = Vec::from_elem(alloc, 0u16, 3 * area)?;
        Ok(PictureBands {
            shape,
            tables,
            rows,
            luma,
            chroma_blue,
            chroma_red,
            room,
            words,
        })
    }

    /// The size of the pictures.
    pub fn shape(&self) -> Shape
        ensures { result ≡ self.now.shape }
    {
        self.shape
    }

    /// Makes the sub-bands of a picture from its raw bytes: rows from the top, six bytes for each pixel, red, green and
    /// blue, the higher byte first.
    pub fn transform(&mut self, raw: &[u8])
        requires whole { length raw.now ≡ self.old.shape.width * self.old.shape.height * 6 }
        ensures shape { self.new.shape ≡ self.old.shape }
        ensures power { self.new.power ≡ self.old.power }
        ensures words { signed_values self.new.words ≡ coefficients self.old.shape self.old.power raw.now }
    {
        let shape = self.shape;
        let height = usize::from(shape.height);
        let luma = self.luma.as_mut_slice();
        let chroma_blue = self.chroma_blue.as_mut_slice();
        let chroma_red = self.chroma_red.as_mut_slice();
        fill_planes(
            &self.tables,
            raw,
            height,
            &mut self.rows,
            luma,
            chroma_blue,
            chroma_red,
        );
        take_apart(
            shape,
            luma,
            chroma_blue,
            chroma_red,
            &mut self.room,
            &mut self.words,
        );
    }

    /// The words of all sub-bands: those of component 0 first, in each LL and then HL, LH and HH of levels 5 to 1, in
    /// raster order.
    pub fn words(&self) -> &[u16]
        ensures words { result.now ≡ self.now.words }
        ensures size { length result.now ≡ 3 * (self.now.shape.width * self.now.shape.height) }
    {
        &self.words
    }

    /// The words of one sub-band, row by row.
    pub fn band(&self, band: Band) -> &[u16]
        requires { IsPictureBand band }
        ensures values { signed_values result.now ≡ band_values self.now.shape (signed_values self.now.words) band }
        ensures size { length result.now ≡ band_length self.now.shape band }
    {
        let start = band_start(self.shape, band);
        &self.words[start..start + band_length(self.shape, band)]
    }
}

// The words of the three components' sub-bands, one behind another.
fn take_apart(
    shape: Shape,
    luma: &mut [i32],
    chroma_blue: &mut [i32],
    chroma_red: &mut [i32],
    room: &mut [i32],
    words: &mut [u16],
)
    requires size { IsPictureSize shape }
    requires luma { length luma.old ≡ shape.width * shape.height }
    requires chroma_blue { length chroma_blue.old ≡ shape.width * shape.height }
    requires chroma_red { length chroma_red.old ≡ shape.width * shape.height }
    requires luma_clamped { All IsClamped luma.old }
    requires blue_clamped { All IsClamped chroma_blue.old }
    requires red_clamped { All IsClamped chroma_red.old }
    requires room { room_for shape ≤ length room.old }
    requires words { length words.old ≡ 3 * (shape.width * shape.height) }
    ensures { signed_values words.new
        ≡ quantised_planes shape (map (wave shape) (luma.old ∷ chroma_blue.old ∷ chroma_red.old ∷ [])) }
{
    let area = picture_area(shape);
    let (luma_words, rest) = words.split_at_mut(area);
    let (blue_words, red_words) = rest.split_at_mut(area);
    sub_bands(0, shape, luma, room, luma_words);
    sub_bands(1, shape, chroma_blue, room, blue_words);
    sub_bands(2, shape, chroma_red, room, red_words);
}

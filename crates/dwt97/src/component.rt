ghost use Rattle.std.specs.Prelude.{◌≡◌, ◌<◌, ℕ, ℤ, length, All};
ghost use Rattle.codec_terms.specs.Wavelet.{component, shifted, luma, chroma_blue, chroma_red};

// A code value after the level shift.
fn level_shifted(code: u16) -> i32
    requires { code < 4096 }
    ensures { result ≡ shifted code }
{
    i32::from(code) - 2048
}

fn luma_of(x: u16, y: u16, z: u16) -> i32
    requires x { x < 4096 }
    requires y { y < 4096 }
    requires z { z < 4096 }
    ensures { result ≡ luma (shifted x) (shifted y) (shifted z) }
{
    (level_shifted(x) * 19595 + level_shifted(y) * 38470 + level_shifted(z) * 7471) >> 3
}

fn chroma_blue_of(x: u16, y: u16, z: u16) -> i32
    requires x { x < 4096 }
    requires y { y < 4096 }
    requires z { z < 4096 }
    ensures { result ≡ chroma_blue (shifted x) (shifted y) (shifted z) }
{
    (level_shifted(x) * -11059 - level_shifted(y) * 21709 + level_shifted(z) * 32768) >> 3
}

fn chroma_red_of(x: u16, y: u16, z: u16) -> i32
    requires x { x < 4096 }
    requires y { y < 4096 }
    requires z { z < 4096 }
    ensures { result ≡ chroma_red (shifted x) (shifted y) (shifted z) }
{
    (level_shifted(x) * 32768 - level_shifted(y) * 27439 - level_shifted(z) * 5329) >> 3
}

/// The samples of component 0 of a row, from its code values of X', Y' and Z' (Annex G.3).
#[inline(never)]
pub fn luma_row(row: &mut [i32], xs: &[u16], ys: &[u16], zs: &[u16])
    requires row { length row.old ≡ length xs.now }
    requires ys { length ys.now ≡ length xs.now }
    requires zs { length zs.now ≡ length xs.now }
    requires x_codes { All (λ code. code < 4096) xs.now }
    requires y_codes { All (λ code. code < 4096) ys.now }
    requires z_codes { All (λ code. code < 4096) zs.now }
    ensures { row.new ≡ component luma xs.now ys.now zs.now }
{
    for i in 0..row.len() {
        row[i] = luma_of(xs[i], ys[i], zs[i]);
    }
}

/// The samples of component 1 of a row, from its code values of X', Y' and Z' (Annex G.3).
#[inline(never)]
pub fn chroma_blue_row(row: &mut [i32], xs: &[u16], ys: &[u16], zs: &[u16])
    requires row { length row.old ≡ length xs.now }
    requires ys { length ys.now ≡ length xs.now }
    requires zs { length zs.now ≡ length xs.now }
    requires x_codes { All (λ code. code < 4096) xs.now }
    requires y_codes { All (λ code. code < 4096) ys.now }
    requires z_codes { All (λ code. code < 4096) zs.now }
    ensures { row.new ≡ component chroma_blue xs.now ys.now zs.now }
{
    for i in 0..row.len() {
        row[i] = chroma_blue_of(xs[i], ys[i], zs[i]);
    }
}

/// The samples of component 2 of a row, from its code values of X', Y' and Z' (Annex G.3).
#[inline(never)]
pub fn chroma_red_row(row: &mut [i32], xs: &[u16], ys: &[u16], zs: &[u16])
    requires row { length row.old ≡ length xs.now }
    requires ys { length ys.now ≡ length xs.now }
    requires zs { length zs.now ≡ length xs.now }
    requires x_codes { All (λ code. code < 4096) xs.now }
    requires y_codes { All (λ code. code < 4096) ys.now }
    requires z_codes { All (λ code. code < 4096) zs.now }
    ensures { row.new ≡ component chroma_red xs.now ys.now zs.now }
{
    for i in 0..row.len() {
        row[i] = chroma_red_of(xs[i], ys[i], zs[i]);
    }
}

ghost use Rattle.std.specs.Prelude.{◌≡◌, ◌+◌, ◌≤◌, ◌==◌, true, length, Ok};
ghost use Rattle.codec_terms.specs.MainReading.{marker_at};
ghost use Rattle.codec_terms.specs.Reading.{on_ok};

use crate::field::number_at;
use codec_terms::MarkerRefusal;

/// Start of the codestream.
pub(crate) const SOC: u16 = 0xff4f;
/// Picture and tile size.
pub(crate) const SIZ: u16 = 0xff51;
/// Coding style.
pub(crate) const COD: u16 = 0xff52;
/// Quantisation.
pub(crate) const QCD: u16 = 0xff5c;
/// Lengths of the tile-parts.
pub(crate) const TLM: u16 = 0xff55;
/// Comment.
pub(crate) const COM: u16 = 0xff64;
/// Start of a tile-part.
pub(crate) const SOT: u16 = 0xff90;
/// Start of a tile-part's packets.
pub(crate) const SOD: u16 = 0xff93;
/// End of the codestream.
pub(crate) const EOC: u16 = 0xffd9;

/// The marker at a place, whichever it is.
pub(crate) fn marker_at(bytes: &[u8], at: usize) -> Result<u16, MarkerRefusal>
    requires { at ≤ length bytes.now }
    ensures { result ≡ marker_at bytes.now (λ m. true) at }
{
    if bytes.len() < at + 2 {
        return Err(MarkerRefusal::Truncated { at: bytes.len() });
    }
    Ok(number_at(bytes, at, 2) as u16)
}

/// The place behind this marker, the only one that may stand there.
pub(crate) fn marker_end(bytes: &[u8], marker: u16, at: usize) -> Result<usize, MarkerRefusal>
    requires { at ≤ length bytes.now }
    ensures { result ≡ on_ok (marker_at bytes.now (λ m. m == marker) at) (λ m. Ok (at + 2)) }
{
    let got = marker_at(bytes, at)?;
    if got != marker {
        return Err(MarkerRefusal::Marker { at, got });
    }
    Ok(at + 2)
}

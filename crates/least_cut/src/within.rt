ghost use Rattle.std.specs.Prelude.{◌≡◌, ◌↔◌, IsTrue, ℕ, ℤ, List};
ghost use Rattle.codec_terms.specs.declared.picture.Shape.{Shape};
ghost use Rattle.codec_terms.specs.Cut.{IsWithin};
ghost use Rattle.cinema_stream.specs.Sizes.{AreSizesOf};

use cinema_stream::Sizes;
use mast_base::Limits;

/// Whether a codestream of these sizes, and each of its three tile-parts, is within the limits.
pub fn is_within(sizes: Sizes, limits: Limits) -> bool
    ensures { (shape : Shape) (q : List ℤ) (cut : ℕ) → AreSizesOf shape q cut sizes
        → (IsTrue result ↔ IsWithin limits shape q cut) }
{
    sizes.whole <= limits.frame && sizes.parts.iter().all(|part| *part <= limits.component)
}

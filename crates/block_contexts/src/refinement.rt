ghost use Rattle.std.specs.Prelude.{◌≡◌, ◌+◌};
ghost use Rattle.codec_terms.specs.Contexts.{refine_context};
ghost use Rattle.block_contexts.specs.Words.{horizontal_of, vertical_of, diagonal_of};

/// The context of a further bit of a significant sample; `first` tells whether it is the first one (ITU-T T.800,
/// table D.4).
pub fn refine_context(word: u16, first: bool) -> u8
    ensures { result ≡ refine_context first (horizontal_of word + vertical_of word + diagonal_of word) }
{
    if !first {
        16
    } else if word & 0xff == 0 {
        14
    } else {
        15
    }
}

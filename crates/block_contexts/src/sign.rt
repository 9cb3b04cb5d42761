ghost use Rattle.std.specs.Prelude.{◌≡◌, ◌+◌, ◌*◌};
ghost use Rattle.std.specs.Int.{from_bool};
ghost use Rattle.codec_terms.specs.Contexts.{sign_context};
ghost use Rattle.block_contexts.specs.Words.{horizontal_sign_of, vertical_sign_of};

/// Twice the sign's context, and one more where the sign is coded the other way round: by a byte of the
/// significance of the neighbours left, right, above and below, and from bit 4 on of their signs.
#[rattlefmt::skip]
static SIGNS: [u8; 256] = [
    18, 24, 24, 24, 20, 26, 26, 26, 20, 26, 26, 26, 20, 26, 26, 26,
    18, 25, 24, 18, 20, 23, 26, 20, 20, 23, 26, 20, 20, 23, 26, 20,
    18, 24, 25, 18, 20, 26, 23, 20, 20, 26, 23, 20, 20, 26, 23, 20,
    18, 25, 25, 25, 20, 23, 23, 23, 20, 23, 23, 23, 20, 23, 23, 23,
    18, 24, 24, 24, 21, 22, 22, 22, 20, 26, 26, 26, 18, 24, 24, 24,
    18, 25, 24, 18, 21, 27, 22, 21, 20, 23, 26, 20, 18, 25, 24, 18,
    18, 24, 25, 18, 21, 22, 27, 21, 20, 26, 23, 20, 18, 24, 25, 18,
    18, 25, 25, 25, 21, 27, 27, 27, 20, 23, 23, 23, 18, 25, 25, 25,
    18, 24, 24, 24, 20, 26, 26, 26, 21, 22, 22, 22, 18, 24, 24, 24,
    18, 25, 24, 18, 20, 23, 26, 20, 21, 27, 22, 21, 18, 25, 24, 18,
    18, 24, 25, 18, 20, 26, 23, 20, 21, 22, 27, 21, 18, 24, 25, 18,
    18, 25, 25, 25, 20, 23, 23, 23, 21, 27, 27, 27, 18, 25, 25, 25,
    18, 24, 24, 24, 21, 22, 22, 22, 21, 22, 22, 22, 21, 22, 22, 22,
    18, 25, 24, 18, 21, 27, 22, 21, 21, 27, 22, 21, 21, 27, 22, 21,
    18, 24, 25, 18, 21, 22, 27, 21, 21, 22, 27, 21, 21, 22, 27, 21,
    18, 25, 25, 25, 21, 27, 27, 27, 21, 27, 27, 27, 21, 27, 27, 27,
];

/// Twice the context of a sample's sign, and one more where the sign is coded the other way round.
pub fn sign_code(word: u16) -> u8
    ensures { result ≡ 2 * (sign_context (horizontal_sign_of 8 word) (vertical_sign_of 8 word)).context
        + from_bool (sign_context (horizontal_sign_of 8 word) (vertical_sign_of 8 word)).flips }
{
    SIGNS[(word & 15 | word >> 4 & 0xf0) as usize]
}

/// The context of a sample's sign, and whether the sign is coded the other way round (ITU-T T.800, tables D.2
/// and D.3).
pub fn sign_context(word: u16) -> (u8, bool)
    ensures context { result.0 ≡ (sign_context (horizontal_sign_of 8 word) (vertical_sign_of 8 word)).context }
    ensures flips { result.1 ≡ (sign_context (horizontal_sign_of 8 word) (vertical_sign_of 8 word)).flips }
{
    let code = sign_code(word);
    (code / 2, code % 2 == 1)
}

//! Laws of the arithmetic coder's definitions (ITU-T T.800, Annex C). They name no code, so that a change of the
//! coder proves none of them again.
#![tactic(auto)]

ghost use Rattle.std.specs.Prelude.{◌≡◌, ◌+◌, ◌*◌, ◌≤◌, List, ◌++◌, length};
ghost use Rattle.codec_terms.specs.Mq.{Decision, contexts_of, bits_of, codeword, decoded, coded, coded_from};
ghost use Rattle.mq_laws.specs.Ready.{Ready};

/// Between decisions the encoder's registers are ready for any decision, and the codeword of decisions, read in
/// their contexts in order, gives their bits. Coding goes on from where it was.
pub fn coder_laws()
    ensures ready { (ds : List Decision) → Ready (coded ds).registers }
    ensures read_back { (ds : List Decision) → decoded (codeword ds) (contexts_of ds) ≡ bits_of ds }
    ensures further { (ds es : List Decision) → coded_from (coded ds) es ≡ coded (ds ++ es) }
{}

/// The bytes that came out of the encoder. Further decisions take none away, and each brings at most two, up to one
/// byte on the whole. A flush adds one or two, so that a codeword of more decisions is shorter by at most one.
pub fn length_laws()
    ensures more { (ds es : List Decision)
        → length (coded ds).registers.bytes ≤ length (coded (ds ++ es)).registers.bytes }
    ensures flush_least { (ds : List Decision) → length (coded ds).registers.bytes + 1 ≤ length (codeword ds) }
    ensures flush_most { (ds : List Decision) → length (codeword ds) ≤ length (coded ds).registers.bytes + 2 }
    ensures codewords { (ds es : List Decision) → length (codeword ds) ≤ length (codeword (ds ++ es)) + 1 }
    ensures most { (ds : List Decision) → length (coded ds).registers.bytes ≤ 2 * length ds }
    ensures most_further { (ds es : List Decision)
        → length (coded (ds ++ es)).registers.bytes ≤ length (coded ds).registers.bytes + 2 * length es + 1 }
{}

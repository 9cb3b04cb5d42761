ghost use Rattle.std.specs.Prelude.{◌≡◌, ◌+◌, ◌≤◌, ◌<◌, IfOk, IfErr, OnOk, OnErr, Ok, Err, length};
ghost use Rattle.codec_terms.specs.declared.packet.HeadRefusal.TheVariants.{LengthPast};
ghost use Rattle.packet_scan.specs.Scanning.{ends_read};

use codec_terms::HeadRefusal;

// The place behind a codeword.
fn codeword_end(bytes: &[u8], at: usize, size: u32) -> Result<usize, HeadRefusal>
    ensures end { IfOk result (λ end. end ≡ at + size) }
    ensures within { OnOk result (at + size ≤ length bytes.now) }
    ensures past { OnErr result (length bytes.now < at + size) }
    ensures refused { IfErr result (λ refusal. refusal ≡ LengthPast at size) }
{
    match at.checked_add(size as usize) {
        Some(end) if end <= bytes.len() => Ok(end),
        _ => Err(HeadRefusal::LengthPast { at, n: size }),
    }
}

/// The place behind codewords of these lengths, of which the first begins at a place.
pub(crate) fn codewords_end(bytes: &[u8], sizes: &[u32], start: usize) -> Result<usize, HeadRefusal>
    ensures end { IfOk result (λ end. ends_read (length bytes.now) sizes.now start ≡ Ok end) }
    ensures refused { IfErr result (λ refusal. ends_read (length bytes.now) sizes.now start ≡ Err refusal) }
{
    let mut at = start;
    for size in sizes {
        at = codeword_end(bytes, at, *size)?;
    }
    Ok(at)
}

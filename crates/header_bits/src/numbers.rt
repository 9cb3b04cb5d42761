ghost use Rattle.std.specs.Prelude.{◌≡◌, ◌≤◌, ◌<◌, ◌+◌, ◌*◌, ◌^◌, IfOk, IfErr, Ok, Err, length};
ghost use Rattle.codec_terms.specs.PacketReading.{number_read, pass_count_read, ones_read, size_read};

use crate::place::BitPlace;
use codec_terms::HeadRefusal;

// A number with so many bits more.
fn joined(n: u32, bits: u32, more: u32) -> u32
    requires few { bits ≤ 8 }
    requires fits { n * 2 ^ bits + more < 2 ^ 32 }
    ensures { result ≡ n * 2 ^ bits + more }
{
    (n << bits) + more
}

/// Reads a number of so many bits, the highest first.
pub(crate) fn read_number(bytes: &[u8], place: &mut BitPlace, bits: u32) -> Result<u32, HeadRefusal>
    requires { bits ≤ 32 }
    ensures read { IfOk result (λ n. number_read bytes.now bits 0 place.old ≡ Ok (n, place.new)) }
    ensures fits { IfOk result (λ n. n < 2 ^ bits) }
    ensures refused { IfErr result (λ refusal. number_read bytes.now bits 0 place.old ≡ Err refusal) }
{
    let mut n = 0;
    let mut more = bits;
    while place.left() < more {
        let left = place.left();
        n = joined(n, left, place.take_bits(left));
        more -= left;
        place.read_byte(bytes)?;
    }
    Ok(joined(n, more, place.take_bits(more)))
}

/// Reads a number of passes (table B.4).
#[tactic(auto, unfolding(codec_terms::specs::PacketReading::pass_count_read))]
pub(crate) fn read_passes(bytes: &[u8], place: &mut BitPlace) -> Result<u32, HeadRefusal>
    ensures read { IfOk result (λ n. pass_count_read bytes.now place.old ≡ Ok (n, place.new)) }
    ensures some { IfOk result (λ n. 1 ≤ n) }
    ensures few { IfOk result (λ n. n ≤ 164) }
    ensures refused { IfErr result (λ refusal. pass_count_read bytes.now place.old ≡ Err refusal) }
{
    if !place.read_bit(bytes)? {
        return Ok(1);
    }
    if !place.read_bit(bytes)? {
        return Ok(2);
    }
    let above_three = read_number(bytes, place, 2)?;
    if above_three < 3 {
        return Ok(3 + above_three);
    }
    let above_six = read_number(bytes, place, 5)?;
    if above_six < 31 {
        return Ok(6 + above_six);
    }
    let above_thirty_seven = read_number(bytes, place, 7)?;
    Ok(37 + above_thirty_seven)
}

// Reads the ones up to the next zero, and gives their number. There are no more than bits, whose number 64 bits hold.
fn read_ones(bytes: &[u8], place: &mut BitPlace) -> Result<u64, HeadRefusal>
    requires bounded { length bytes.now ≤ 2 ^ 60 }
    ensures read { IfOk result (λ n. ones_read bytes.now place.old ≡ Ok (n, place.new)) }
    ensures few { IfOk result (λ n. n ≤ 2 ^ 63) }
    ensures refused { IfErr result (λ refusal. ones_read bytes.now place.old ≡ Err refusal) }
{
    let most = 8 * bytes.len() as u64;
    for ones in 0..most {
        if !place.read_bit(bytes)? {
            return Ok(ones);
        }
    }
    Ok(most)
}

/// Reads the length of a codeword of so many passes (B.10.7).
pub(crate) fn read_size(bytes: &[u8], place: &mut BitPlace, passes: u32) -> Result<u32, HeadRefusal>
    requires some { 1 ≤ passes }
    requires bounded { length bytes.now ≤ 2 ^ 60 }
    ensures read { IfOk result (λ n. size_read bytes.now passes place.old ≡ Ok (n, place.new)) }
    ensures refused { IfErr result (λ refusal. size_read bytes.now passes place.old ≡ Err refusal) }
{
    let bits = 3 + read_ones(bytes, place)? + u64::from(u64::from(passes).ilog2());
    if 32 < bits {
        return Err(HeadRefusal::WideLength {
            at: place.here(),
            n: bits,
        });
    }
    read_number(bytes, place, bits as u32)
}

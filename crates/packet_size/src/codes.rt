ghost use Rattle.std.specs.Prelude.{◌≡◌, ◌+◌, ◌-◌, ◌^◌, ◌<◌, ◌≤◌};
ghost use Rattle.codec_terms.specs.Bits.{low_bits, log2, bit_length};
ghost use Rattle.codec_terms.specs.PacketHeader.{pass_bits, length_bits};
ghost use Rattle.packet_size.specs.Counting.{counted};

use crate::counter::BitCounter;

/// A codeword: the lowest `bits` bits of a number.
#[derive(Clone, Copy, Debug)]
struct Code {
    bits: u32,
    value: u32,
}

// The codeword of a number of passes (table B.4).
fn pass_code(passes: u32) -> Code
    requires some { 1 ≤ passes }
    requires few { passes ≤ 164 }
    ensures code { low_bits result.bits result.value ≡ pass_bits passes }
    ensures few { result.bits ≤ 16 }
    ensures small { result.value < 2 ^ result.bits }
{
    if passes <= 1 {
        Code { bits: 1, value: 0 }
    } else if passes <= 2 {
        Code { bits: 2, value: 2 }
    } else if passes <= 5 {
        Code {
            bits: 4,
            value: 12 + (passes - 3),
        }
    } else if passes <= 36 {
        Code {
            bits: 9,
            value: 480 + (passes - 6),
        }
    } else {
        Code {
            bits: 16,
            value: 65408 + (passes - 37),
        }
    }
}

/// Takes the codeword of a number of passes.
pub(crate) fn put_passes(counter: &mut BitCounter, passes: u32)
    requires some { 1 ≤ passes }
    requires few { passes ≤ 164 }
    requires room { counter.old.bytes < 2 ^ 62 }
    ensures bits { counter.new ≡ counted counter.old (pass_bits passes) }
    ensures few { counter.new.bytes ≤ counter.old.bytes + 16 }
{
    let code = pass_code(passes);
    counter.put(code.bits, code.value);
}

// The logarithm to base 2, rounded down.
fn log2(n: u32) -> u32
    requires { n < 256 }
    ensures log { result ≡ log2 n }
    ensures few { result ≤ 7 }
{
    (64 - u64::from(n).leading_zeros()).saturating_sub(1)
}

// By how much Lblock grows for a length, where the passes have this logarithm.
fn growth(log: u32, len: u32) -> u32
    requires { log ≤ 7 }
    ensures growth { result ≡ bit_length len - (3 + log) }
    ensures few { result ≤ 29 }
    ensures field { 3 + result + log ≤ 32 }
    ensures fits { len < 2 ^ (3 + result + log) }
{
    (64 - u64::from(len).leading_zeros()).saturating_sub(3 + log)
}

/// Takes the length of a codeword of so many passes (B.10.7).
pub(crate) fn put_length(counter: &mut BitCounter, passes: u32, len: u32)
    requires few { passes ≤ 164 }
    requires room { counter.old.bytes < 2 ^ 62 }
    ensures bits { counter.new ≡ counted counter.old (length_bits passes len) }
    ensures few { counter.new.bytes ≤ counter.old.bytes + 64 }
{
    let log = log2(passes);
    let growth = growth(log, len);
    counter.put(growth + 1, ((1 << growth) - 1) << 1);
    counter.put(3 + growth + log, len);
}

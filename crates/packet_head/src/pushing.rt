ghost use Rattle.std.specs.Prelude.{◌≡◌, ◌++◌, ◌≤◌, OnOk, IfOk, true, replicate};
ghost use Rattle.codec_terms.specs.Bits.{low_bits};
ghost use Rattle.codec_terms.specs.PacketHeader.{pass_bits, length_bits};

use crate::log::log2;
use mast_base::{List, NoMemory};
use std::alloc::Global;

// Puts so many ones behind the bits.
fn push_ones(out: &mut List<bool>, n: u32) -> Result<(), NoMemory>
    ensures { OnOk result (out.new ≡ out.old ++ replicate n true) }
{
    for _ in 0..n {
        out.push(true)?;
    }
    Ok(())
}

// Puts the lowest so many bits of the number behind the bits, the highest first.
fn push_low_bits(out: &mut List<bool>, bits: u32, n: u64) -> Result<(), NoMemory>
    requires { bits ≤ 64 }
    ensures { OnOk result (out.new ≡ out.old ++ low_bits bits n) }
{
    for at in 0..bits {
        out.push(n >> (bits - 1 - at) & 1 == 1)?;
    }
    Ok(())
}

/// Puts the codeword of a number of passes (table B.4) behind the bits.
pub(crate) fn push_passes(out: &mut List<bool>, passes: u32) -> Result<(), NoMemory>
    requires some { 1 ≤ passes }
    requires few { passes ≤ 164 }
    ensures { OnOk result (out.new ≡ out.old ++ pass_bits passes) }
{
    if passes <= 1 {
        out.push(false)?;
    } else if passes <= 2 {
        out.push(true)?;
        out.push(false)?;
    } else if passes <= 5 {
        push_ones(out, 2)?;
        push_low_bits(out, 2, u64::from(passes - 3))?;
    } else if passes <= 36 {
        push_ones(out, 4)?;
        push_low_bits(out, 5, u64::from(passes - 6))?;
    } else {
        push_ones(out, 9)?;
        push_low_bits(out, 7, u64::from(passes - 37))?;
    }
    Ok(())
}

/// The codeword of a number of passes, which is 1 to 164 (table B.4).
pub fn pass_bits(alloc: Global, passes: u32) -> Result<List<bool>, NoMemory>
    requires some { 1 ≤ passes }
    requires few { passes ≤ 164 }
    ensures { IfOk result (λ bits. bits ≡ pass_bits passes) }
{
    let mut bits = List::new(alloc);
    push_passes(&mut bits, passes)?;
    Ok(bits)
}

/// Puts the length of a codeword of so many passes behind the bits (B.10.7).
pub(crate) fn push_length(out: &mut List<bool>, passes: u32, len: usize) -> Result<(), NoMemory>
    ensures { OnOk result (out.new ≡ out.old ++ length_bits passes len) }
{
    let log = log2(passes);
    let growth = (64 - (len as u64).leading_zeros()).saturating_sub(3 + log);
    push_ones(out, growth)?;
    out.push(false)?;
    push_low_bits(out, 3 + growth + log, len as u64)
}

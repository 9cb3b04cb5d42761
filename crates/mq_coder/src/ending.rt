ghost use Rattle.std.specs.Prelude.{◌≡◌, ◌+◌, ◌*◌, ◌<◌, IfOk, OnOk, OnErr, ℕ, List, ◌++◌, length, reverse};
ghost use Rattle.codec_terms.specs.Mq.{Decision, behind, coded, coded_from, codeword};
ghost use Rattle.mq_coder.specs.Endings.{Continues, ending_of, interval_at};
ghost use Rattle.mq_coder.specs.Marks.{mark_of};

use crate::interval::{Interval, last_of};
use crate::output::Output;
use crate::tail::{end_with, tail_of};
use mast_base::{Bytes, NoMemory};
use std::alloc::Global;

/// The registers of an encoder at a place where its codeword may end.
#[derive(Clone, Copy, Debug, PartialEq, Eq)]
pub struct Ending {
    /// The length of the codeword that ends there.
    pub length: u32,
    /// The register A in the low 16 bits. Bit 24 is set where a byte has come out, and then bits 16 to 23
    /// are the last such byte.
    pub a: u32,
    /// The register C.
    pub c: u32,
    /// The register CT.
    pub ct: u8,
    /// The number of bytes in front of the last one.
    pub kept: u32,
}

// Set in `Ending::a` where a byte has come out.
const BYTE_CAME: u32 = 0x100_0000;

/// The last byte in bits 16 to 23 and a bit above it, or 0 where there is no byte.
pub(crate) fn last_mark(bytes: &[u8]) -> u32
    ensures { result ≡ mark_of (reverse bytes.now) }
{
    if bytes.len() == 0 {
        return 0;
    }
    BYTE_CAME + u32::from(last_of(bytes)) * 0x1_0000
}

/// The number of bytes in front of the last one.
pub(crate) fn front_len(bytes: &[u8]) -> usize
    ensures { result ≡ length (behind (reverse bytes.now)) }
{
    bytes.len().saturating_sub(1)
}

/// Puts the bytes that had come out, up to a carry, in the place of others. After `NoMemory` those are as they were.
pub(crate) fn begin(out: &mut Output, bytes: &[u8], ending: &Ending) -> Result<(), NoMemory>
    requires { (ds : List Decision) × Continues ds bytes.now ending.now }
    ensures ok { (ds : List Decision) → Continues ds bytes.now ending.now →
        OnOk result (reverse out.new ≡ (coded ds).registers.bytes) }
    ensures err { OnErr result (out.new ≡ out.old) }
{
    let last = if ending.a < BYTE_CAME {
        None
    } else {
        Some((ending.a >> 16 & 0xff) as u8)
    };
    out.refill(&bytes[..ending.kept as usize], last)?;
    Ok(())
}

/// The interval at an ending.
pub(crate) fn interval_of(ending: &Ending) -> Interval
    ensures { result ≡ interval_at ending.now }
{
    Interval {
        a: ending.a & 0xffff,
        c: ending.c,
        ct: u32::from(ending.ct),
    }
}

/// The codeword of the decisions at which the ending was taken, where `bytes` begins with the `kept` bytes
/// of that encoder.
pub fn flushed(alloc: Global, bytes: &[u8], ending: &Ending) -> Result<Bytes, NoMemory>
    requires { (ds : List Decision) × Continues ds bytes.now ending.now }
    ensures { (ds : List Decision) → Continues ds bytes.now ending.now → IfOk result (λ out. out ≡ codeword ds) }
{
    let mut out = Output::new(alloc);
    begin(&mut out, bytes, ending)?;
    let tail = tail_of(last_of(out.as_slice()), interval_of(ending));
    end_with(&mut out, tail)?;
    Ok(out.into_bytes())
}

/// An ending goes on over the bytes that its encoder has put out, then or at any later time, whatever stands behind
/// them.
pub fn ending_laws()
    ensures now { (ds : List Decision) (rest : List ℕ)
        → Continues ds (reverse (coded ds).registers.bytes ++ rest) (ending_of (coded ds)) }
    ensures later { (ds later : List Decision) (rest : List ℕ)
        → Continues ds (reverse (coded_from (coded ds) later).registers.bytes ++ rest) (ending_of (coded ds)) }
{}

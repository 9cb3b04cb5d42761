ghost use Rattle.std.specs.Prelude.{◌≡◌, ◌+◌, ◌-◌, ◌*◌, ◌/◌, ◌%◌, ◌^◌, ◌<◌, ◌≤◌, ◌∷◌, IfOk, OnOk, OnErr, ℕ, List, length, reverse};
ghost use Rattle.codec_terms.specs.Mq.{last_byte, renormalised};
ghost use Rattle.mq_coder.specs.Bytes.{with_last, registers_of, IsGrown, IsNext, doublings};
ghost use Rattle.mq_laws.specs.Parts.{part_kept};
ghost use Rattle.mq_laws.specs.Ready.{Valid};

use crate::output::Output;
use mast_base::NoMemory;

/// The interval A, the code register C, and the doublings CT before the next byte.
#[derive(Clone, Copy, Debug)]
pub(crate) struct Interval {
    pub(crate) a: u32,
    pub(crate) c: u32,
    pub(crate) ct: u32,
}

/// The first interval (INITENC, C.2.8).
pub(crate) const FIRST: Interval = Interval {
    a: 0x8000,
    c: 0,
    ct: 12,
};

/// A byte that comes out, and what it leaves.
#[derive(Clone, Copy, Debug)]
pub(crate) struct NextByte {
    /// The byte before it, after a carry.
    pub(crate) last: u8,
    pub(crate) byte: u8,
    pub(crate) c: u32,
    pub(crate) ct: u32,
}

// A byte of eight bits.
fn whole_byte(last: u8, c: u32) -> NextByte
    ensures last { result.last ≡ last }
    ensures byte { result.byte ≡ c / 0x80000 % 0x100 }
    ensures c { result.c ≡ c % 0x80000 }
    ensures ct { result.ct ≡ 8 }
{
    NextByte {
        last,
        byte: (c >> 19 & 0xff) as u8,
        c: c & 0x7_ffff,
        ct: 8,
    }
}

// A byte of seven bits, and a carry above them.
fn stuffed_byte(last: u8, c: u32) -> NextByte
    requires { c < 2 ^ 28 }
    ensures last { result.last ≡ last }
    ensures byte { result.byte ≡ c / 0x100000 }
    ensures c { result.c ≡ c % 0x100000 }
    ensures ct { result.ct ≡ 7 }
{
    NextByte {
        last,
        byte: (c >> 20) as u8,
        c: c & 0xf_ffff,
        ct: 7,
    }
}

/// The byte that comes out behind `last`, which is 0 where there is none (BYTEOUT, C.2.7).
pub(crate) fn next_byte(last: u8, c: u32) -> NextByte
    requires { c < 2 ^ 28 }
    ensures out { IsNext last c result }
    ensures room { result.c * 2 ^ result.ct < 2 ^ 28 }
    ensures shifts { result.ct ≤ 8 }
{
    if last == 0xff {
        stuffed_byte(last, c)
    } else if c < 0x800_0000 {
        whole_byte(last, c)
    } else if last == 0xfe {
        stuffed_byte(0xff, c & 0x7ff_ffff)
    } else {
        whole_byte(last + 1, c)
    }
}

/// The last of the bytes, 0 where there is none.
pub(crate) fn last_of(bytes: &[u8]) -> u8
    ensures { result ≡ last_byte (reverse bytes.now) }
{
    match bytes {
        [] => 0,
        [.., last] => *last,
    }
}

/// Puts the byte behind the others, the last one of which becomes `last`.
pub(crate) fn put(bytes: &mut Output, last: u8, byte: u8) -> Result<(), NoMemory>
    ensures ok { OnOk result (reverse bytes.new ≡ byte ∷ with_last last (reverse bytes.old)) }
    ensures err { OnErr result (bytes.new ≡ bytes.old) }
{
    let len = bytes.len();
    bytes.push(byte)?;
    if 0 < len {
        bytes.set(len - 1, last);
    }
    Ok(())
}

/// Takes away the bytes that came behind the first `len`, the last of which was `last`.
pub(crate) fn restore(bytes: &mut Output, len: usize, last: u8)
    requires { len ≤ length bytes.old }
    ensures { (before : List ℕ) → length before ≡ len → last_byte (reverse before) ≡ last → IsGrown before bytes.old
        → bytes.new ≡ before }
{
    bytes.truncate(len);
    if 0 < len {
        bytes.set(len - 1, last);
    }
}

/// The interval after doublings that need no byte.
pub(crate) fn shifted(at: Interval, shift: u32) -> Interval
    requires few { shift ≤ at.ct }
    requires shifts { at.ct ≤ 12 }
    ensures a { result.a ≡ at.a * 2 ^ shift % 2 ^ 32 }
    ensures c { result.c ≡ at.c * 2 ^ shift % 2 ^ 32 }
    ensures ct { result.ct ≡ at.ct - shift }
{
    Interval {
        a: at.a << shift,
        c: at.c << shift,
        ct: at.ct - shift,
    }
}

/// The interval after `shift` doublings, with the bytes that they put out (RENORME, C.2.6).
/// After `NoMemory` the bytes are as they were.
pub(crate) fn doubled(bytes: &mut Output, at: Interval, shift: u32) -> Result<Interval, NoMemory>
    requires valid { Valid (registers_of at bytes.old) }
    requires narrow { at.a * 2 ^ shift < 2 ^ 16 }
    ensures ok { IfOk result (λ r. doublings shift (registers_of at bytes.old) ≡ registers_of r bytes.new) }
    ensures err { OnErr result (bytes.new ≡ bytes.old) }
{
    if shift < at.ct {
        return Ok(shifted(at, shift));
    }
    let len = bytes.len();
    let last = last_of(bytes.as_slice());
    let next = next_byte(last, at.c << at.ct);
    put(bytes, next.last, next.byte)?;
    let rest = Interval {
        a: at.a << at.ct,
        c: next.c,
        ct: next.ct,
    };
    let left = shift - at.ct;
    if left < rest.ct {
        return Ok(shifted(rest, left));
    }
    match doubled(bytes, rest, left) {
        Ok(done) => Ok(done),
        Err(NoMemory) => {
            restore(bytes, len, last);
            Err(NoMemory)
        }
    }
}

/// The interval after as many doublings as bring A to 8000, with the bytes that they put out (RENORME, C.2.6).
/// After `NoMemory` the bytes are as they were.
pub(crate) fn renormalise(bytes: &mut Output, at: Interval) -> Result<Interval, NoMemory>
    requires { Valid (registers_of at bytes.old) }
    ensures ok { IfOk result (λ r. renormalised 15 (registers_of at bytes.old) ≡ registers_of r bytes.new) }
    ensures err { OnErr result (bytes.new ≡ bytes.old) }
{
    let shift = at.a.leading_zeros() - 16;
    if shift < at.ct {
        return Ok(shifted(at, shift));
    }
    // By its fields: a struct that is copied whole goes through memory here.
    let whole = Interval {
        a: at.a,
        c: at.c,
        ct: at.ct,
    };
    doubled(bytes, whole, shift)
}

/// The part of the interval that a decision keeps (CODEMPS and CODELPS, C.2.4): the upper one for the more probable
/// symbol and the lower one for the other, except where the upper one is narrower than Qe and they change places. By
/// masks, since a branch here goes either way about as often.
pub(crate) fn part_of(at: Interval, qe: u32, is_mps: bool) -> Interval
    requires qe { qe ≤ 0x5601 }
    requires wide { 0x8000 ≤ at.a }
    requires narrow { at.a < 2 ^ 16 }
    requires code { at.c < 2 ^ 28 }
    ensures { (bytes : List ℕ) → registers_of result bytes ≡ part_kept is_mps qe (registers_of at bytes) }
{
    // Below zero where the upper part is the narrower one.
    let wider_by = at.a.wrapping_sub(2 * qe);
    let upper = if (wider_by >> 31 == 1) != is_mps {
        0xffff_ffff
    } else {
        0
    };
    Interval {
        a: qe.wrapping_add(wider_by & upper),
        c: at.c + (qe & upper),
        ct: at.ct,
    }
}

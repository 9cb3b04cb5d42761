ghost use Rattle.std.specs.Prelude.{◌≡◌, ◌*◌, ◌+◌, ◌-◌, ◌^◌, ◌%◌, ◌<◌, ◌≤◌, ℕ};
ghost use Rattle.codec_terms.specs.Mq.{next_byte, behind, byte_in, renormalised_reading, part_read};
ghost use Rattle.mq_coder.specs.Sources.{reading_of, reading_at, read_doublings};
ghost use Rattle.mq_coder.specs.declared.source.Source.{Source};

use crate::interval::{Interval, shifted};

/// The current byte of a codeword, and those behind it.
#[derive(Clone, Copy, Debug)]
pub(crate) struct Source<'a> {
    pub(crate) current: u8,
    pub(crate) rest: &'a [u8],
}

/// The code register with a byte more, and the doublings before the next one.
#[derive(Clone, Copy, Debug)]
pub(crate) struct Input {
    pub(crate) c: u32,
    pub(crate) ct: u32,
}

/// The next byte, which is FF behind the end, and the bytes behind it.
pub(crate) fn split(bytes: &[u8]) -> (u8, &[u8])
    ensures byte { result.0 ≡ next_byte bytes.now }
    ensures rest { result.1.now ≡ behind bytes.now }
{
    match bytes {
        [] => (0xff, bytes),
        [byte, rest @ ..] => (*byte, rest),
    }
}

/// Takes the next byte in (BYTEIN, C.3.4).
pub(crate) fn take_byte(source: &mut Source<'_>, c: u32) -> Input
    ensures byte { (a ct : ℕ) → reading_at a result.c result.ct source.new ≡ byte_in (reading_at a c ct source.old) }
    ensures low { 7 ≤ result.ct }
    ensures high { result.ct ≤ 8 }
{
    let (byte, rest) = split(source.rest);
    if source.current != 0xff {
        source.current = byte;
        source.rest = rest;
        return Input {
            c: c.wrapping_add(u32::from(byte) << 8),
            ct: 8,
        };
    }
    if 0x8f < byte {
        return Input {
            c: c.wrapping_add(0xff00),
            ct: 8,
        };
    }
    source.current = byte;
    source.rest = rest;
    Input {
        c: c.wrapping_add(u32::from(byte) << 9),
        ct: 7,
    }
}

/// The interval after `shift` doublings, with the bytes that they take in (RENORMD, C.3.3).
pub(crate) fn read_on(source: &mut Source<'_>, at: Interval, shift: u32) -> Interval
    requires narrow { at.a * 2 ^ shift < 2 ^ 16 }
    requires positive { 0 < at.a }
    requires shifts { at.ct ≤ 8 }
    ensures on { reading_of result source.new ≡ read_doublings shift (reading_of at source.old) }
    ensures shifts { result.ct ≤ 8 }
{
    if shift <= at.ct {
        return shifted(at, shift);
    }
    let whole = shifted(at, at.ct);
    let input = take_byte(source, whole.c);
    let next = Interval {
        a: whole.a,
        c: input.c,
        ct: input.ct,
    };
    read_on(source, next, shift - at.ct)
}

/// The interval after as many doublings as bring A to 8000.
pub(crate) fn renormalise(source: &mut Source<'_>, at: Interval) -> Interval
    requires positive { 0 < at.a }
    requires low { at.a < 0x8000 }
    requires shifts { at.ct ≤ 8 }
    ensures on { reading_of result source.new ≡ renormalised_reading 15 (reading_of at source.old) }
    ensures shifts { result.ct ≤ 8 }
    ensures wide { 0x8000 ≤ result.a }
    ensures narrow { result.a < 2 ^ 16 }
{
    let shift = at.a.leading_zeros() - 16;
    if shift <= at.ct {
        return shifted(at, shift);
    }
    let whole = Interval {
        a: at.a,
        c: at.c,
        ct: at.ct,
    };
    read_on(source, whole, shift)
}

/// The part of the interval in which the register lies (DECODE, C.3.2).
pub(crate) fn part_of(at: Interval, qe: u32) -> Interval
    requires qe { qe ≤ 0x5601 }
    requires wide { 0x8000 ≤ at.a }
    ensures part { (source : Source) → reading_of result source ≡ part_read qe (reading_of at source) }
    ensures ct { result.ct ≡ at.ct }
{
    if at.c >> 16 < qe {
        return Interval { a: qe, ..at };
    }
    Interval {
        a: at.a - qe,
        c: at.c - (qe << 16),
        ct: at.ct,
    }
}

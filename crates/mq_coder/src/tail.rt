ghost use Rattle.std.specs.Prelude.{◌≡◌, ◌+◌, ◌*◌, ◌^◌, ◌<◌, ◌≤◌, ◌∷◌, OnOk, reverse};
ghost use Rattle.codec_terms.specs.Mq.{without_last_ff};
ghost use Rattle.mq_coder.specs.Bytes.{with_last};
ghost use Rattle.mq_coder.specs.Tails.{IsTail};
ghost use Rattle.mq_coder.specs.Values.{flushed_value};

use crate::interval::{Interval, next_byte, put};
use crate::output::Output;
use mast_base::NoMemory;

/// What a flush makes of the last byte, and the two bytes that it puts behind it.
#[derive(Clone, Copy, Debug)]
pub(crate) struct Tail {
    pub(crate) last: u8,
    pub(crate) first: u8,
    pub(crate) second: u8,
}

// The value of the interval with as many low ones as can be (SETBITS, C.2.9).
fn value_of(a: u32, c: u32) -> u32
    requires { c + a < 2 ^ 32 }
    ensures { result ≡ flushed_value a c }
{
    let value = c | 0xffff;
    if value < c + a { value } else { value - 0x8000 }
}

/// How a flush ends the bytes, the last of which is `last`, or 0 where there is none (FLUSH, C.2.9).
pub(crate) fn tail_of(last: u8, at: Interval) -> Tail
    requires wide { 0x8000 ≤ at.a }
    requires narrow { at.a < 2 ^ 16 }
    requires shifts { at.ct ≤ 12 }
    requires within { (at.c + at.a) * 2 ^ at.ct ≤ 0x9000000 }
    ensures { IsTail last at result }
{
    let first = next_byte(last, value_of(at.a, at.c) << at.ct);
    let second = next_byte(first.byte, first.c << first.ct);
    Tail {
        last: first.last,
        first: second.last,
        second: second.byte,
    }
}

/// Puts the end of a flush behind the bytes.
pub(crate) fn end_with(bytes: &mut Output, tail: Tail) -> Result<(), NoMemory>
    ensures { OnOk result
        (reverse bytes.new ≡ without_last_ff (tail.second ∷ tail.first ∷ with_last tail.last (reverse bytes.old))) }
{
    put(bytes, tail.last, tail.first)?;
    if tail.second != 0xff {
        bytes.push(tail.second)?;
    }
    Ok(())
}

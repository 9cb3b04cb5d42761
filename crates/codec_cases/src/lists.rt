//! Lists of decisions, coded one by one, all at once, and by a coder that goes on.

ghost use Rattle.std.specs.Prelude.{◌<◌, IfOk, All};

use mast_base::{Bytes, NoMemory};
use mq_coder::{Coder, ending_laws};
use std::alloc::Global;
use std::process::Abort;
use std::test::Fail;

/// The next number of a xorshift generator.
fn next(seed: u32) -> u32 {
    let seed = seed ^ seed << 13;
    let seed = seed ^ seed >> 17;
    seed ^ seed << 5
}

/// A list of `len` decisions that the seed draws, with a bit 1 where a byte is below `ones`.
fn drawn(alloc: Global, seed: u32, len: u32, ones: u32) -> Result<Bytes, NoMemory>
    ensures { IfOk result (λ list. All (λ d. d < 38) list) }
{
    let mut list = Bytes::new(alloc);
    let mut draw = seed;
    for _ in 0..len {
        draw = next(draw);
        list.push(2 * (draw % 19) as u8 + u8::from(draw >> 24 < ones))?;
    }
    Ok(list)
}

fn one_by_one(alloc: Global, list: &[u8]) -> Result<Bytes, NoMemory>
    requires { All (λ d. d < 38) list.now }
{
    let mut coder = Coder::new(alloc);
    for decision in list {
        coder.code(*decision / 2, *decision % 2 == 1)?;
    }
    coder.flush()
}

/// All at once, by a coder that has coded them before.
fn at_once(alloc: Global, list: &[u8]) -> Result<Bytes, NoMemory>
    requires { All (λ d. d < 38) list.now }
{
    let mut coder = Coder::new(alloc);
    coder.code_all(list)?;
    coder.start_again();
    coder.code_all(list)?;
    coder.flush()
}

/// In two parts, the second by a coder that goes on from where the first one's has paused.
fn in_two(rt: &impl Abort, alloc: Global, first: &[u8], second: &[u8]) -> Result<Bytes, NoMemory>
    requires first { All (λ d. d < 38) first.now }
    requires second { All (λ d. d < 38) second.now }
{
    ending_laws();
    let mut coder = Coder::new(alloc);
    coder.code_all(first)?;
    assert!(rt; coder.length_if_flushed() < 0x1_0000_0000);
    let ending = coder.ending();
    let states = coder.states();
    let mut other = Coder::new(alloc);
    other.code(18, true)?;
    other.go_on(coder.bytes(), &ending, &states)?;
    other.code_all(second)?;
    other.flush()
}

/// Checks that a list gives the same codeword in all ways, with a border behind each seventh of it.
fn check(rt: &impl Abort, alloc: Global, list: &[u8]) -> Result<(), NoMemory>
    requires { All (λ d. d < 38) list.now }
{
    let code = one_by_one(alloc, list)?;
    let whole = at_once(alloc, list)?;
    assert!(rt; whole.as_slice() == code.as_slice());
    for seventh in 0..8usize {
        let (first, second) = list.split_at(list.len() / 7 * seventh);
        let parts = in_two(rt, alloc, first, second)?;
        assert!(rt; parts.as_slice() == code.as_slice());
    }
    Ok(())
}

#[test]
fn codes_lists_in_all_ways(rt: HostRuntime) -> Result<(), Fail> {
    let alloc = rt.alloc();
    for number in 0..1_000u32 {
        let seed = next(number + 1);
        let list = drawn(alloc, seed, seed % 900, number % 257)?;
        check(&rt, alloc, list.as_slice())?;
    }
    Ok(())
}

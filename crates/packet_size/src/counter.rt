use crate::whole::{Rest, whole_bytes};
use std::marker::Model;

/// A count of the bytes that bits fill. Contracts see how far the definition's packer is.
#[derive(Debug, Drop)]
pub(crate) struct BitCounter {
    bytes: u64,
    behind: u32,
    // The lowest `pending` bits aren't counted yet.
    pending: u32,
    bits: u32,
}

impl Model for BitCounter {
    ghost use Rattle.std.specs.Prelude.{◌<◌, ◌≤◌};
    ghost use Rattle.codec_terms.specs.Bits.{low_bits};
    ghost use Rattle.packet_size.specs.Counting.{Counted, counted_into};
    ghost use Rattle.packet_size.specs.Pending.{IsPending};

    ghost Value = { Counted };

    ghost view = { λ c. counted_into c.bytes c.behind 0 (low_bits c.pending c.bits) };

    ghost invariant = { λ c. IsPending c.behind c.pending };
}

impl BitCounter {
    ghost use Rattle.std.specs.Prelude.{◌≡◌, ◌+◌, ◌^◌, ◌<◌, ◌≤◌, ◌++◌, ◌∷◌, [], false, true, if◌then◌else◌, replicate};
    ghost use Rattle.codec_terms.specs.Bits.{low_bits};
    ghost use Rattle.packet_size.specs.Counting.{counted, nothing_counted, byte_count};

    /// No bits.
    pub(crate) fn new() -> Self
        ensures { result ≡ nothing_counted }
    {
        BitCounter {
            bytes: 0,
            behind: 7,
            pending: 0,
            bits: 0,
        }
    }

    /// Takes the lowest `n` bits of a number, the highest first.
    pub(crate) fn put(&mut self, n: u32, value: u32)
        requires word { n ≤ 32 }
        requires small { value < 2 ^ n }
        requires room { self.old.bytes < 2 ^ 63 }
        ensures counted { self.new ≡ counted self.old (low_bits n value) }
        ensures few { self.new.bytes ≤ self.old.bytes + n }
    {
        let bits = (u64::from(self.bits) << n) + u64::from(value);
        let pending = self.pending + n;
        let rest = if pending < 32 {
            Rest {
                bytes: self.bytes,
                behind: self.behind,
                pending,
            }
        } else {
            whole_bytes(self.bytes, self.behind, pending, bits)
        };
        self.bytes = rest.bytes;
        self.behind = rest.behind;
        self.pending = rest.pending;
        self.bits = (bits & 0xffff_ffff) as u32;
    }

    /// Takes so many zeros, and a one behind them where it is wanted.
    pub(crate) fn put_run(&mut self, zeros: u32, one: bool)
        requires few { zeros < 2 ^ 16 }
        requires room { self.old.bytes < 2 ^ 62 }
        ensures counted { self.new ≡ counted self.old (replicate zeros false ++ (if one then true ∷ [] else [])) }
        ensures few { self.new.bytes ≤ self.old.bytes + zeros + 1 }
    {
        for _ in 0..zeros / 32 {
            self.put(32, 0);
        }
        let one = u32::from(one);
        self.put(zeros % 32 + one, one);
    }

    /// The number of bytes.
    pub(crate) fn byte_count(&self) -> u64
        requires { self.now.bytes < 2 ^ 63 }
        ensures { result ≡ byte_count self.now }
    {
        let rest = whole_bytes(self.bytes, self.behind, self.pending, u64::from(self.bits));
        if rest.behind - rest.pending == 7 {
            rest.bytes
        } else {
            rest.bytes + 1
        }
    }
}

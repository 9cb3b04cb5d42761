use crate::interval::Interval;
use crate::rows::{START, row_of};
use crate::source::{Source, part_of, renormalise, split, take_byte};
use std::marker::Model;

/// A decoder over the bytes of a codeword; behind their end it finds bytes FF. Contracts see T.800's decoder.
#[derive(Debug, Drop)]
pub struct Reader<'a> {
    at: Interval,
    source: Source<'a>,
    states: [u8; 19],
}

impl<'a> Model for Reader<'a> {
    ghost use Rattle.codec_terms.specs.Mq.{Decoder};

    ghost Value = { Decoder };

    ghost use Rattle.mq_coder.specs.Reading.{decoder_in, IsOpen};

    ghost view = { decoder_in };

    ghost invariant = { IsOpen };
}

impl<'a> Reader<'a> {
    ghost use Rattle.std.specs.Prelude.{◌≡◌, ◌<◌};
    ghost use Rattle.codec_terms.specs.Mq.{decoder_of, decoded_bit, decoder_after};

    /// A decoder at the beginning of the bytes (INITDEC, C.3.5).
    pub fn new(bytes: &'a [u8]) -> Self
        ensures { result ≡ decoder_of bytes.now }
    {
        let (current, rest) = split(bytes);
        let mut source = Source { current, rest };
        let first = take_byte(&mut source, u32::from(current) << 16);
        Reader {
            at: Interval {
                a: 0x8000,
                c: first.c << 7,
                ct: first.ct - 7,
            },
            source,
            states: START,
        }
    }

    /// The next bit, in this context (DECODE, C.3.2). Any bytes give bits.
    pub fn bit(&mut self, context: u8) -> bool
        requires { context < 19 }
        ensures bit { result ≡ decoded_bit self.old context }
        ensures after { self.new ≡ decoder_after self.old context }
    {
        let row = row_of(self.states[context as usize]);
        let is_mps = (self.at.a - row.qe < row.qe) == (self.at.c >> 16 < row.qe);
        let part = part_of(self.at, row.qe);
        if 0x8000 <= part.a {
            // By its fields: a struct that is copied whole goes through memory here.
            self.at = Interval {
                a: part.a,
                c: part.c,
                ct: part.ct,
            };
            return row.mps;
        }
        let done = renormalise(&mut self.source, part);
        self.at = Interval {
            a: done.a,
            c: done.c,
            ct: done.ct,
        };
        self.states[context as usize] = if is_mps { row.after_mps } else { row.after_lps };
        is_mps == row.mps
    }
}

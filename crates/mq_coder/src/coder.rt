use crate::ending::{Ending, begin, front_len, interval_of, last_mark};
use crate::interval::{FIRST, Interval, last_of, restore};
use crate::output::Output;
use crate::rows::START;
use crate::run::{code_one, code_run};
use crate::states::States;
use crate::tail::{end_with, tail_of};
use mast_base::{Bytes, NoMemory};
use std::alloc::Global;
use std::marker::Model;

/// An encoder of decisions. Contracts see the registers of T.800's encoder, and the states of its contexts.
#[derive(Debug, Drop)]
pub struct Coder {
    at: Interval,
    states: [u8; 19],
    bytes: Output,
}

impl Model for Coder {
    ghost use Rattle.codec_terms.specs.Mq.{Encoder};

    ghost Value = { Encoder };

    ghost use Rattle.mq_coder.specs.Seen.{encoder_of, IsSound};

    ghost view = { encoder_of };

    ghost invariant = { IsSound };
}

impl Coder {
    ghost use Rattle.std.specs.Prelude.{◌≡◌, ◌<◌, ◌^◌, OnOk, OnErr, IfOk, All, List, length, map, reverse};
    ghost use Rattle.codec_terms.specs.Mq.{Decision, contexts_of, bits_of, start, coded_one, coded_from, coded, codeword, flushed_bytes, decoded};
    ghost use Rattle.mq_coder.specs.Decisions.{decision_of};
    ghost use Rattle.mq_coder.specs.Endings.{ending_of, HasPaused};

    /// An encoder of no decisions yet (INITENC, C.2.8). It takes no memory.
    pub fn new(alloc: Global) -> Self
        ensures { result ≡ start }
    {
        Coder {
            at: FIRST,
            states: START,
            bytes: Output::new(alloc),
        }
    }

    /// The same coder with no decisions yet, in the memory that it has.
    pub fn start_again(&mut self)
        ensures { self.new ≡ start }
    {
        self.bytes.truncate(0);
        self.states = START;
        self.at = FIRST;
    }

    /// Codes one decision (ENCODE, C.2.2). After `NoMemory` the coder is as it was.
    pub fn code(&mut self, context: u8, bit: bool) -> Result<(), NoMemory>
        requires { context < 19 }
        ensures ok { OnOk result (self.new ≡ coded_one self.old (record { context = context; bit = bit })) }
        ensures err { OnErr result (self.new ≡ self.old) }
    {
        let decision = 2 * context + u8::from(bit);
        let done = code_one(&mut self.bytes, &mut self.states, self.at, decision)?;
        self.at = Interval {
            a: done.a,
            c: done.c,
            ct: done.ct,
        };
        Ok(())
    }

    /// Codes decisions in order, each twice its context and one more where its bit is 1. After `NoMemory` the coder
    /// is as it was.
    pub fn code_all(&mut self, decisions: &[u8]) -> Result<(), NoMemory>
        requires { All (λ d. d < 38) decisions.now }
        ensures ok { OnOk result (self.new ≡ coded_from self.old (map decision_of decisions.now)) }
        ensures err { OnErr result (self.new ≡ self.old) }
    {
        let len = self.bytes.len();
        let last = last_of(self.bytes.as_slice());
        let states = self.states;
        match code_run(&mut self.bytes, &mut self.states, self.at, decisions) {
            Ok(done) => {
                self.at = done;
                Ok(())
            }
            Err(NoMemory) => {
                restore(&mut self.bytes, len, last);
                self.states = states;
                Err(NoMemory)
            }
        }
    }

    /// Makes this the coder of the decisions at which the ending and the states were taken, so that it goes on behind
    /// them. `bytes` begins with the `kept` bytes of that coder. After `NoMemory` the coder is as it was.
    pub fn go_on(&mut self, bytes: &[u8], ending: &Ending, states: &States) -> Result<(), NoMemory>
        requires { (ds : List Decision) × HasPaused ds bytes.now ending.now states.now }
        ensures ok { (ds : List Decision) → HasPaused ds bytes.now ending.now states.now → OnOk result (self.new ≡ coded ds) }
        ensures err { OnErr result (self.new ≡ self.old) }
    {
        begin(&mut self.bytes, bytes, ending)?;
        self.at = interval_of(ending);
        self.states = states.by_context;
        Ok(())
    }

    /// The states of the contexts, with which a coder goes on.
    pub fn states(&self) -> States
        ensures { result ≡ self.now.states }
    {
        States {
            by_context: self.states,
        }
    }

    /// The bytes that came out so far. A later carry may still change the last one.
    pub fn bytes(&self) -> &[u8]
        ensures { result.now ≡ reverse self.now.registers.bytes }
    {
        self.bytes.as_slice()
    }

    /// The number of bytes that `flush` would give.
    pub fn length_if_flushed(&self) -> usize
        ensures length { result ≡ length (flushed_bytes self.now) }
        ensures more { length self.now.registers.bytes < result }
    {
        let tail = tail_of(last_of(self.bytes.as_slice()), self.at);
        let len = self.bytes.len() + 1;
        if tail.second == 0xff { len } else { len + 1 }
    }

    /// The registers, from which `flushed` gives the codeword of the decisions that were coded so far.
    pub fn ending(&self) -> Ending
        requires { length (flushed_bytes self.now) < 2 ^ 32 }
        ensures { result ≡ ending_of self.now }
    {
        let bytes = self.bytes.as_slice();
        Ending {
            length: self.length_if_flushed() as u32,
            a: self.at.a + last_mark(bytes),
            c: self.at.c,
            ct: self.at.ct as u8,
            kept: front_len(bytes) as u32,
        }
    }

    /// The codeword of the decisions that were coded (FLUSH, C.2.9).
    pub fn flush(self) -> Result<Bytes, NoMemory>
        ensures bytes { IfOk result (λ bytes. bytes ≡ flushed_bytes self) }
        ensures codeword { IfOk result (λ bytes. (ds : List Decision) → self ≡ coded ds → bytes ≡ codeword ds) }
        // Read in the contexts of the decisions in order, the codeword gives their bits.
        ensures read_back { IfOk result (λ bytes. (ds : List Decision) → self ≡ coded ds →
            decoded bytes (contexts_of ds) ≡ bits_of ds) }
    {
        let Coder {
            at,
            states: _,
            mut bytes,
        } = self;
        let tail = tail_of(last_of(bytes.as_slice()), at);
        end_with(&mut bytes, tail)?;
        Ok(bytes.into_bytes())
    }
}

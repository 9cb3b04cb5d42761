ghost use Rattle.std.specs.Prelude.{[]};

use mast_world::{Failed, Sink, count_on};
use std::io;
use std::io::Write;

/// Standard output.
#[derive(Drop)]
pub struct StdSink<R: Print + Drop> {
    rt: R,
    faults: u64,
}

impl<R: Print + Drop> StdSink<R> {
    pub fn new(rt: R) -> Self {
        StdSink { rt, faults: 0 }
    }
}

impl<R: Print + Drop> Sink for StdSink<R> {
    ghost tells = { ⊥ };

    ghost written = { λ _. [] };

    ghost faults = { λ sink. sink.faults };

    fn put(&mut self, bytes: &[u8]) -> Result<(), Failed> {
        match io::writer(&self.rt).write_all(bytes) {
            Ok(()) => Ok(()),
            Err(_) => {
                self.faults = count_on(self.faults, 1);
                Err(Failed)
            }
        }
    }
}

ghost use Rattle.std.specs.Prelude.{◌≡◌, []};
ghost use Rattle.mast_world.specs.Failing.{planned_failures};

use crate::failing::Failing;
use crate::{Failed, Sink};
use mast_base::List;
use std::alloc::Global;

/// A sink in memory. It takes a list of the calls that are to fail, counted from 1.
#[derive(Debug, Drop)]
pub struct MemSink {
    written: Vec<u8>,
    failing: Failing,
}

impl MemSink {
    pub fn new(alloc: Global, failing: List<u64>) -> Self
        ensures written { ⟦<MemSink as Sink>⟧.written result ≡ [] }
        ensures faults { ⟦<MemSink as Sink>⟧.faults result ≡ 0 }
        ensures failing { result.failing ≡ planned_failures failing }
    {
        MemSink {
            written: Vec::new(alloc),
            failing: Failing::new(failing),
        }
    }

    /// All bytes so far.
    pub fn written(&self) -> &[u8]
        ensures { result.now ≡ ⟦<MemSink as Sink>⟧.written self.now }
    {
        &self.written
    }
}

impl Sink for MemSink {
    ghost tells = { Unit {0} };

    ghost written = { λ sink. sink.written.items };

    ghost faults = { λ sink. sink.failing.faults };

    fn put(&mut self, bytes: &[u8]) -> Result<(), Failed> {
        self.failing.count_call()?;
        match self.written.extend_from_slice(bytes) {
            Ok(()) => Ok(()),
            Err(_) => Err(self.failing.fail()),
        }
    }
}

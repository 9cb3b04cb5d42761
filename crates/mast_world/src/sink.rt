ghost use Rattle.std.specs.Prelude.{◌≡◌, ◌++◌, ℕ, List, take, OnOk, OnErr};
ghost use Rattle.mast_world.specs.Count.{IsFaultCount};

use crate::Failed;

/// Where printed text goes.
pub trait Sink {
    /// Holds of a kind of sink that tells what it was given.
    ghost tells: { Type 0 };

    /// All bytes so far, where they are told.
    ghost written: { Self → List ℕ };

    /// How often the sink has failed.
    ghost faults: { Self → ℕ };

    /// Appends the bytes. Where it fails, some first ones of them may have been appended.
    fn put(&mut self, bytes: &[u8]) -> Result<(), Failed>
        ensures ok { tells → OnOk result (written self.new ≡ written self.old ++ bytes.now) }
        ensures err { tells → OnErr result ((n : ℕ) × (written self.new ≡ written self.old ++ take n bytes.now)) }

        ensures faults { IsFaultCount (faults self.old) (faults self.new) result };
}

ghost use Rattle.std.specs.Prelude.{◌≡◌, ◌+◌, ℕ, List, Option, length, option_map, IfOk, OnOk};
ghost use Rattle.mast_world.specs.Content.{part_of, Reaches};
ghost use Rattle.mast_world.specs.Count.{counted_on_none, counted_on_ok, IsFaultCount};

use crate::Failed;

/// Named files that are only read.
pub trait Source {
    /// Holds of a kind of source that tells its contents.
    ghost tells: { Type 0 };

    /// What the file of a name contains, where contents are told.
    ghost file: { Self → List ℕ → Option (List ℕ) };

    /// How often the source has failed.
    ghost faults: { Self → ℕ };

    /// How many bytes were read.
    ghost taken: { Self → ℕ };

    /// How often a file was not found.
    ghost absent: { Self → ℕ };

    /// The size of a file, in bytes, or `None` where there is no such file.
    fn find(&mut self, name: &[u8]) -> Result<Option<u64>, Failed>
        ensures size { tells → IfOk result (λ size. size ≡ option_map length (file self.old name.now)) }
        ensures count_absent { absent self.new ≡ counted_on_none (absent self.old) result }

        ensures same_files { file self.new ≡ file self.old }
        ensures same_taken { taken self.new ≡ taken self.old }

        ensures faults { IsFaultCount (faults self.old) (faults self.new) result };

    /// Fills `into` with the bytes of a file from the place `at` on.
    fn read(&mut self, name: &[u8], at: u64, into: &mut [u8]) -> Result<(), Failed>
        requires { tells → Reaches (file self.old name.now) (at + length into.old) }

        ensures bytes { tells → OnOk result (into.new ≡ part_of (file self.old name.now) at (length into.old)) }
        ensures count_taken { taken self.new ≡ counted_on_ok (taken self.old) (length into.old) result }

        ensures same_files { file self.new ≡ file self.old }
        ensures same_absent { absent self.new ≡ absent self.old }

        ensures faults { IsFaultCount (faults self.old) (faults self.new) result };
}

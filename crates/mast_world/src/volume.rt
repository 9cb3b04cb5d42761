ghost use Rattle.std.specs.Prelude.{◌≡◌, ◌≤◌, ◌+◌, ℕ, List, length, take};
ghost use Rattle.std.specs.Prelude.{Option, IfOk, IsErr, IsOk, OnErr, OnOk};
ghost use Rattle.disk_terms.specs.Disk.{DiffersWithin, History, IsCutAtMost, IsCutTo, IsCutWithin, IsImage};
ghost use Rattle.disk_terms.specs.Disk.{IsRested, IsSynced, IsWritten, IsWrittenAtMost};
ghost use Rattle.mast_world.specs.Changes.{IsSameBeside, Only};
ghost use Rattle.mast_world.specs.Content.{part, overwritten};
ghost use Rattle.mast_world.specs.Count.{counted_on_ok, IsFaultCount};
ghost use Rattle.mast_world.specs.Failing.{IsCalled, IsDue, IsSpared};
ghost use Rattle.mast_world.specs.declared.volume.FileId.{FileId};

use crate::Failed;

/// A file of the output folder. The number is the reel, 1 to 8.
#[derive(Clone, Copy, Debug, PartialEq, Eq)]
pub enum FileId {
    Picture(u8),
    Sound(u8),
    Cpl,
    Pkl,
    AssetMap,
    VolIndex,
    Job,
    Info,
    Spill,
}

/// The output folder: a fixed table of files. A file that isn't there is an empty one.
///
/// A call is one moment of the history: a crash in the middle of it leaves an image of the disk in front of it or of
/// that behind it.
pub trait Volume {
    /// Holds of a kind of volume that tells its contents.
    ghost tells: { Type 0 };

    /// What reads of a file give, where contents are told.
    ghost reads: { Self → FileId → List ℕ };

    /// What a crash may leave of the files, now and at each moment so far, where contents are told.
    ghost history: { Self → History FileId };

    /// How often the volume has failed.
    ghost faults: { Self → ℕ };

    /// How many bytes were written to a file.
    ghost put: { Self → FileId → ℕ };

    /// Which calls are to fail, counted from 1, of a volume that has such a list.
    ghost plan: { Self → Option (List ℕ) };

    /// How many calls there were, of such a volume.
    ghost calls: { Self → ℕ };

    /// The length of a file, in bytes.
    fn len(&mut self, file: FileId) -> Result<u64, Failed>
        ensures length { tells → IfOk result (λ n. n ≡ length (reads self.old file)) }

        ensures same_reads { reads self.new ≡ reads self.old }
        ensures rested { tells → IsRested (history self.old) (history self.new) }
        ensures same_put { put self.new ≡ put self.old }

        ensures faults { IsFaultCount (faults self.old) (faults self.new) result }
        ensures called { IsCalled plan calls self.old self.new }
        ensures planned { IsDue (plan self.old) (calls self.old) → IsErr result }
        ensures spared { IsSpared (plan self.old) (calls self.old) → IsOk result };

    /// Fills `into` with the bytes of a file from the place `at` on.
    fn read(&mut self, file: FileId, at: u64, into: &mut [u8]) -> Result<(), Failed>
        requires { tells → at + length into.old ≤ length (reads self.old file) }

        ensures bytes { tells → OnOk result (into.new ≡ part (reads self.old file) at (length into.old)) }

        ensures same_reads { reads self.new ≡ reads self.old }
        ensures rested { tells → IsRested (history self.old) (history self.new) }
        ensures same_put { put self.new ≡ put self.old }

        ensures faults { IsFaultCount (faults self.old) (faults self.new) result }
        ensures called { IsCalled plan calls self.old self.new }
        ensures planned { IsDue (plan self.old) (calls self.old) → IsErr result }
        ensures spared { IsSpared (plan self.old) (calls self.old) → IsOk result };

    /// Writes over what a file has from the place `at` on, and past its end.
    fn write(&mut self, file: FileId, at: u64, bytes: &[u8]) -> Result<(), Failed>
        requires { tells → at ≤ length (reads self.old file) }

        ensures written { tells → OnOk result (reads self.new file ≡ overwritten (reads self.old file) at bytes.now) }
        ensures partly_written { tells → OnErr result (DiffersWithin (record { at = at; size = length bytes.now })
            (reads self.old file) (reads self.new file)) }

        ensures moment { tells
            → OnOk result (IsWritten file at (length bytes.now) (history self.old) (history self.new)) }
        ensures moment_at_most { tells
            → OnErr result (IsWrittenAtMost file at (length bytes.now) (history self.old) (history self.new)) }
        ensures left { tells → IsImage (history self.old).newest (reads self.old)
            → IsImage (history self.new).newest (reads self.new) }

        ensures count_put { put self.new file ≡ counted_on_ok (put self.old file) (length bytes.now) result }
        ensures beside { IsSameBeside (Only file) tells reads put faults history self.old self.new }

        ensures faults { IsFaultCount (faults self.old) (faults self.new) result }
        ensures called { IsCalled plan calls self.old self.new }
        ensures planned { IsDue (plan self.old) (calls self.old) → IsErr result };

    /// Shortens a file to `len` bytes. One that isn't longer stays as it is.
    fn cut(&mut self, file: FileId, len: u64) -> Result<(), Failed>
        ensures shortened { tells → OnOk result (reads self.new file ≡ take len (reads self.old file)) }
        ensures partly_shortened { tells → OnErr result (IsCutWithin len (reads self.old file) (reads self.new file)) }

        ensures moment { tells → OnOk result (IsCutTo file len (history self.old) (history self.new)) }
        ensures moment_at_most { tells → OnErr result (IsCutAtMost file len (history self.old) (history self.new)) }
        ensures left { tells → IsImage (history self.old).newest (reads self.old)
            → IsImage (history self.new).newest (reads self.new) }

        ensures same_put { put self.new ≡ put self.old }
        ensures beside { IsSameBeside (Only file) tells reads put faults history self.old self.new }

        ensures faults { IsFaultCount (faults self.old) (faults self.new) result }
        ensures called { IsCalled plan calls self.old self.new }
        ensures planned { IsDue (plan self.old) (calls self.old) → IsErr result };

    /// Waits until the file is on the disk. Where it fails, that stays as unknown as it was.
    fn sync(&mut self, file: FileId) -> Result<(), Failed>
        ensures same_reads { reads self.new ≡ reads self.old }

        ensures synced { tells
            → OnOk result (IsSynced file (reads self.old file) (history self.old) (history self.new)) }
        ensures rested { tells → OnErr result (IsRested (history self.old) (history self.new)) }
        ensures left { tells → IsImage (history self.old).newest (reads self.old)
            → IsImage (history self.new).newest (reads self.new) }

        ensures same_put { put self.new ≡ put self.old }
        ensures beside { IsSameBeside (Only file) tells reads put faults history self.old self.new }

        ensures faults { IsFaultCount (faults self.old) (faults self.new) result }
        ensures called { IsCalled plan calls self.old self.new }
        ensures planned { IsDue (plan self.old) (calls self.old) → IsErr result };
}

ghost use Rattle.std.specs.Prelude.{◌≡◌};
ghost use Rattle.mast_world.specs.Log.{file_of};
ghost use Rattle.mast_world.specs.FileEntry.{same_file};

use crate::FileId;
use mast_base::Bytes;

/// What a call changed of what a crash may leave.
#[derive(Debug, Drop)]
pub(crate) enum Change {
    /// These bytes were to be written from a place on.
    Written { file: FileId, at: u64, bytes: Bytes },
    /// The file was to be cut to this size.
    Cut { file: FileId, size: u64 },
    /// The file stands on the disk with these bytes.
    Synced { file: FileId, bytes: Bytes },
}

impl Change {
    /// Tells changes of a file from those of others.
    pub(crate) fn is_of(&self, file: FileId) -> bool
        ensures { result ≡ same_file file (file_of self.now) }
    {
        match self {
            Change::Written { file: changed, .. } => file == *changed,
            Change::Cut { file: changed, .. } => file == *changed,
            Change::Synced { file: changed, .. } => file == *changed,
        }
    }
}

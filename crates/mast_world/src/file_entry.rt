ghost use Rattle.std.specs.Prelude.{◌≡◌, IfSome, IfNone, None};
ghost use Rattle.std.specs.List.{find};
ghost use Rattle.mast_world.specs.FileEntry.{FirstAt, is_of};

use crate::FileId;

/// What a volume keeps of a file, in a table of such entries.
#[derive(Debug, Drop)]
pub struct FileEntry<T> {
    pub file: FileId,
    pub value: T,
}

impl<T> FileEntry<T> {
    fn is_of(&self, file: FileId) -> bool
        ensures { result ≡ is_of file self.now }
    {
        self.file == file
    }
}

/// Where the entry of a file stands.
pub fn position_of<T>(entries: &[FileEntry<T>], file: FileId) -> Option<usize>
    ensures found { IfSome result (λ at. FirstAt entries.now file at) }
    ensures absent { IfNone result (find (is_of file) entries.now ≡ None) }
{
    for (at, entry) in entries.iter().enumerate() {
        if entry.is_of(file) {
            return Some(at);
        }
    }
    None
}

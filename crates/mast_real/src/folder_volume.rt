ghost use Rattle.std.specs.Prelude.{◌≡◌, ◌≢◌, ◌≤◌, [], IfOk, IfSome, None, OnErr, OnOk, length};
ghost use Rattle.mast_world.specs.Count.{counted, counted_on_ok};
ghost use Rattle.mast_world.specs.FileEntry.{FirstAt};
ghost use Rattle.mast_world.specs.Log.{nothing_there};
ghost use Rattle.mast_world.specs.declared.volume.FileId.{FileId};
ghost use Rattle.mast_real.specs.FolderFile.{folder_put};

use mast_world::{Failed, FileEntry, FileId, Volume, count_on, position_of};
use std::alloc::{AllocError, Global};
use std::fs::{File, OpenFile, OpenOptions};
use std::io::ErrorKind;
use std::os::unix::fs::FileExt;
use std::rt::Files;
use std::{fs, io};

/// A file of the folder that was opened, and how many bytes were written to it.
#[derive(Drop)]
struct FolderFile {
    handle: File,
    put: u64,
}

/// An output folder. The first write makes it where it isn't there.
#[derive(Drop)]
pub struct FolderVolume<R: Files<File = File> + Drop> {
    rt: R,
    alloc: Global,
    folder: String,
    files: Vec<FileEntry<FolderFile>>,
    faults: u64,
    /// A sync failed. The system may then take what it couldn't write for written, so that later syncs say nothing.
    is_lost: bool,
}

impl<R: Files<File = File> + Drop> FolderVolume<R> {
    pub fn new(rt: R, alloc: Global, folder: String) -> Self {
        FolderVolume {
            rt,
            alloc,
            folder,
            files: Vec::new(alloc),
            faults: 0,
            is_lost: false,
        }
    }
}

fn path_of(alloc: Global, folder: &str, file: FileId) -> Result<String, AllocError> {
    match file {
        FileId::Picture(reel) => format!(in alloc; "{folder}/picture-{reel}.mxf"),
        FileId::Sound(reel) => format!(in alloc; "{folder}/sound-{reel}.mxf"),
        FileId::Cpl => format!(in alloc; "{folder}/cpl.xml"),
        FileId::Pkl => format!(in alloc; "{folder}/pkl.xml"),
        FileId::AssetMap => format!(in alloc; "{folder}/ASSETMAP.xml"),
        FileId::VolIndex => format!(in alloc; "{folder}/VOLINDEX.xml"),
        FileId::Job => format!(in alloc; "{folder}/job.txt"),
        FileId::Info => format!(in alloc; "{folder}/info.bin"),
        FileId::Spill => format!(in alloc; "{folder}/spill.bin"),
    }
}

/// Opens a file that is there, or makes it.
fn open_file(
    rt: &impl Files<File = File>,
    folder: &str,
    path: &str,
    make: bool,
) -> io::Result<Option<File>> {
    let mut options = OpenOptions::new();
    options.read(true).write(true).create(make);
    if make {
        fs::create_dir_all(rt, folder)?;
    }
    match options.open(rt, path) {
        Ok(handle) => Ok(Some(handle)),
        Err(error)
            if !make && matches!(error.kind(), ErrorKind::NotFound | ErrorKind::NotADirectory) =>
            Ok(None),
        Err(error) => Err(error),
    }
}

impl<R: Files<File = File> + Drop> FolderVolume<R> {
    /// Where the entry of a file stands, which is opened, or made where that is asked.
    fn entry_of(&mut self, file: FileId, make: bool) -> io::Result<Option<usize>>
        ensures found { IfOk result (λ entry. IfSome entry (λ at. FirstAt self.new.files.items file at)) }
        ensures same_put { folder_put self.new.files.items ≡ folder_put self.old.files.items }
        ensures each_put { (f : FileId) → folder_put self.new.files.items f ≡ folder_put self.old.files.items f }
        ensures same_faults { self.new.faults ≡ self.old.faults }
    {
        if let Some(at) = position_of(&self.files, file) {
            return Ok(Some(at));
        }
        let path = path_of(self.alloc, self.folder.as_str(), file)?;
        let Some(handle) = open_file(&self.rt, self.folder.as_str(), path.as_str(), make)? else {
            return Ok(None);
        };
        let at = self.files.len();
        let value = FolderFile { handle, put: 0 };
        self.files.push(FileEntry { file, value })?;
        Ok(Some(at))
    }

    fn len_of(&mut self, file: FileId) -> io::Result<u64>
        ensures same_put { folder_put self.new.files.items ≡ folder_put self.old.files.items }
        ensures same_faults { self.new.faults ≡ self.old.faults }
    {
        match self.entry_of(file, false)? {
            Some(entry) => Ok(self.files[entry].value.handle.metadata()?.len()),
            None => Ok(0),
        }
    }

    fn read_from(&mut self, file: FileId, at: u64, into: &mut [u8]) -> io::Result<()>
        ensures same_put { folder_put self.new.files.items ≡ folder_put self.old.files.items }
        ensures same_faults { self.new.faults ≡ self.old.faults }
    {
        match self.entry_of(file, false)? {
            Some(entry) => self.files[entry].value.handle.read_exact_at(into, at),
            None if into.is_empty() => Ok(()),
            None => Err(io::Error::from(ErrorKind::NotFound)),
        }
    }

    fn write_to(&mut self, file: FileId, at: u64, bytes: &[u8]) -> io::Result<()>
        ensures count_put { folder_put self.new.files.items file ≡ counted_on_ok (folder_put self.old.files.items file) (length bytes.now) result }
        ensures other_put { (f : FileId) → f ≢ file → folder_put self.new.files.items f ≡ folder_put self.old.files.items f }
        ensures same_faults { self.new.faults ≡ self.old.faults }
    {
        match self.entry_of(file, true)? {
            Some(entry) => write_entry(self.files.as_mut_slice(), file, entry, at, bytes),
            None => Err(io::Error::from(ErrorKind::NotFound)),
        }
    }

    fn cut_to(&mut self, file: FileId, len: u64) -> io::Result<()>
        ensures same_put { folder_put self.new.files.items ≡ folder_put self.old.files.items }
        ensures same_faults { self.new.faults ≡ self.old.faults }
    {
        let Some(entry) = self.entry_of(file, false)? else {
            return Ok(());
        };
        let handle = &self.files[entry].value.handle;
        if handle.metadata()?.len() > len {
            handle.set_len(len)?;
        }
        Ok(())
    }

    fn sync_of(&mut self, file: FileId) -> io::Result<()>
        ensures same_put { folder_put self.new.files.items ≡ folder_put self.old.files.items }
        ensures same_faults { self.new.faults ≡ self.old.faults }
    {
        let Some(entry) = self.entry_of(file, false)? else {
            return Ok(());
        };
        self.files[entry].value.handle.sync_all()?;
        // A new file's name is on the disk only with its folder.
        File::open(&self.rt, self.folder.as_str())?.sync_all()
    }

    fn fail(&mut self) -> Failed
        ensures counted { self.new ≡ record self.old { faults = counted self.old.faults 1 } }
        ensures kept { self.old.faults ≤ self.new.faults }
    {
        self.faults = count_on(self.faults, 1);
        Failed
    }
}

fn write_entry(
    files: &mut [FileEntry<FolderFile>],
    file: FileId,
    entry: usize,
    at: u64,
    bytes: &[u8],
) -> io::Result<()>
    requires { FirstAt files.old file entry }
    ensures count_put { folder_put files.new file ≡ counted_on_ok (folder_put files.old file) (length bytes.now) result }
    ensures other_put { (f : FileId) → f ≢ file → folder_put files.new f ≡ folder_put files.old f }
{
    let entry = &mut files[entry];
    entry.value.handle.write_all_at(bytes, at)?;
    entry.value.put = count_on(entry.value.put, bytes.len() as u64);
    Ok(())
}

impl<R: Files<File = File> + Drop> Volume for FolderVolume<R> {
    ghost tells = { ⊥ };

    ghost reads = { λ _ _. [] };

    ghost history = { λ _. nothing_there };

    ghost faults = { λ volume. volume.faults };

    ghost put = { λ volume. folder_put volume.files.items };

    ghost plan = { λ _. None };

    ghost calls = { λ _. 0 };

    fn len(&mut self, file: FileId) -> Result<u64, Failed> {
        match self.len_of(file) {
            Ok(len) => Ok(len),
            Err(_) => Err(self.fail()),
        }
    }

    fn read(&mut self, file: FileId, at: u64, into: &mut [u8]) -> Result<(), Failed> {
        match self.read_from(file, at, into) {
            Ok(()) => Ok(()),
            Err(_) => Err(self.fail()),
        }
    }

    fn write(&mut self, file: FileId, at: u64, bytes: &[u8]) -> Result<(), Failed> {
        match self.write_to(file, at, bytes) {
            Ok(()) => Ok(()),
            Err(_) => Err(self.fail()),
        }
    }

    fn cut(&mut self, file: FileId, len: u64) -> Result<(), Failed> {
        match self.cut_to(file, len) {
            Ok(()) => Ok(()),
            Err(_) => Err(self.fail()),
        }
    }

    fn sync(&mut self, file: FileId) -> Result<(), Failed> {
        if self.is_lost {
            return Err(self.fail());
        }
        match self.sync_of(file) {
            Ok(()) => Ok(()),
            Err(_) => {
                self.is_lost = true;
                Err(self.fail())
            }
        }
    }
}

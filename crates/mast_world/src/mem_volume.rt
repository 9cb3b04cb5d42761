ghost use Rattle.std.specs.Prelude.{◌≡◌, ◌≢◌, ◌≤◌, IfOk, OnOk, OnErr, Some, [], length, take};
ghost use Rattle.mast_world.specs.Content.{overwritten};
ghost use Rattle.mast_world.specs.FileEntry.{FirstAt};
ghost use Rattle.disk_terms.specs.Disk.{IsCutTo, IsRested, IsSynced, IsWritten};
ghost use Rattle.mast_world.specs.Log.{history_of, nothing_there};
ghost use Rattle.mast_world.specs.StoredFile.{stored_bytes, stored_put};
ghost use Rattle.mast_world.specs.Count.{counted_on_ok};
ghost use Rattle.mast_world.specs.declared.volume.FileId.{FileId};
ghost use Rattle.mast_world.specs.Failing.{planned_failures};

use crate::change::Change;
use crate::failing::{Failing, count_on};
use crate::file_entry::{FileEntry, position_of};
use crate::{Failed, FileId, Volume};
use mast_base::{Bytes, List, NoMemory};
use std::alloc::{AllocError, Global};

/// A file of a volume in memory.
#[derive(Debug, Drop)]
struct StoredFile {
    bytes: Vec<u8>,
    put: u64,
}

/// A volume in memory. It takes a list of the calls that are to fail, counted from 1.
#[derive(Debug, Drop)]
pub struct MemVolume {
    pub(crate) alloc: Global,
    stored: Vec<FileEntry<StoredFile>>,
    pub(crate) log: Vec<Change>,
    failing: Failing,
}

impl MemVolume {
    pub fn new(alloc: Global, failing: List<u64>) -> Self
        ensures empty { (file : FileId) → ⟦<MemVolume as Volume>⟧.reads result file ≡ [] }
        ensures faults { ⟦<MemVolume as Volume>⟧.faults result ≡ 0 }
        ensures failing { result.failing ≡ planned_failures failing }
        ensures put { (file : FileId) → ⟦<MemVolume as Volume>⟧.put result file ≡ 0 }
        ensures history { ⟦<MemVolume as Volume>⟧.history result ≡ nothing_there }
        ensures plan { ⟦<MemVolume as Volume>⟧.plan result ≡ Some failing }
        ensures calls { ⟦<MemVolume as Volume>⟧.calls result ≡ 0 }
    {
        MemVolume {
            alloc,
            stored: Vec::new(alloc),
            log: Vec::new(alloc),
            failing: Failing::new(failing),
        }
    }

    /// What a file contains.
    pub fn bytes(&self, file: FileId) -> &[u8]
        ensures { result.now ≡ ⟦<MemVolume as Volume>⟧.reads self.now file }
    {
        match position_of(&self.stored, file) {
            Some(at) => &self.stored[at].value.bytes,
            None => &[],
        }
    }

    /// Notes that a file stands on the disk as reads give it.
    fn note_sync(&mut self, file: FileId) -> Result<(), NoMemory>
        ensures synced { OnOk result (IsSynced file (stored_bytes self.old.stored.items file)
            (history_of self.old.log.items) (history_of self.new.log.items)) }
        ensures rested { OnErr result (IsRested (history_of self.old.log.items) (history_of self.new.log.items)) }
        ensures same_stored { self.new.stored.items ≡ self.old.stored.items }
        ensures same_failing { self.new.failing ≡ self.old.failing }
    {
        let bytes = Bytes::copy_of(self.alloc, self.bytes(file))?;
        self.log.push(Change::Synced { file, bytes })?;
        Ok(())
    }

    /// How many bytes were written to a file.
    pub fn put(&self, file: FileId) -> u64
        ensures { result ≡ ⟦<MemVolume as Volume>⟧.put self.now file }
    {
        match position_of(&self.stored, file) {
            Some(at) => self.stored[at].value.put,
            None => 0,
        }
    }
}

/// Notes that bytes of a file are to be written.
fn note_written(
    alloc: Global,
    log: &mut Vec<Change>,
    file: FileId,
    at: u64,
    bytes: &[u8],
) -> Result<(), NoMemory>
    ensures moment { OnOk result
        (IsWritten file at (length bytes.now) (history_of log.old.items) (history_of log.new.items)) }
    ensures rested { OnErr result (IsRested (history_of log.old.items) (history_of log.new.items)) }
{
    let bytes = Bytes::copy_of(alloc, bytes)?;
    log.push(Change::Written { file, at, bytes })?;
    Ok(())
}

/// Notes that a file is to be cut.
fn note_cut(log: &mut Vec<Change>, file: FileId, size: u64) -> Result<(), AllocError>
    ensures moment { OnOk result (IsCutTo file size (history_of log.old.items) (history_of log.new.items)) }
    ensures rested { OnErr result (IsRested (history_of log.old.items) (history_of log.new.items)) }
{
    log.push(Change::Cut { file, size })?;
    Ok(())
}

/// Where the entry of a file stands, which is made where there is none.
fn entry_of(
    alloc: Global,
    stored: &mut Vec<FileEntry<StoredFile>>,
    file: FileId,
) -> Result<usize, AllocError>
    ensures found { IfOk result (λ at. FirstAt stored.new.items file at) }
    ensures same_bytes { (f : FileId) → stored_bytes stored.new.items f ≡ stored_bytes stored.old.items f }
    ensures same_put { (f : FileId) → stored_put stored.new.items f ≡ stored_put stored.old.items f }
{
    if let Some(at) = position_of(stored, file) {
        return Ok(at);
    }
    let at = stored.len();
    let value = StoredFile {
        bytes: Vec::new(alloc),
        put: 0,
    };
    stored.push(FileEntry { file, value })?;
    Ok(at)
}

/// Writes over what there is from a place on, and past the end.
pub(crate) fn overwrite(bytes: &mut Vec<u8>, at: usize, new: &[u8]) -> Result<(), AllocError>
    requires { at ≤ length bytes.old.items }
    ensures ok { OnOk result (bytes.new.items ≡ overwritten bytes.old.items at new.now) }
    ensures err { OnErr result (bytes.new.items ≡ bytes.old.items) }
{
    let over = new.len().min(bytes.len() - at);
    bytes.extend_from_slice(&new[over..])?;
    bytes.as_mut_slice()[at..at + over].copy_from_slice(&new[..over]);
    Ok(())
}

/// Writes to the file of an entry, and counts what was written.
fn write_entry(
    stored: &mut [FileEntry<StoredFile>],
    file: FileId,
    entry: usize,
    at: usize,
    bytes: &[u8],
) -> Result<(), AllocError>
    requires first { FirstAt stored.old file entry }
    requires at { at ≤ length (stored_bytes stored.old file) }
    ensures written { OnOk result
        (stored_bytes stored.new file ≡ overwritten (stored_bytes stored.old file) at bytes.now) }
    ensures unwritten { OnErr result (stored_bytes stored.new file ≡ stored_bytes stored.old file) }
    ensures other_bytes { (f : FileId) → f ≢ file → stored_bytes stored.new f ≡ stored_bytes stored.old f }
    ensures count_put { stored_put stored.new file
        ≡ counted_on_ok (stored_put stored.old file) (length bytes.now) result }
    ensures other_put { (f : FileId) → f ≢ file → stored_put stored.new f ≡ stored_put stored.old f }
{
    let entry = &mut stored[entry];
    overwrite(&mut entry.value.bytes, at, bytes)?;
    entry.value.put = count_on(entry.value.put, bytes.len() as u64);
    Ok(())
}

/// Writes to a file, and counts what was written.
fn write_to(
    alloc: Global,
    stored: &mut Vec<FileEntry<StoredFile>>,
    file: FileId,
    at: usize,
    bytes: &[u8],
) -> Result<(), AllocError>
    requires { at ≤ length (stored_bytes stored.old.items file) }
    ensures written { OnOk result
        (stored_bytes stored.new.items file ≡ overwritten (stored_bytes stored.old.items file) at bytes.now) }
    ensures unwritten { OnErr result (stored_bytes stored.new.items file ≡ stored_bytes stored.old.items file) }
    ensures other_bytes { (f : FileId) → f ≢ file → stored_bytes stored.new.items f ≡ stored_bytes stored.old.items f }
    ensures count_put { stored_put stored.new.items file
        ≡ counted_on_ok (stored_put stored.old.items file) (length bytes.now) result }
    ensures other_put { (f : FileId) → f ≢ file → stored_put stored.new.items f ≡ stored_put stored.old.items f }
{
    let entry = entry_of(alloc, stored, file)?;
    write_entry(stored.as_mut_slice(), file, entry, at, bytes)
}

/// Shortens a file.
fn cut_to(stored: &mut [FileEntry<StoredFile>], file: FileId, len: usize)
    ensures shortened { stored_bytes stored.new file ≡ take len (stored_bytes stored.old file) }
    ensures other_bytes { (f : FileId) → f ≢ file → stored_bytes stored.new f ≡ stored_bytes stored.old f }
    ensures same_put { stored_put stored.new ≡ stored_put stored.old }
{
    if let Some(at) = position_of(stored, file) {
        let entry = &mut stored[at];
        entry.value.bytes.truncate(len);
    }
}

/// Shortens a file of a table.
fn shorten(stored: &mut Vec<FileEntry<StoredFile>>, file: FileId, len: usize)
    ensures shortened { stored_bytes stored.new.items file ≡ take len (stored_bytes stored.old.items file) }
    ensures other_bytes { (f : FileId) → f ≢ file → stored_bytes stored.new.items f ≡ stored_bytes stored.old.items f }
    ensures same_put { stored_put stored.new.items ≡ stored_put stored.old.items }
{
    cut_to(stored.as_mut_slice(), file, len);
}

impl Volume for MemVolume {
    ghost tells = { Unit {0} };

    ghost reads = { λ volume. stored_bytes volume.stored.items };

    ghost history = { λ volume. history_of volume.log.items };

    ghost faults = { λ volume. volume.failing.faults };

    ghost put = { λ volume. stored_put volume.stored.items };

    ghost plan = { λ volume. Some volume.failing.planned };

    ghost calls = { λ volume. volume.failing.calls };

    fn len(&mut self, file: FileId) -> Result<u64, Failed> {
        self.failing.count_call()?;
        Ok(self.bytes(file).len() as u64)
    }

    fn read(&mut self, file: FileId, at: u64, into: &mut [u8]) -> Result<(), Failed> {
        self.failing.count_call()?;
        let at = at as usize;
        into.copy_from_slice(&self.bytes(file)[at..at + into.len()]);
        Ok(())
    }

    fn write(&mut self, file: FileId, at: u64, bytes: &[u8]) -> Result<(), Failed> {
        let noted = note_written(self.alloc, &mut self.log, file, at, bytes);
        self.failing.count_call()?;
        self.failing.or_fail(noted)?;
        let written = write_to(self.alloc, &mut self.stored, file, at as usize, bytes);
        self.failing.or_fail(written)
    }

    fn cut(&mut self, file: FileId, len: u64) -> Result<(), Failed> {
        let noted = note_cut(&mut self.log, file, len);
        self.failing.count_call()?;
        self.failing.or_fail(noted)?;
        shorten(&mut self.stored, file, len as usize);
        Ok(())
    }

    fn sync(&mut self, file: FileId) -> Result<(), Failed> {
        self.failing.count_call()?;
        let noted = self.note_sync(file);
        self.failing.or_fail(noted)
    }
}

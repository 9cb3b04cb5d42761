ghost use Rattle.std.specs.Prelude.{◌≡◌, ◌+◌, [], ◌∷◌, ◌++◌, IfOk, OnOk, List, length, max, take};
ghost use Rattle.disk_terms.specs.Disk.{AreBytes, MayLeave};
ghost use Rattle.mast_world.specs.Crash.{AreRemains, crash_image, laid, laid_by, padded};
ghost use Rattle.mast_world.specs.declared.change.Change.{Change};
ghost use Rattle.mast_world.specs.declared.volume.FileId.{FileId};

use crate::change::Change;
use crate::mem_volume::overwrite;
use crate::{FileId, MemVolume, Volume};
use mast_base::{Bytes, NoMemory};
use std::alloc::{AllocError, Global};

/// One of the images that a crash may leave of a file.
#[derive(Clone, Copy, Debug, PartialEq, Eq)]
pub enum CrashImage {
    /// Nothing of what was written since the last sync, and the least length.
    AsBefore,
    /// All that was written since the last sync, and the greatest length, with zeros where nothing was written.
    AsWritten,
    /// The first half of each write since the last sync, and the greatest length, filled up with zeros.
    HalfWritten,
    /// Ones wherever was written since the last sync, and the greatest length, filled up with ones.
    AllOnes,
}

/// What an image of a file is made of, behind the changes so far.
#[derive(Drop)]
struct Remains {
    /// The bytes at the last sync, and over them what the image has of each write since.
    bytes: Vec<u8>,
    least: u64,
    greatest: u64,
}

/// Lays bytes over others from a place on. Where those end in front of it, zeros stand between.
fn lay(bytes: &mut Vec<u8>, at: usize, new: &[u8]) -> Result<(), AllocError>
    ensures { OnOk result (bytes.new.items ≡ laid at new.now bytes.old.items) }
{
    let size = bytes.len().max(at);
    bytes.resize(size, 0)?;
    overwrite(bytes, at, new)
}

/// Lays what an image has of a write over the bytes.
fn lay_write(
    alloc: Global,
    bytes: &mut Vec<u8>,
    image: CrashImage,
    at: usize,
    new: &[u8],
) -> Result<(), AllocError>
    ensures { OnOk result (bytes.new.items
        ≡ laid_by image bytes.old.items (record { at = at; bytes = new.now })) }
{
    match image {
        CrashImage::AsBefore => Ok(()),
        CrashImage::AsWritten => lay(bytes, at, new),
        CrashImage::HalfWritten => lay(bytes, at, &new[..new.len() / 2]),
        CrashImage::AllOnes => {
            let ones = vec![in alloc; 1u8; new.len()]?;
            lay(bytes, at, &ones)
        }
    }
}

/// The first bytes.
fn front(mut bytes: Vec<u8>, size: usize) -> Bytes
    ensures front { result ≡ take size bytes.items }
    ensures small { AreBytes result }
{
    bytes.truncate(size);
    Bytes::from(bytes)
}

/// The first bytes, filled up to a size.
fn pad(mut bytes: Vec<u8>, size: usize, fill: u8) -> Result<Bytes, NoMemory>
    ensures padded { IfOk result (λ image. image ≡ padded fill size bytes.items) }
    ensures small { IfOk result (λ image. AreBytes image) }
{
    bytes.resize(size, fill)?;
    Ok(Bytes::from(bytes))
}

impl Remains {
    fn write(
        &mut self,
        alloc: Global,
        image: CrashImage,
        at: u64,
        new: &[u8],
    ) -> Result<(), NoMemory>
        ensures bytes { OnOk result (self.new.bytes.items
            ≡ laid_by image self.old.bytes.items (record { at = at; bytes = new.now })) }
        ensures least { self.new.least ≡ self.old.least }
        ensures greatest { OnOk result (self.new.greatest ≡ max self.old.greatest (at + length new.now)) }
    {
        // No memory holds a file of such a length.
        let end = at.checked_add(new.len() as u64).ok_or(NoMemory)?;
        self.greatest = self.greatest.max(end);
        lay_write(alloc, &mut self.bytes, image, at as usize, new)?;
        Ok(())
    }

    fn sync(&mut self, alloc: Global, bytes: &[u8]) -> Result<(), NoMemory>
        ensures bytes { OnOk result (self.new.bytes.items ≡ bytes.now) }
        ensures least { OnOk result (self.new.least ≡ length bytes.now) }
        ensures greatest { OnOk result (self.new.greatest ≡ length bytes.now) }
    {
        self.bytes = bytes.to_vec(alloc)?;
        self.least = bytes.len() as u64;
        self.greatest = bytes.len() as u64;
        Ok(())
    }

    /// Goes on behind one change more.
    fn go_on(
        &mut self,
        alloc: Global,
        image: CrashImage,
        file: FileId,
        change: &Change,
    ) -> Result<(), NoMemory>
        ensures { (log : List Change) → AreRemains image log file self.old
            → OnOk result (AreRemains image (log ++ change.now ∷ []) file self.new) }
    {
        if !change.is_of(file) {
            return Ok(());
        }
        match change {
            Change::Written { at, bytes, .. } => self.write(alloc, image, *at, bytes.as_slice()),
            Change::Cut { size, .. } => {
                self.least = self.least.min(*size);
                Ok(())
            }
            Change::Synced { bytes, .. } => self.sync(alloc, bytes.as_slice()),
        }
    }

    fn into_image(self, image: CrashImage) -> Result<Bytes, NoMemory>
        ensures image { (log : List Change) (file : FileId) → AreRemains image log file self
            → IfOk result (λ bytes. bytes ≡ crash_image image log file) }
        ensures small { IfOk result (λ bytes. AreBytes bytes) }
    {
        match image {
            CrashImage::AsBefore => Ok(front(self.bytes, self.least as usize)),
            CrashImage::AsWritten => pad(self.bytes, self.greatest as usize, 0),
            CrashImage::HalfWritten => pad(self.bytes, self.greatest as usize, 0),
            CrashImage::AllOnes => pad(self.bytes, self.greatest as usize, 1),
        }
    }
}

fn remains_of(
    alloc: Global,
    image: CrashImage,
    file: FileId,
    log: &[Change],
) -> Result<Remains, NoMemory>
    ensures { IfOk result (λ remains. AreRemains image log.now file remains) }
{
    let mut remains = Remains {
        bytes: Vec::new(alloc),
        least: 0,
        greatest: 0,
    };
    for change in log {
        remains.go_on(alloc, image, file, change)?;
    }
    Ok(remains)
}

impl MemVolume {
    /// What one of the images has of a file. There is none where the greatest length is past what memory holds.
    pub fn crash_image(&self, image: CrashImage, file: FileId) -> Result<Bytes, NoMemory>
        ensures image { IfOk result (λ bytes. bytes ≡ crash_image image self.now.log.items file) }
        ensures left { IfOk result (λ bytes. MayLeave ((⟦<MemVolume as Volume>⟧.history self.now).newest file) bytes) }
    {
        remains_of(self.alloc, image, file, &self.log)?.into_image(image)
    }
}

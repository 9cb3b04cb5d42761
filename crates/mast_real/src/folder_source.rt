ghost use Rattle.std.specs.Prelude.{None};

use mast_world::{Failed, Source, count_on};
use std::fs::File;
use std::io::ErrorKind;
use std::os::unix::fs::FileExt;
use std::rt::Files;
use std::{fs, io};

/// The files below the current folder.
#[derive(Drop)]
pub struct FolderSource<R: Files<File = File> + Drop> {
    rt: R,
    faults: u64,
    taken: u64,
    absent: u64,
}

impl<R: Files<File = File> + Drop> FolderSource<R> {
    pub fn new(rt: R) -> Self {
        FolderSource {
            rt,
            faults: 0,
            taken: 0,
            absent: 0,
        }
    }
}

/// The size of a regular file. Anything else of this name is no file.
fn size_of(rt: &impl Files, name: &[u8]) -> io::Result<Option<u64>> {
    let Ok(path) = str::from_utf8(name) else {
        return Ok(None);
    };
    match fs::metadata(rt, path) {
        Ok(metadata) if metadata.is_file() => Ok(Some(metadata.len())),
        Ok(_) => Ok(None),
        Err(error) if matches!(error.kind(), ErrorKind::NotFound | ErrorKind::NotADirectory) => Ok(
            None,
        ),
        Err(error) => Err(error),
    }
}

fn read_at(rt: &impl Files<File = File>, name: &[u8], at: u64, into: &mut [u8]) -> io::Result<()> {
    match str::from_utf8(name) {
        Ok(path) => File::open(rt, path)?.read_exact_at(into, at),
        Err(_) => Err(io::Error::from(ErrorKind::InvalidInput)),
    }
}

impl<R: Files<File = File> + Drop> Source for FolderSource<R> {
    ghost tells = { ⊥ };

    ghost file = { λ _ _. None };

    ghost faults = { λ source. source.faults };

    ghost taken = { λ source. source.taken };

    ghost absent = { λ source. source.absent };

    fn find(&mut self, name: &[u8]) -> Result<Option<u64>, Failed> {
        match size_of(&self.rt, name) {
            Ok(Some(size)) => Ok(Some(size)),
            Ok(None) => {
                self.absent = count_on(self.absent, 1);
                Ok(None)
            }
            Err(_) => {
                self.faults = count_on(self.faults, 1);
                Err(Failed)
            }
        }
    }

    fn read(&mut self, name: &[u8], at: u64, into: &mut [u8]) -> Result<(), Failed> {
        match read_at(&self.rt, name, at, into) {
            Ok(()) => {
                self.taken = count_on(self.taken, into.len() as u64);
                Ok(())
            }
            Err(_) => {
                self.faults = count_on(self.faults, 1);
                Err(Failed)
            }
        }
    }
}

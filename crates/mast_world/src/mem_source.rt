ghost use Rattle.std.specs.Prelude.{◌≡◌, ◌≤◌, ◌+◌, length, option_map};
ghost use Rattle.mast_world.specs.Content.{part};
ghost use Rattle.mast_world.specs.MemFile.{content, content_of};
ghost use Rattle.mast_world.specs.Failing.{planned_failures};

use crate::failing::{Failing, count_on};
use crate::{Failed, Source};
use mast_base::{Bytes, List};

/// A file in memory. Its byte j is that of `bytes` where there is one, else `fill`.
#[derive(Debug, Drop)]
pub struct MemFile {
    pub name: Bytes,
    pub size: u64,
    pub fill: u8,
    pub bytes: Bytes,
}

impl MemFile {
    fn copy_to(&self, at: u64, into: &mut [u8])
        requires { at + length into.old ≤ length (content self.now) }
        ensures { into.new ≡ part (content self.now) at (length into.old) }
    {
        let given = self.bytes.as_slice();
        let from = given.len().min(at as usize);
        let copied = into.len().min(given.len() - from);
        into[..copied].copy_from_slice(&given[from..from + copied]);
        into[copied..].fill(self.fill);
    }
}

fn find_file<'a>(files: &'a [MemFile], name: &[u8]) -> Option<&'a MemFile>
    ensures { option_map (λ file. content file.now) result ≡ content_of files.now name.now }
{
    files.iter().find(|file| file.name.as_slice() == name)
}

/// A source in memory. It takes a list of the calls that are to fail, counted from 1.
#[derive(Debug, Drop)]
pub struct MemSource {
    files: List<MemFile>,
    failing: Failing,
    taken: u64,
    absent: u64,
}

impl MemSource {
    pub fn new(files: List<MemFile>, failing: List<u64>) -> Self
        ensures files { ⟦<MemSource as Source>⟧.file result ≡ content_of files }
        ensures faults { ⟦<MemSource as Source>⟧.faults result ≡ 0 }
        ensures failing { result.failing ≡ planned_failures failing }
        ensures taken { ⟦<MemSource as Source>⟧.taken result ≡ 0 }
        ensures absent { ⟦<MemSource as Source>⟧.absent result ≡ 0 }
    {
        MemSource {
            files,
            failing: Failing::new(failing),
            taken: 0,
            absent: 0,
        }
    }

    /// How many bytes were read so far.
    pub fn taken(&self) -> u64
        ensures { result ≡ ⟦<MemSource as Source>⟧.taken self.now }
    {
        self.taken
    }

    /// How often a file was not found so far.
    pub fn absent(&self) -> u64
        ensures { result ≡ ⟦<MemSource as Source>⟧.absent self.now }
    {
        self.absent
    }
}

impl Source for MemSource {
    ghost tells = { Unit {0} };

    ghost file = { λ source. content_of source.files };

    ghost faults = { λ source. source.failing.faults };

    ghost taken = { λ source. source.taken };

    ghost absent = { λ source. source.absent };

    fn find(&mut self, name: &[u8]) -> Result<Option<u64>, Failed> {
        self.failing.count_call()?;
        match find_file(self.files.as_slice(), name) {
            Some(file) => Ok(Some(file.size)),
            None => {
                self.absent = count_on(self.absent, 1);
                Ok(None)
            }
        }
    }

    fn read(&mut self, name: &[u8], at: u64, into: &mut [u8]) -> Result<(), Failed> {
        self.failing.count_call()?;
        find_file(self.files.as_slice(), name)
            .unwrap()
            .copy_to(at, into);
        self.taken = count_on(self.taken, into.len() as u64);
        Ok(())
    }
}

//! `dcp`: makes cinema packages.
#![tactic(auto)]

use dcp_commands::{Status, out_name, run, run_make};
use mast_base::Bytes;
use mast_real::{FolderSource, FolderVolume, StdSink};
use std::alloc::{AllocError, Global};
use std::io::ErrorKind;
use std::process::ExitCode;
use std::rt::Env;
use std::{env, io};

/// The words behind the program's name. Words that aren't UTF-8 are as good as none: both are refused.
fn read_words<R: Env + AllocGlobal>(rt: &R) -> io::Result<Vec<String>> {
    match env::args(rt) {
        Ok(words) => Ok(words.skip(1).collect(rt.alloc())?),
        Err(error) if error.kind() == ErrorKind::InvalidData => Ok(Vec::new(rt.alloc())),
        Err(error) => Err(error),
    }
}

/// The output folder, or the current one, which isn't written where the words are refused.
fn folder_of(alloc: Global, name: Option<Bytes>) -> Result<String, AllocError> {
    match name {
        Some(name) => String::from_utf8_lossy(alloc, name.as_slice()),
        None => String::from_str(alloc, "."),
    }
}

/// Runs `make` over the output folder that the words name.
fn make_in_folder(
    rt: &HostRuntime,
    words: &[String],
    source: &mut FolderSource<HostRuntime>,
    out: &mut StdSink<HostRuntime>,
) -> io::Result<u8> {
    let alloc = rt.alloc();
    let Ok(name) = out_name(alloc, words) else {
        return Ok(Status::NoMemory.exit_code());
    };
    let mut volume = FolderVolume::new(rt.clone()?, alloc, folder_of(alloc, name)?);
    Ok(run_make(alloc, words, source, &mut volume, out).exit_code())
}

fn run_words(rt: &HostRuntime) -> io::Result<u8> {
    let words = read_words(rt)?;
    let mut source = FolderSource::new(rt.clone()?);
    let mut out = StdSink::new(rt.clone()?);
    if words.first().is_some_and(|word| word.as_str() == "make") {
        make_in_folder(rt, &words, &mut source, &mut out)
    } else {
        Ok(run(rt.alloc(), &words, &mut source, &mut out).exit_code())
    }
}

fn main(rt: HostRuntime) -> ExitCode {
    match run_words(&rt) {
        Ok(code) => ExitCode::from(code),
        Err(_) => ExitCode::from(Status::NoMemory.exit_code()),
    }
}

//! Each device once, on real files below the folder of temporary ones.

use mast_real::{FolderSource, FolderVolume, StdSink};
use mast_world::{Failed, FileId, Sink, Source, Volume};
use std::alloc::{AllocError, Global};
use std::test::Fail;
use std::{fs, process};

fn folder(rt: &HostRuntime, alloc: Global, name: &str) -> Result<String, AllocError> {
    let id = process::id(rt.process());
    format!(in alloc; "/tmp/mast_real-{id}-{name}")
}

#[test]
fn a_folder_is_read(rt: HostRuntime) -> Result<(), Fail> {
    let alloc = rt.alloc();
    let path = folder(&rt, alloc, "source")?;
    fs::write(&rt, path.as_str(), b"abcdef".as_slice())?;
    let mut source = FolderSource::new(rt.clone()?);
    let mut into = [0u8; 3];
    assert_eq!(rt; source.find(path.as_bytes()), Ok(Some(6)));
    assert_eq!(rt; source.find(b"/tmp"), Ok(None));
    assert_eq!(rt; source.read(path.as_bytes(), 2, &mut into), Ok(()));
    assert_eq!(rt; into.as_slice(), b"cde".as_slice());
    assert_eq!(rt; source.read(path.as_bytes(), 4, &mut into), Err(Failed));
    fs::remove_file(&rt, path.as_str())?;
    Ok(())
}

#[test]
fn a_folder_is_written(rt: HostRuntime) -> Result<(), Fail> {
    let alloc = rt.alloc();
    let path = folder(&rt, alloc, "volume")?;
    let mut volume = FolderVolume::new(rt.clone()?, alloc, path.clone()?);
    let mut into = [0u8; 2];
    assert_eq!(rt; volume.cut(FileId::Cpl, 0), Ok(()));
    assert_eq!(rt; volume.write(FileId::Cpl, 0, b"abcd"), Ok(()));
    assert_eq!(rt; volume.cut(FileId::Cpl, 3), Ok(()));
    assert_eq!(rt; volume.sync(FileId::Cpl), Ok(()));
    assert_eq!(rt; volume.len(FileId::Cpl), Ok(3));
    assert_eq!(rt; volume.len(FileId::Pkl), Ok(0));
    assert_eq!(rt; volume.read(FileId::Cpl, 1, &mut into), Ok(()));
    assert_eq!(rt; into.as_slice(), b"bc".as_slice());
    fs::remove_dir_all(&rt, path.as_str())?;
    Ok(())
}

#[test]
fn a_line_is_printed(rt: HostRuntime) -> Result<(), Fail> {
    assert_eq!(rt; StdSink::new(rt.clone()?).put(b"printed\n"), Ok(()));
    Ok(())
}
